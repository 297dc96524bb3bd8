//! A message that comes in pieces.

ghost use Rattle.std.specs.Prelude.{◌≡◌, ℕ, List, [], ◌++◌};

use crate::{Digest, LEN};

/// Takes a message piece by piece, and gives its digest at any time.
pub trait Streaming: Copy {
    /// The digest that it gives.
    type Of: Digest;

    /// It was given these bytes.
    ghost took: { Self → List ℕ → Type 0 };

    /// A hasher that took nothing yet.
    fn new() -> Self
        ensures { took result [] };

    /// Takes `piece` after what came before.
    fn update(&mut self, piece: &[u8])
        ensures { (bs : List ℕ) → took self.old bs → took self.new (bs ++ piece.now) };

    /// The digest of all that came.
    fn finalize(&self) -> [u8; LEN]
        ensures { (bs : List ℕ) → took self.now bs → result ≡ Self.Of.means bs };
}

/// The digest of `front` and then `back`, with no copy that joins them.
pub fn pair<H: Streaming>(front: &[u8], back: &[u8]) -> [u8; LEN]
    ensures { result ≡ H.Of.means (front.now ++ back.now) }
{
    let mut hasher = H::new();
    hasher.update(front);
    hasher.update(back);
    hasher.finalize()
}
