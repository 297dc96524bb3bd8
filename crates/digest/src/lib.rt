//! What a digest is, and what hash functions share that take their message block by block or piece by piece.
#![tactic(auto)]

ghost use Rattle.std.specs.Prelude.{◌≡◌, ℕ, ◌<◌, List, length, slice_index};

mod block_hash;
mod streaming;

pub use block_hash::{BlockHash, absorb, fill};
pub use streaming::{Streaming, pair};

/// The number of bytes of a digest. The laws of [`Digest`] have it as 32.
pub const LEN: usize = 32;

/// A fixed function from byte strings to strings of `LEN` bytes.
pub trait Digest {
    /// The digest of a byte string: a function of the type, and not of the value.
    ghost means: { List ℕ → List ℕ };

    /// The digest of `bytes`.
    fn digest(&self, bytes: &[u8]) -> [u8; LEN]
        ensures { result ≡ means bytes.now };

    ghost len: { (bs : List ℕ) → length (means bs) ≡ 32 };

    ghost bytes: { (bs : List ℕ) (k : ℕ) → slice_index (means bs) k < 256 };
}
