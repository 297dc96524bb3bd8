//! The SHA-256 of a message that comes in pieces.

ghost use Rattle.std.specs.Prelude.{◌≡◌, ℕ, List, [], ◌++◌};
ghost use Rattle.sha256.specs.Sha256.{sha256};
ghost use Rattle.sha256.specs.Stream.{Took};

use crate::Sha256;
use crate::compression::State;
use crate::message::{START, conclude};
use digest::{LEN, Streaming, fill};

/// Takes a message piece by piece, and gives its digest at any time.
// Kept: a block with a length beside it, since callers in C have this struct by its layout.
#[repr(C)]
#[derive(Clone, Copy)]
pub struct Hasher {
    state: State,
    block: [u8; 64],
    len: u64,
}

impl Streaming for Hasher {
    type Of = Sha256;

    ghost took = { Took };

    fn new() -> Hasher {
        Hasher {
            state: START,
            block: [0; 64],
            len: 0,
        }
    }

    fn update(&mut self, piece: &[u8]) {
        fill::<Sha256, 64>(&mut self.state, &mut self.block, self.len, piece);
        self.len = self.len.wrapping_add(piece.len() as u64);
    }

    fn finalize(&self) -> [u8; LEN] {
        let used = (self.len % 64) as usize;
        conclude(self.state, &self.block[0..used], self.len)
    }
}

// The calls of the trait, for callers that have not brought it in.
impl Hasher {
    /// A hasher that took nothing yet.
    pub fn new() -> Hasher
        ensures { Took result [] }
    {
        <Hasher as Streaming>::new()
    }

    /// Takes `piece` after what came before.
    pub fn update(&mut self, piece: &[u8])
        ensures { (bs : List ℕ) → Took self.old bs → Took self.new (bs ++ piece.now) }
    {
        <Hasher as Streaming>::update(self, piece);
    }

    /// The SHA-256 of all that came.
    pub fn finalize(&self) -> [u8; LEN]
        ensures { (bs : List ℕ) → Took self.now bs → result ≡ sha256 bs }
    {
        <Hasher as Streaming>::finalize(self)
    }
}
