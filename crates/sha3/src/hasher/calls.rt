//! What a hasher does.

ghost use Rattle.std.specs.Prelude.{◌≡◌, ℕ, List, [], ◌++◌};
ghost use Rattle.sha3.specs.Sha3.{sha3_256};
ghost use Rattle.sha3.specs.Stream.{Took};

use super::Hasher;
use crate::Sha3_256;
use crate::sponge::{RATE, conclude};
use digest::{LEN, Streaming, fill};

impl Streaming for Hasher {
    type Of = Sha3_256;

    ghost took = { Took };

    fn new() -> Hasher {
        Hasher {
            state: [0; 25],
            buffer: [0; RATE],
            used: 0,
        }
    }

    fn update(&mut self, piece: &[u8]) {
        let used = self.used as u64;
        self.used = fill::<Sha3_256, RATE>(&mut self.state, &mut self.buffer, used, piece);
    }

    fn finalize(&self) -> [u8; LEN] {
        conclude(self.state, &self.buffer[0..self.used])
    }
}

// The calls of the trait, for callers that have not brought it in.
impl Hasher {
    /// A hasher that took nothing yet.
    pub fn new() -> Hasher
        ensures { Took result [] }
    {
        <Hasher as Streaming>::new()
    }

    /// Takes `piece` after what came before.
    pub fn update(&mut self, piece: &[u8])
        ensures { (bs : List ℕ) → Took self.old bs → Took self.new (bs ++ piece.now) }
    {
        <Hasher as Streaming>::update(self, piece);
    }

    /// The SHA3-256 of all that came.
    pub fn finalize(&self) -> [u8; LEN]
        ensures { (bs : List ℕ) → Took self.now bs → result ≡ sha3_256 bs }
    {
        <Hasher as Streaming>::finalize(self)
    }
}
