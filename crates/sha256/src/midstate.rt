//! The hash value after a first block, to begin many messages with.

ghost use Rattle.std.specs.Prelude.{◌≡◌, ℕ, List, ◌++◌};
ghost use Rattle.sha256.specs.Sha256.{sha256};
ghost use Rattle.sha256.specs.Stream.{After};

use crate::compression::{State, compress};
use crate::message::{START, conclude};

/// The state after a first block of 64 bytes. Messages that begin with this block go on from here.
#[repr(C)]
#[derive(Clone, Copy)]
pub struct Midstate {
    state: State,
}

impl Midstate {
    /// The state after `block`.
    pub fn of(block: &[u8; 64]) -> Midstate
        ensures { After result block.now }
    {
        Midstate {
            state: compress(START, block),
        }
    }

    /// The SHA-256 of the block and then `rest`.
    pub fn digest(&self, rest: &[u8]) -> [u8; 32]
        ensures { (block : List ℕ) → After self.now block → result ≡ sha256 (block ++ rest.now) }
    {
        conclude(self.state, rest, (rest.len() as u64).wrapping_add(64))
    }
}
