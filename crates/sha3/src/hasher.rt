//! SHA3-256 of a message that comes in pieces.

ghost use Rattle.std.specs.Prelude.{◌<◌};

use crate::permutation::State;
use crate::sponge::RATE;

mod calls;

/// A hash in progress: the state after the whole blocks so far, and the bytes after them in front of the buffer.
// Kept: a buffer with its length beside it, since no digest takes an allocator.
#[derive(Clone, Copy)]
pub struct Hasher {
    state: State,
    buffer: [u8; RATE],
    used: usize,
    ghost within: { used < 136 },
}
