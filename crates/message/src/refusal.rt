ghost use Rattle.std.specs.Prelude.{◌≡◌};
ghost use Rattle.message.specs.Refusals.{numbered};

use thiserror::Error;

/// Why a call was refused. A refused call changes nothing.
#[derive(Clone, Copy, Debug, PartialEq, Eq, Error)]
pub enum Refusal {
    /// No group has this size.
    #[error("no group has this size")]
    OutOfRange,
    /// The value has more than 512 bytes.
    #[error("the value is too long")]
    ValueTooLong,
    /// The bytes are no such message: the first bad, incomplete or surplus field begins at this offset.
    #[error("a bad, incomplete or surplus field begins at byte {0}")]
    BadField(usize),
    /// The buffer is too short for what is to be written.
    #[error("the buffer is too short")]
    BufferTooShort,
}

impl Refusal {
    /// The number that this refusal has in docs/RULES.md.
    pub fn number(&self) -> u8
        ensures { result ≡ numbered self.now }
    {
        // Kept: one variant has an offset, so no `as` reads a number off the enum, and a `From` would only hold this match.
        match self {
            Refusal::OutOfRange => 1,
            Refusal::ValueTooLong => 4,
            Refusal::BadField(_) => 7,
            Refusal::BufferTooShort => 11,
        }
    }
}
