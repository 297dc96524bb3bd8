ghost use Rattle.std.specs.Prelude.{◌≡◌};
ghost use Rattle.version.specs.Refusals.{numbered};

use thiserror::Error;

/// Why a call was refused. A refused call changes nothing.
#[derive(Clone, Copy, Debug, PartialEq, Eq, Error)]
pub enum Refusal {
    /// A group size or a site is out of range, or two versions are of different group sizes.
    #[error("a group size or a site is out of range, or the group sizes differ")]
    OutOfRange,
    /// The site's timestamp is 4,294,967,295 and cannot rise.
    #[error("the timestamp is at its limit")]
    TimestampLimit,
    /// The bytes are no version: the first bad, incomplete or surplus field begins at this offset.
    #[error("a bad, incomplete or surplus field begins at byte {0}")]
    BadField(usize),
    /// The buffer is too short for what is to be written.
    #[error("the buffer is too short")]
    BufferTooShort,
}

impl Refusal {
    /// The number that this refusal has in docs/RULES.md.
    pub fn number(&self) -> u8
        ensures { result ≡ numbered self.now }
    {
        // Kept: one variant has an offset, so no `as` reads a number off the enum, and a `From` would only hold this match.
        match self {
            Refusal::OutOfRange => 1,
            Refusal::TimestampLimit => 5,
            Refusal::BadField(_) => 7,
            Refusal::BufferTooShort => 11,
        }
    }
}
