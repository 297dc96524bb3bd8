ghost use Rattle.std.specs.Prelude.{◌≡◌};
ghost use Rattle.rules.specs.Numbers.{refusal_number};

use thiserror::Error;

/// Why a site refused a call. A refused call changes nothing and hands the ticket back.
#[derive(Clone, Copy, Debug, PartialEq, Eq, Error)]
pub enum Refusal {
    /// The register is none of the group's.
    #[error("the group has no such register")]
    OutOfRange,
    /// The site is stopped or retired.
    #[error("the site is stopped or retired")]
    OutOfService,
    /// The site is waiting at a begin, or the ticket is not its waiting operation.
    #[error("this is not the site's waiting operation")]
    OutOfTurn,
    /// The value has more than 512 bytes.
    #[error("the value is too long")]
    ValueTooLong,
    /// The site's timestamp is the greatest that there is.
    #[error("the site's timestamp cannot rise")]
    TimestampLimit,
    /// Fewer than four signatures are left at a begin, or fewer than two at a finish.
    #[error("the site has too few signatures left")]
    TooFewSignatures,
    /// The bytes are no reply to the waiting operation: the first bad, incomplete or surplus field begins at this offset.
    #[error("a bad, incomplete or surplus field begins at byte {0}")]
    BadField(usize),
    /// The buffer is too short for the message.
    #[error("the buffer is too short")]
    BufferTooShort,
}

impl Refusal {
    /// The number that this refusal has in docs/RULES.md.
    pub fn number(&self) -> u8
        ensures { result ≡ refusal_number self.now }
    {
        // Kept: one variant has an offset, so no `as` reads a number off the enum, and a `From` would only hold this match.
        match self {
            Refusal::OutOfRange => 1,
            Refusal::OutOfService => 2,
            Refusal::OutOfTurn => 3,
            Refusal::ValueTooLong => 4,
            Refusal::TimestampLimit => 5,
            Refusal::TooFewSignatures => 6,
            Refusal::BadField(_) => 7,
            Refusal::BufferTooShort => 11,
        }
    }
}
