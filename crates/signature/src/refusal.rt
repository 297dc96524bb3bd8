ghost use Rattle.std.specs.Prelude.{◌≡◌};
ghost use Rattle.signature.specs.Refusals.{numbered};

use thiserror::Error;

/// Why a call was refused. A refused call changes nothing.
#[derive(Clone, Copy, Debug, PartialEq, Eq, Error)]
pub enum Refusal {
    /// The site is not from 1 to `MAX_SITES`.
    #[error("the site is out of range")]
    OutOfRange = 1,
    /// The text has more than `MAX_TEXT` bytes.
    #[error("the text to sign is too long")]
    TextTooLong = 4,
    /// The site has no signature left.
    #[error("the site has no signature left")]
    NoneLeft = 6,
    /// The buffer is shorter than a signature.
    #[error("the buffer is too short")]
    BufferTooShort = 11,
}

impl Refusal {
    /// The number that this refusal has in docs/RULES.md.
    pub fn number(&self) -> u8
        ensures { result ≡ numbered self.now }
    {
        *self as u8
    }
}
