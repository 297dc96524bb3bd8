ghost use Rattle.std.specs.Prelude.{◌≡◌};
ghost use Rattle.store.specs.Faults.{numbered};

use thiserror::Error;

/// Why a store refused a call. A refused call changes nothing.
#[derive(Clone, Copy, Debug, PartialEq, Eq, Error)]
pub enum Fault {
    /// There is no such site: its number is 0 or above `MAX_SITES`.
    #[error("the site is out of range")]
    OutOfRange = 1,
    /// The new bytes of a slot are more than `MAX_SLOT`.
    #[error("the bytes are too many for the slot")]
    TooLong = 4,
    /// The store has no rewrite left.
    #[error("the store has no rewrite left")]
    NoRewriteLeft = 10,
    /// The buffer is shorter than the slot.
    #[error("the buffer is too short")]
    BufferTooShort = 11,
}

impl Fault {
    /// The number that this refusal has in docs/RULES.md.
    pub fn number(&self) -> u8
        ensures { result ≡ numbered self.now }
    {
        *self as u8
    }
}
