ghost use Rattle.std.specs.Prelude.{◌≡◌};
ghost use Rattle.rules.specs.Numbers.{fault_number};
ghost use Rattle.rules.specs.declared.fault.Fault.TheVariants.{Message, Store};

use thiserror::Error;

/// Why the host refused a message. A refused message changes nothing.
#[derive(Clone, Copy, Debug, PartialEq, Eq, Error)]
pub enum Fault {
    /// The bytes do not read: the reader's refusal, with the offset.
    #[error("{0}")]
    Message(message::Refusal),
    /// A submit is not the site's next operation, or a commit not that of its last one.
    #[error("the message is out of order for its site")]
    OutOfOrder,
    /// The list has an entry for each site already.
    #[error("too many operations are not committed yet")]
    ListFull,
    /// The store's fault.
    #[error("{0}")]
    Store(store::Fault),
    /// The buffer is too short for the reply.
    #[error("the buffer is too short")]
    BufferTooShort,
}

impl Fault {
    /// The number that this fault has in docs/RULES.md.
    pub fn number(&self) -> u8
        ensures { result ≡ fault_number self.now }
    {
        // Kept: two variants carry a refusal with a number of its own, so no `as` reads a number off the enum.
        match self {
            Fault::Message(refusal) => refusal.number(),
            Fault::OutOfOrder => 8,
            Fault::ListFull => 9,
            Fault::Store(fault) => fault.number(),
            Fault::BufferTooShort => 11,
        }
    }
}

impl From<message::Refusal> for Fault {
    ghost from_gives = { λ e r. r ≡ Message e };

    fn from(e: message::Refusal) -> Fault {
        Fault::Message(e)
    }
}

impl From<store::Fault> for Fault {
    ghost from_gives = { λ e r. r ≡ Store e };

    fn from(e: store::Fault) -> Fault {
        Fault::Store(e)
    }
}
