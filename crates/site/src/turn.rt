//! Whether it is a call's turn.

ghost use Rattle.site.specs.State.{state, operation_named};
ghost use Rattle.site.specs.Steps.{Idles, Turns};

use super::state::Site;
use super::ticket::Ticket;
use message::Code;
use rules::{Phase, Refusal};

impl Site {
    // Whether an operation can be begun.
    pub(crate) fn idle(&self) -> Result<(), Refusal>
        ensures { Idles (state self.now) result }
    {
        match self.phase {
            Phase::Idle => Ok(()),
            Phase::Waiting(_, _) => Err(Refusal::OutOfTurn),
            Phase::Stopped | Phase::Retired => Err(Refusal::OutOfService),
        }
    }

    // The code and the register of the waiting operation, if that is the ticket's.
    pub(crate) fn awaited(&self, ticket: &Ticket) -> Result<(Code, u8), Refusal>
        ensures { Turns (state self.now) (operation_named ticket.now) result }
    {
        match self.phase {
            Phase::Idle => Err(Refusal::OutOfTurn),
            Phase::Waiting(code, register) => {
                let next = self.own() as u64 + 1;
                if ticket.site() != self.number || ticket.timestamp() as u64 != next {
                    return Err(Refusal::OutOfTurn);
                }
                Ok((code, register))
            }
            Phase::Stopped | Phase::Retired => Err(Refusal::OutOfService),
        }
    }
}
