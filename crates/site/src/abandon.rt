//! Giving an operation up.

ghost use Rattle.site.specs.Calls.{AbandonsWith};
ghost use Rattle.site.specs.State.{state};

use super::state::Site;
use super::ticket::Ticket;
use rules::{Phase, Refusal};

/// A ticket that was refused, handed back, and why.
pub struct Kept {
    pub ticket: Ticket,
    pub refusal: Refusal,
}

impl Site {
    /// Gives the waiting operation up: the site is retired, for good.
    pub fn abandon(&mut self, ticket: Ticket) -> Result<(), Kept>
        ensures { AbandonsWith (state self.old) (state self.new) ticket result }
    {
        match self.awaited(&ticket) {
            Ok(_) => {
                ticket.spend();
                self.phase = Phase::Retired;
                Ok(())
            }
            Err(refusal) => Err(Kept { ticket, refusal }),
        }
    }
}
