//! A site of a register group: it begins its operations, one at a time, and finishes or abandons each.
//!
//! A begun operation is held as a [`Ticket`], which cannot be copied or let go: it is given back to the site.
#![tactic(auto)]

mod abandon;
mod access;
mod admit;
mod begin;
mod checker;
mod checks;
mod commit;
mod entries;
mod finish;
mod found;
mod request;
mod running;
mod sign;
mod signed;
mod state;
mod submit;
mod ticket;
mod turn;
mod versions;

pub use abandon::Kept;
pub use begin::Begun;
pub use finish::{Finished, Unfinished};
pub use state::Site;
pub use ticket::Ticket;
