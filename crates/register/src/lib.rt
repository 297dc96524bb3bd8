//! A register group on a host that nobody trusts: each site writes one register and reads all.
//!
//! [`start`] makes the host and each site once, over any signature scheme, digest and store. A deployment takes the parts
//! of the [`Group`] apart and puts each on its own machine.
#![tactic(auto)]

mod group;
mod starting;

pub use group::{Group, Reason, Unstarted};
pub use starting::start;
