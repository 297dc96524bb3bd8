//! The rules of a register group: what each call of a site and of the host answers and changes, and the law over all runs.
//!
//! `specs/` has one relation for each call, and the contracts of sites and hosts cite them. The code here is what those
//! relations speak of: the refusals, the stops and the phases of a site.
#![tactic(auto)]

mod fault;
mod law;
mod phase;
mod refusal;
mod stop;

pub use fault::Fault;
pub use law::law_stands;
pub use phase::Phase;
pub use refusal::Refusal;
pub use stop::Stop;
