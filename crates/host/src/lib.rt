//! The host of a register group: it takes submits and commits, over any store.
#![tactic(auto)]

mod check;
mod commit;
mod host;
mod keep;
mod leads;
mod list;
mod reply;
mod slots;
mod start;
mod submit;

pub use host::Host;
pub use start::Unstarted;
