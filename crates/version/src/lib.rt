//! Versions: what a site has seen of the others, and how two of them stand to each other.
#![tactic(auto)]

mod compare;
mod layout;
mod order;
mod refusal;
mod seen;
mod slots;
mod version;

pub use order::Order;
pub use refusal::Refusal;
pub use slots::MAX_SITES;
pub use version::Version;
