//! Register stores: for each site a value slot and a version slot, known by what they mean.
#![tactic(auto)]

mod check;
mod fault;
mod slot;
mod store;
pub mod table;
pub mod wear;

pub use fault::Fault;
pub use slot::{MAX_SITES, MAX_SLOT, Slot};
pub use store::Store;

#[cfg(test)]
mod tests;
