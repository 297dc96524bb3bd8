//! A signature scheme that remembers what it signed.
//!
//! It keeps up to 16 entries of each site. A signature is the serial number of its entry over all sites, from 1, in
//! eight bytes, highest first; it is valid for the site and the text that the entry holds.
#![tactic(auto)]

mod entry;
mod held;
mod ledger;
mod scheme;
mod serial;

pub use ledger::Ledger;
pub use serial::MAX_ENTRIES;
