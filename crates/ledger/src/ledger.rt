ghost use Rattle.std.specs.Prelude.{ℕ, ◌*◌, ◌≤◌, map, vec_capacity};
ghost use Rattle.signature.specs.Limits.{max_sites};
ghost use Rattle.ledger.specs.Entries.{most, count};
ghost use Rattle.ledger.specs.Held.{held};

use super::entry::Entry;

/// A scheme that keeps each accepted signing as an entry; a signature is the serial number of its entry.
///
/// It has its whole memory from birth: no later call allocates, or is refused for want of memory.
#[derive(Drop)]
pub struct Ledger {
    pub(crate) entries: Vec<Entry>,
    ghost few: { (s : ℕ) → count s (map held entries.items) ≤ most },
    ghost room: { max_sites * most ≤ vec_capacity entries },
}
