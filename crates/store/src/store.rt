ghost use Rattle.std.specs.Prelude.{◌≡◌};
ghost use Rattle.store.specs.Calls.{Reads, Writes};
ghost use Rattle.store.specs.Meaning.{StoreMeaning, Sound};

use crate::fault::Fault;
use crate::slot::Slot;

/// A register store: a value slot and a version slot for each site, and a number of rewrites that are left.
///
/// Code over this trait knows a store by its meaning alone, so it is written and proved once for all of them.
// Kept: a slot and a site go together in two calls, but callers have them apart, and a struct would be made for one call each time.
pub trait Store {
    // what the slots hold and how many rewrites are left
    ghost means: { Self → StoreMeaning };

    /// Copies a slot to the front of `out` and answers its length.
    ///
    /// Refused if there is no such site, or else if `out` is shorter than the slot. `out` is then as it was.
    fn read(&self, slot: Slot, site: u8, out: &mut [u8]) -> Result<usize, Fault>
        ensures { Reads (means self.now) slot site out.old out.new result };

    /// How many rewrites are left.
    fn left(&self) -> u32
        ensures { result ≡ (means self.now).left };

    /// Replaces what a slot holds, which takes away at most one rewrite.
    ///
    /// Refused if there is no such site, or else if the bytes are too many, or else if no rewrite is left. Nothing has then changed.
    fn write(&mut self, slot: Slot, site: u8, bytes: &[u8]) -> Result<(), Fault>
        ensures { Writes (means self.old) slot site bytes.now (means self.new) result };

    ghost sound: { (x : Self) → Sound (means x) };
}
