//! Slots that are written.

ghost use Rattle.std.specs.Prelude.{◌≡◌, ℕ, ◌≤◌, length};
ghost use Rattle.message.specs.Slots.{value_slot, value_stored, version_slot, version_stored};
ghost use Rattle.message.specs.Writes.{TooLong};
ghost use Rattle.store.specs.Calls.{Site};
ghost use Rattle.host.specs.Keeps.{Keeps};

use message::{ValueSlot, VersionSlot};
use store::{Fault, MAX_SLOT, Slot, Store};

// The bytes of a value slot, written to the front of `room`.
// Kept: beside `version_bytes`, since the two differ in what has to be short for a slot to fit, and a trait over both is longer than
// they are.
pub(crate) fn value_bytes<'r>(slot: &ValueSlot, room: &'r mut [u8; MAX_SLOT]) -> &'r [u8]
    requires value { TooLong (value_stored slot.now).value → ⊥ }
    requires signature { length slot.now.data_signature.now ≤ 64 }
    ensures short { length result.now ≤ 1024 }
    ensures bytes { (g : ℕ) → result.now ≡ (value_slot g).put (value_stored slot.now) }
{
    let end = slot.write(room).unwrap();
    &room[..end]
}

// The bytes of a version slot, written to the front of `room`.
pub(crate) fn version_bytes<'r>(slot: &VersionSlot, room: &'r mut [u8; MAX_SLOT]) -> &'r [u8]
    requires commit { length slot.now.commit_signature.now ≤ 64 }
    requires proof { length slot.now.proof_signature.now ≤ 64 }
    ensures short { length result.now ≤ 1024 }
    ensures bytes { (n g : ℕ) → result.now ≡ (version_slot n g).put (version_stored slot.now) }
{
    let end = slot.write(room).unwrap();
    &room[..end]
}

// Replaces a slot of `site`.
pub(crate) fn keep<T: Store>(store: &mut T, slot: Slot, site: u8, bytes: &[u8]) -> Result<(), Fault>
    requires site { Site site }
    requires short { length bytes.now ≤ 1024 }
    ensures { Keeps (T.Store.means store.old) slot site bytes.now (T.Store.means store.new) result }
{
    store.write(slot, site, bytes)
}
