//! The slots of one site.

ghost use Rattle.std.specs.Prelude.{◌≡◌, ◌≤◌, length};
ghost use Rattle.store.specs.Limits.{max_slot};
ghost use Rattle.store.specs.Pair.{bytes_in, Blank, Put};

use super::held::Held;
use crate::slot::Slot;

/// The two slots of a site.
#[derive(Drop)]
pub(super) struct Pair {
    value: Held,
    version: Held,
}

impl Pair {
    /// Slots that hold nothing.
    pub(super) fn empty() -> Pair
        ensures { Blank result }
    {
        Pair {
            value: Held::nothing(),
            version: Held::nothing(),
        }
    }

    /// What a slot holds.
    pub(super) fn held(&self, slot: Slot) -> &[u8]
        ensures { result.now ≡ bytes_in slot self.now }
    {
        match slot {
            Slot::Value => self.value.bytes.as_slice(),
            Slot::Version => self.version.bytes.as_slice(),
        }
    }

    /// Puts other bytes into a slot.
    pub(super) fn put(&mut self, slot: Slot, bytes: &[u8])
        requires { length bytes.now ≤ max_slot }
        ensures { Put self.old slot bytes.now self.new }
    {
        match slot {
            Slot::Value => self.value.refill(bytes),
            Slot::Version => self.version.refill(bytes),
        }
    }
}
