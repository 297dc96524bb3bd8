//! What the slots of a store say.

ghost use Rattle.std.specs.Prelude.{◌≡◌, replicate};
ghost use Rattle.message.specs.Slots.{value_stored, version_stored};
ghost use Rattle.store.specs.Calls.{Site};
ghost use Rattle.rules.specs.Group.{Member};
ghost use Rattle.host.specs.Says.{FormedValue, FormedVersion};
ghost use Rattle.host.specs.State.{value_said, version_said};

use super::host::Host;
use message::{ValueSlot, VersionSlot};
use signature::MAX_SIGNATURE;
use store::{MAX_SLOT, Slot, Store};
use version::Version;

static ZEROS: [u8; MAX_SIGNATURE] = [0; MAX_SIGNATURE];

// Kept: beside each other, since the two differ in their fields and in what counts where a slot does not read, which is all they
// have. That a site is one of the group is asked here and above, and in no type, since messages give it as a number.
impl<T: Store> Host<T> {
    // What the value slot of `site` says, or what counts where it does not read. Its bytes are copied to `room`.
    pub(crate) fn value_slot<'r>(&self, site: u8, room: &'r mut [u8; MAX_SLOT]) -> ValueSlot<'r>
        requires { Member self.now.size site }
        ensures says { value_stored result ≡ value_said T.Store.means self.now site }
        ensures formed { FormedValue self.now.signature (value_stored result) }
    {
        let bytes = load(&self.store, Slot::Value, site, room);
        ValueSlot::read(self.signature, bytes).unwrap_or(ValueSlot {
            timestamp: 0,
            value: None,
            data_signature: self.zeros(),
        })
    }

    // What the version slot of `site` says, or what counts where it does not read. Its bytes are copied to `room`.
    pub(crate) fn version_slot<'r>(&self, site: u8, room: &'r mut [u8; MAX_SLOT]) -> VersionSlot<'r>
        requires { Member self.now.size site }
        ensures says { version_stored result ≡ version_said T.Store.means self.now site }
        ensures formed { FormedVersion self.now.size self.now.signature (version_stored result) }
    {
        let bytes = load(&self.store, Slot::Version, site, room);
        VersionSlot::read(self.size, self.signature, bytes).unwrap_or(VersionSlot {
            version: Version::zero(self.size).unwrap(),
            commit_signature: self.zeros(),
            proof_signature: self.zeros(),
        })
    }
}

impl<T> Host<T> {
    // The signature of a slot that does not read.
    fn zeros(&self) -> &'static [u8]
        ensures { result.now ≡ replicate self.now.signature 0 }
    {
        &ZEROS[..self.signature]
    }
}

// Copies a slot to the front of `room` and answers that front.
fn load<'r, T: Store>(store: &T, slot: Slot, site: u8, room: &'r mut [u8; MAX_SLOT]) -> &'r [u8]
    requires { Site site }
    ensures { result.now ≡ (T.Store.means store.now).slot slot site }
{
    let end = store.read(slot, site, room).unwrap();
    &room[..end]
}
