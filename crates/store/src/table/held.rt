ghost use Rattle.std.specs.Prelude.{◌≡◌, ◌≤◌, [], length};
ghost use Rattle.octets.specs.Numbers.{Bytes};
ghost use Rattle.store.specs.Limits.{max_slot};

use crate::slot::MAX_SLOT;
use arrayvec::ArrayVec;

/// The bytes of a slot.
#[derive(Drop)]
pub(super) struct Held {
    pub(super) bytes: ArrayVec<u8, MAX_SLOT>,
    ghost short: { length bytes.items ≤ max_slot },
    ghost bounded: { Bytes bytes.items },
}

impl Held {
    pub(super) fn nothing() -> Held
        ensures { result.bytes.items ≡ [] }
    {
        Held {
            bytes: ArrayVec::new(),
        }
    }

    /// Puts other bytes in place of those held.
    pub(super) fn refill(&mut self, bytes: &[u8])
        requires { length bytes.now ≤ max_slot }
        ensures { self.new.bytes.items ≡ bytes.now }
    {
        // Those of the same length need no blanks first, which `clear` writes.
        if bytes.len() == self.bytes.len() {
            self.bytes.as_mut_slice().copy_from_slice(bytes);
            return;
        }
        self.bytes.clear();
        self.bytes.try_extend_from_slice(bytes).unwrap();
    }
}
