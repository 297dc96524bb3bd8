//! Taking a submit.

ghost use Rattle.std.specs.Prelude.{◌≡◌, ◌<◌, ◌≤◌, length};
ghost use Rattle.std.specs.Option.{option_map};
ghost use Rattle.arrayvec.specs.ArrayVec.{array_vec_len};
ghost use Rattle.message.specs.Replied.{entered};
ghost use Rattle.message.specs.Slots.{value_stored};
ghost use Rattle.message.specs.Submit.{submit as submit_field, submitted};
ghost use Rattle.rules.specs.Taking.{entry_of};
ghost use Rattle.host.specs.Calls.{SameGroup, TakesSubmitOver};
ghost use Rattle.host.specs.Enters.{Enters};
ghost use Rattle.host.specs.Messages.{FormedSubmit, ReadsFormed};
ghost use Rattle.host.specs.Says.{stored_with};
ghost use Rattle.host.specs.State.{host_state};

use super::host::Host;
use super::keep::{keep, value_bytes};
use message::{Code, ListEntry, Refusal, Submit, ValueSlot};
use rules::Fault;
use signature::MAX_SIGNATURE;
use store::{MAX_SLOT, Slot, Store};

impl<T: Store> Host<T> {
    /// Takes a submit: enters it, and writes the reply to the front of `out` and answers how many bytes it took.
    ///
    /// Refused if the bytes are no submit, or else if it is not the next operation of its site or the last one is not committed,
    /// or else if the list is full, or else if the store has no rewrite left, or else if `out` is shorter than the reply. Nothing
    /// has then changed.
    pub fn take_submit(&mut self, bytes: &[u8], out: &mut [u8]) -> Result<usize, Fault>
        ensures taken { TakesSubmitOver T.Store.means self.old self.new bytes.now out.old out.new result }
        ensures group { SameGroup self.old self.new }
    {
        let submit = self.read_submit(bytes)?;
        if !self.next_submit(submit.site, submit.timestamp) {
            return Err(Fault::OutOfOrder);
        }
        if self.list.len() >= self.size as usize {
            return Err(Fault::ListFull);
        }
        if self.store.left() == 0 {
            return Err(Fault::Store(store::Fault::NoRewriteLeft));
        }
        self.enter(&submit, out)
    }

    // Enters a submit that has passed all checks but that there is room for the reply.
    fn enter<'a>(&mut self, submit: &'a Submit<'a>, out: &mut [u8]) -> Result<usize, Fault>
        requires formed { FormedSubmit self.old.size self.old.signature (submitted submit.now) }
        requires free { array_vec_len self.old.list < self.old.size }
        requires left { 0 < (T.Store.means self.old.store).left }
        ensures enters { Enters self.old.size self.old.signature (host_state self.old) (host_state self.new) (T.Store.means self.old.store) (T.Store.means self.new.store) (submitted submit.now) out.old out.new result }
        ensures group { SameGroup self.old self.new }
    {
        let mut old_room = [0; MAX_SLOT];
        let old = self.value_slot(submit.site, &mut old_room);
        // reborrowed, to live as long as what the old value was copied to
        let new = stored(&*submit, old.value);
        let size = self
            .reply(submit, &new, out)
            .map_err(|_| Fault::BufferTooShort)?;
        let mut room = [0; MAX_SLOT];
        let bytes = value_bytes(&new, &mut room);
        keep(&mut self.store, Slot::Value, submit.site, bytes).unwrap();
        self.list.push(list_entry(submit));
        Ok(size)
    }
}

impl<T> Host<T> {
    // The submit that the bytes are.
    fn read_submit<'a>(&self, bytes: &'a [u8]) -> Result<Submit<'a>, Refusal>
        ensures { ReadsFormed (submit_field self.now.size self.now.signature) submitted (FormedSubmit self.now.size self.now.signature) bytes.now result }
    {
        Submit::read(self.size, self.signature, bytes)
    }
}

// The entry of a submit.
fn list_entry(submit: &Submit) -> ListEntry
    requires { length submit.now.submit_signature.now ≤ 64 }
    ensures { entered (length submit.now.submit_signature.now) result ≡ entry_of (submitted submit.now) }
{
    let mut signature = [0; MAX_SIGNATURE];
    signature[..submit.submit_signature.len()].copy_from_slice(submit.submit_signature);
    ListEntry {
        site: submit.site,
        code: submit.code,
        register: submit.register,
        signature,
    }
}

// What the value slot says after a submit, where it said `old` of the value: a read keeps it.
fn stored<'a>(submit: &'a Submit<'a>, old: Option<&'a [u8]>) -> ValueSlot<'a>
    ensures { value_stored result ≡ stored_with (submitted submit.now) (option_map (λ x. x.now) old.entry) }
{
    let value = match submit.code {
        Code::Read => old,
        Code::Write => submit.value,
    };
    ValueSlot {
        timestamp: submit.timestamp,
        value,
        data_signature: submit.data_signature,
    }
}
