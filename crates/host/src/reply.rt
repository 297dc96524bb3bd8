//! The reply to a submit.

ghost use Rattle.std.specs.Prelude.{◌≡◌, map, length};
ghost use Rattle.std.specs.List.{range_with_len};
ghost use Rattle.std.specs.Option.{option_map};
ghost use Rattle.message.specs.Reply.{held, reply as reply_field, signatures};
ghost use Rattle.message.specs.Slots.{value_stored};
ghost use Rattle.message.specs.Replied.{FoundTooLong};
ghost use Rattle.message.specs.Writes.{TooLong, Writes};
ghost use Rattle.rules.specs.Group.{Member};
ghost use Rattle.host.specs.Replies.{found_by, reply_to};
ghost use Rattle.host.specs.State.{host_state, version_said};

use super::host::Host;
use message::{Code, Found, Refusal, ReplyParts, Submit, ValueSlot};
use signature::MAX_SIGNATURE;
use store::{MAX_SLOT, Store};
use version::MAX_SITES;

// The most bytes that the proof signatures of all sites have.
const PROOFS_SIZE: usize = MAX_SITES as usize * MAX_SIGNATURE;

impl<T: Store> Host<T> {
    // Writes the reply to a submit after which the value slot of its site says `new`.
    pub(crate) fn reply<'a>(
        &'a self,
        submit: &Submit,
        new: &'a ValueSlot<'a>,
        out: &mut [u8],
    ) -> Result<usize, Refusal>
        requires member { Member self.now.size submit.now.register }
        requires short { TooLong (value_stored new.now).value → ⊥ }
        ensures { Writes (reply_field self.now.size self.now.signature) (reply_to self.now.size self.now.signature (host_state self.now) (T.Store.means self.now.store) submit.now.code submit.now.site submit.now.register (value_stored new.now)) ⊥ out.old out.new result }
    {
        let mut room = [0; MAX_SLOT];
        let leader = self.version_slot(self.committer, &mut room);
        let mut proofs = [0; PROOFS_SIZE];
        self.copy_proofs(&mut proofs);
        let mut owner_room = [0; MAX_SLOT];
        let mut value_room = [0; MAX_SLOT];
        let found = self.found(submit, new, &mut owner_room, &mut value_room);
        let parts = ReplyParts {
            committer: self.committer,
            version: &leader.version,
            commit_signature: leader.commit_signature,
            entries: self.list.as_slice(),
            proofs: &proofs,
            found,
        };
        parts.write(self.signature, out)
    }

    // What a submit finds, after which the value slot of its site says `new`: a write finds nothing.
    fn found<'r>(
        &self,
        submit: &Submit,
        new: &'r ValueSlot<'r>,
        owner_room: &'r mut [u8; MAX_SLOT],
        value_room: &'r mut [u8; MAX_SLOT],
    ) -> Option<Found<'r>>
        requires member { Member self.now.size submit.now.register }
        requires short { TooLong (value_stored new.now).value → ⊥ }
        ensures found { option_map held result ≡ found_by self.now.size self.now.signature (T.Store.means self.now.store) submit.now.code submit.now.site submit.now.register (value_stored new.now) }
        ensures short { FoundTooLong result → ⊥ }
    {
        if submit.code == Code::Write {
            return None;
        }
        let owner = self.version_slot(submit.register, owner_room);
        let value = if submit.site == submit.register {
            *new
        } else {
            self.value_slot(submit.register, value_room)
        };
        Some(Found {
            version: owner.version,
            commit_signature: owner.commit_signature,
            timestamp: value.timestamp,
            value: value.value,
            data_signature: value.data_signature,
        })
    }

    // Copies the proof signatures of all sites to the front of `out`, one behind the other.
    fn copy_proofs(&self, out: &mut [u8; PROOFS_SIZE])
        ensures { signatures self.now.signature out.new self.now.size 0 ≡ map (λ i. (version_said T.Store.means self.now i).proof_signature) (range_with_len 1 self.now.size) }
    {
        let g = self.signature;
        // Kept: after a loop over `chunks_exact_mut` nothing is known of the bytes, so the proof didn't close with it.
        for place in 0..self.size {
            let at = g * place as usize;
            self.copy_proof(place + 1, &mut out[at..at + g]);
        }
    }

    // Copies the proof signature of `site` to `out`, which has room for one.
    fn copy_proof(&self, site: u8, out: &mut [u8])
        requires member { Member self.now.size site }
        requires room { length out.old ≡ self.now.signature }
        ensures long { length out.new ≡ self.now.signature }
        ensures value { out.new ≡ (version_said T.Store.means self.now site).proof_signature }
    {
        let mut room = [0; MAX_SLOT];
        let said = self.version_slot(site, &mut room);
        out.copy_from_slice(said.proof_signature);
    }
}
