//! What a read found: the owner's version, and the value.

ghost use Rattle.std.specs.Prelude.{◌≡◌, ◌+◌, ◌⊎◌, length, Decides};
ghost use Rattle.message.specs.Reply.{held};
ghost use Rattle.rules.specs.Group.{slot};
ghost use Rattle.std.specs.Option.{option_map};
ghost use Rattle.version.specs.Order.{AtOrBelow};
ghost use Rattle.version.specs.Version.{slots};
ghost use Rattle.site.specs.Checking.{ValueSigned, FoundAnswer, answered, size_of};
ghost use Rattle.site.specs.State.{setup};

use super::checker::Checker;
use super::versions::{at_or_below, timestamp_of};
use digest::{Digest, LEN};
use message::{Found, Reply, Text};
use rules::Stop;
use signature::Scheme;
use version::Version;

impl<S: Scheme, D: Digest> Checker<'_, S, D> {
    /// Checks 26 to 29 of what a read of `register` found, at the running version.
    pub(crate) fn check_found(
        &self,
        register: u8,
        reply: &Reply,
        running: &Version,
        found: &Found,
    ) -> Result<(), Stop>
        requires { length (slots found.now.version) ≡ size_of reply.now }
        ensures { FoundAnswer (setup (size_of reply.now) S.Scheme.G D.Digest.means) (S.Scheme.means self.now.scheme.now) (answered S.Scheme.G reply.now) (slots running.now) register (held found.now) result }
    {
        if !self.version_signed(register, &found.version, found.commit_signature) {
            return Err(Stop::OwnerSignature);
        }
        if !self.value_signed(register, found) {
            return Err(Stop::DataSignature);
        }
        if !owner_within(register, &reply.version, running, found) {
            return Err(Stop::OwnerVersion);
        }
        if !owner_recent(register, found) {
            return Err(Stop::OwnerTimestamp);
        }
        Ok(())
    }

    // Whether there is no value at timestamp 0, or the owner signed the timestamp and the value's digest above it.
    fn value_signed(&self, register: u8, found: &Found) -> bool
        ensures { Decides result (ValueSigned D.Digest.means (S.Scheme.means self.now.scheme.now) register (held found.now) found.now.timestamp) }
    {
        if found.timestamp == 0 {
            return found.value.is_none();
        }
        let digest = self.value_digest(found.value);
        let text = Text::Data(found.timestamp, digest.as_ref());
        self.signed(register, &text, found.data_signature)
    }

    fn value_digest(&self, value: Option<&[u8]>) -> Option<[u8; LEN]>
        ensures { result ≡ option_map D.Digest.means (option_map (λ v. v.now) value.entry) }
    {
        match value {
            Some(value) => Some(self.digest.digest(value)),
            None => None,
        }
    }
}

// Whether the owner's version is at or below the committed one, and the value of the owner's last operation.
fn owner_within(register: u8, committed: &Version, running: &Version, found: &Found) -> bool
    ensures { Decides result (AtOrBelow (slots found.now.version) (slots committed.now) × (found.now.timestamp ≡ (slot (slots running.now) register).timestamp)) }
{
    at_or_below(&found.version, committed) && found.timestamp == timestamp_of(running, register)
}

// Whether the owner has committed the operation that wrote the value, or all but that one.
fn owner_recent(register: u8, found: &Found) -> bool
    ensures { Decides result (((slot (slots found.now.version) register).timestamp ≡ found.now.timestamp) ⊎ ((slot (slots found.now.version) register).timestamp + 1 ≡ found.now.timestamp)) }
{
    let committed = timestamp_of(&found.version, register);
    matches!(found.timestamp.checked_sub(committed), Some(0 | 1))
}
