//! The entries of a reply: operations that are not committed yet.

ghost use Rattle.std.specs.Prelude.{◌≡◌, ◌+◌, ◌-◌, ◌*◌, ◌<◌, ◌≤◌, true, length, Decides};
ghost use Rattle.message.specs.Places.{bytes_at};
ghost use Rattle.message.specs.Reply.{listed as Listed_of, all_listed, signatures};
ghost use Rattle.message.specs.Strings.{submit_string};
ghost use Rattle.rules.specs.Checks.{Proved, proof_of};
ghost use Rattle.rules.specs.Group.{Member, max_timestamp, slot};
ghost use Rattle.version.specs.Version.{slots};
ghost use Rattle.site.specs.Checking.{WellRead, EntryAnswer, EntriesAnswer, answered, size_of};
ghost use Rattle.site.specs.Running.{running as running_of, committed};

use super::checker::Checker;
use super::running::Running;
use super::versions::{digest_of, timestamp_of};
use digest::Digest;
use message::{Entry, Reply, Text};
use rules::Stop;
use signature::Scheme;
use version::Version;

impl<S: Scheme, D: Digest> Checker<'_, S, D> {
    /// Checks the entries of a reply in their order, and answers the version that they make of the committed one.
    pub(crate) fn check_entries(&self, reply: &Reply) -> Result<Running, Stop>
        requires { WellRead S.Scheme.G reply.now }
        ensures { EntriesAnswer D.Digest.means (S.Scheme.means self.now.scheme.now) self.now.number (answered S.Scheme.G reply.now) (committed reply.now) (all_listed reply.now.entries) result }
    {
        let mut running = Running::from_reply(reply);
        for entry in reply.entries.as_slice() {
            self.check_entry(reply, &running, entry)?;
            running.rise(self.digest, entry.site);
        }
        Ok(running)
    }
}

impl<S: Scheme, D> Checker<'_, S, D> {
    // Checks 23, 24 and 25 of an entry, at the version that the entries before it made.
    fn check_entry(&self, reply: &Reply, before: &Running, entry: &Entry) -> Result<(), Stop>
        requires sizes { length (slots before.now.version) ≡ size_of reply.now }
        requires member { Member (size_of reply.now) entry.now.site }
        ensures { EntryAnswer (S.Scheme.means self.now.scheme.now) self.now.number (answered S.Scheme.G reply.now) (running_of before.now) (Listed_of entry.now) result }
    {
        if !self.digest_proved(entry.site, &before.version, reply.proofs) {
            return Err(Stop::ProofSignature);
        }
        if entry.site == self.number {
            return Err(Stop::OwnEntry);
        }
        if !self.submitted(entry, &before.version) {
            return Err(Stop::SubmitSignature);
        }
        Ok(())
    }

    // Whether the version has no digest for the site, or the site proved it.
    fn digest_proved(&self, site: u8, version: &Version, proofs: &[u8]) -> bool
        requires { Member (length (slots version.now)) site }
        ensures { Decides result (Proved (S.Scheme.means self.now.scheme.now) site (slot (slots version.now) site).digest (proof_of (signatures S.Scheme.G proofs.now (length (slots version.now)) 0) site)) }
    {
        match digest_of(version, site) {
            Some(digest) => {
                let proof = proof_at(proofs, S::G, site as usize - 1);
                self.signed(site, &Text::Proof(&digest), proof)
            }
            None => true,
        }
    }

    // Whether the entry is the next operation of its site, and signed by it.
    fn submitted(&self, entry: &Entry, version: &Version) -> bool
        requires { Member (length (slots version.now)) entry.now.site }
        ensures { Decides result (((slot (slots version.now) entry.now.site).timestamp < max_timestamp) × ((S.Scheme.means self.now.scheme.now).valid entry.now.site (submit_string entry.now.code entry.now.register ((slot (slots version.now) entry.now.site).timestamp + 1)) entry.now.signature.now ≡ true)) }
    {
        match timestamp_of(version, entry.site).checked_add(1) {
            Some(next) => {
                let text = Text::Submit(entry.code, entry.register, next);
                self.signed(entry.site, &text, entry.signature)
            }
            None => false,
        }
    }
}

// The signature at a place among signatures of `g` bytes that stand one behind the other.
fn proof_at(proofs: &[u8], g: usize, place: usize) -> &[u8]
    ensures { result.now ≡ bytes_at proofs.now (0 + g * place) g }
{
    let rest = &proofs[g.saturating_mul(place).min(proofs.len())..];
    &rest[..g.min(rest.len())]
}
