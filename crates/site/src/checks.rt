//! What a site checks of a reply before it takes over what the reply says.

ghost use Rattle.std.specs.Prelude.{◌≡◌, ◌<◌, length, Decides};
ghost use Rattle.message.specs.Reply.{response};
ghost use Rattle.rules.specs.Group.{Member, max_timestamp, slot};
ghost use Rattle.version.specs.Order.{AtOrBelow};
ghost use Rattle.version.specs.Version.{slots};
ghost use Rattle.site.specs.Checking.{WellRead, Verifies, size_of};
ghost use Rattle.site.specs.State.{setup};

use super::checker::Checker;
use super::running::Running;
use super::versions::{at_or_below, timestamp_of};
use digest::Digest;
use message::Reply;
use rules::Stop;
use signature::Scheme;
use version::Version;

impl<S: Scheme, D: Digest> Checker<'_, S, D> {
    /// Checks a reply to an operation of the site on `register`, where the site has this version, and answers the version that it
    /// has afterwards.
    pub(crate) fn verify(
        &self,
        version: &Version,
        register: u8,
        reply: &Reply,
    ) -> Result<Running, Stop>
        requires read { WellRead S.Scheme.G reply.now }
        requires sizes { size_of reply.now ≡ length (slots version.now) }
        requires member { Member (length (slots version.now)) self.now.number }
        requires below { (slot (slots version.now) self.now.number).timestamp < max_timestamp }
        ensures { Verifies (setup (length (slots version.now)) S.Scheme.G D.Digest.means) (S.Scheme.means self.now.scheme.now) self.now.number (slots version.now) register (response S.Scheme.G (length (slots version.now)) reply.now) result }
    {
        if !self.version_signed(reply.committer, &reply.version, reply.commit_signature) {
            return Err(Stop::CommitSignature);
        }
        if !self.follows(version, &reply.version) {
            return Err(Stop::Forked);
        }
        let mut running = self.check_entries(reply)?;
        running.rise(self.digest, self.number);
        if let Some(found) = &reply.found {
            self.check_found(register, reply, &running.version, found)?;
        }
        Ok(running)
    }

    // Whether the committed version is at or above the site's, and counts the same of its operations.
    fn follows(&self, version: &Version, committed: &Version) -> bool
        ensures { Decides result (AtOrBelow (slots version.now) (slots committed.now) × ((slot (slots version.now) self.now.number).timestamp ≡ (slot (slots committed.now) self.now.number).timestamp)) }
    {
        at_or_below(version, committed)
            && timestamp_of(version, self.number) == timestamp_of(committed, self.number)
    }
}
