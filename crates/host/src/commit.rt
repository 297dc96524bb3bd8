//! Taking a commit.

ghost use Rattle.std.specs.Prelude.{◌≡◌, ℕ, ◌≤◌, length, if◌then◌else◌};
ghost use Rattle.message.specs.Commit.{commit as commit_field, committed};
ghost use Rattle.message.specs.Slots.{version_slot};
ghost use Rattle.store.specs.Calls.{Site};
ghost use Rattle.store.specs.declared.slot.Slot.TheVariants.{Version as the_version};
ghost use Rattle.version.specs.Version.{slots};
ghost use Rattle.rules.specs.Group.{Member};
ghost use Rattle.rules.specs.Taking.{after_last, leads as leads_over, version_stored};
ghost use Rattle.host.specs.Calls.{SameGroup, TakesCommitOver};
ghost use Rattle.host.specs.Keeps.{Keeps};
ghost use Rattle.host.specs.Messages.{FormedCommit, ReadsFormed};
ghost use Rattle.host.specs.State.{host_state, list_of, version_said};

use super::host::Host;
use super::keep::{keep, version_bytes};
use super::leads::leads;
use super::list::through_last;
use message::{Commit, Refusal, VersionSlot};
use rules::Fault;
use store::{MAX_SLOT, Slot, Store};
use version::Version;

impl<T> Host<T> {
    // The commit that the bytes are.
    fn read_commit<'a>(&self, bytes: &'a [u8]) -> Result<Commit<'a>, Refusal>
        ensures { ReadsFormed (commit_field self.now.size self.now.signature) committed (FormedCommit self.now.size self.now.signature) bytes.now result }
    {
        Commit::read(self.size, self.signature, bytes)
    }

    // Where a commit leads, makes its site the committer and takes off the list what it commits.
    fn follow(&mut self, site: u8, leading: bool)
        requires { Member self.old.size site }
        ensures state { host_state self.new ≡ (if leading then (record { committer = site; list = after_last site (list_of self.old) }) else host_state self.old) }
        ensures store { self.new.store ≡ self.old.store }
        ensures group { SameGroup self.old self.new }
    {
        if leading {
            self.committer = site;
            let end = through_last(self.list.as_slice(), site);
            self.list.drain(..end);
        }
    }
}

impl<T: Store> Host<T> {
    /// Takes a commit: enters its version and, where that leads, makes its site the committer and takes its operation and all
    /// before it off the list.
    ///
    /// Refused if the bytes are no commit, or else if it is not that of its site's last submit or is committed already, or else if
    /// the store has no rewrite left. Nothing has then changed.
    pub fn take_commit(&mut self, bytes: &[u8]) -> Result<(), Fault>
        ensures taken { TakesCommitOver T.Store.means self.old self.new bytes.now result }
        ensures group { SameGroup self.old self.new }
    {
        let commit = self.read_commit(bytes)?;
        if !self.next_commit(commit.site, &commit.version) {
            return Err(Fault::OutOfOrder);
        }
        let leading = self.leading(&commit.version);
        keep_commit(&mut self.store, &commit)?;
        self.follow(commit.site, leading);
        Ok(())
    }

    // Whether a commit with this version leads over that of the committer.
    fn leading(&self, version: &Version) -> bool
        requires { length (slots version.now) ≡ self.now.size }
        ensures { result ≡ leads_over (slots version.now) (version_said T.Store.means self.now self.now.committer).version }
    {
        let mut room = [0; MAX_SLOT];
        let old = self.version_slot(self.committer, &mut room);
        leads(version, &old.version)
    }
}

// Replaces the version slot of a commit's site.
fn keep_commit<T: Store>(store: &mut T, commit: &Commit) -> Result<(), store::Fault>
    requires site { Site commit.now.site }
    requires signed { length commit.now.commit_signature.now ≤ 64 }
    requires proved { length commit.now.proof_signature.now ≤ 64 }
    ensures { (n g : ℕ) → Keeps (T.Store.means store.old) the_version commit.now.site ((version_slot n g).put (version_stored (committed commit.now))) (T.Store.means store.new) result }
{
    let slot = VersionSlot {
        version: commit.version,
        commit_signature: commit.commit_signature,
        proof_signature: commit.proof_signature,
    };
    let mut room = [0; MAX_SLOT];
    let bytes = version_bytes(&slot, &mut room);
    keep(store, Slot::Version, commit.site, bytes)
}
