//! Which submit and which commit of a site come next.

ghost use Rattle.std.specs.Prelude.{◌≡◌, length, Decides};
ghost use Rattle.version.specs.Version.{slots};
ghost use Rattle.rules.specs.Group.{slot as slot_of, Member};
ghost use Rattle.host.specs.Says.{NextCommitEnters, NextSubmitEnters};
ghost use Rattle.host.specs.State.{value_said, own_said};

use super::host::Host;
use super::leads::timestamp_of;
use store::{MAX_SLOT, Store};
use version::Version;

impl<T: Store> Host<T> {
    // The timestamp of a site's last submit.
    fn submitted(&self, site: u8) -> u32
        requires { Member self.now.size site }
        ensures { result ≡ (value_said T.Store.means self.now site).timestamp }
    {
        self.value_slot(site, &mut [0; MAX_SLOT]).timestamp
    }

    // The timestamp of a site's last commit.
    fn committed(&self, site: u8) -> u32
        requires { Member self.now.size site }
        ensures { result ≡ own_said T.Store.means self.now site }
    {
        timestamp_of(&self.version_slot(site, &mut [0; MAX_SLOT]).version, site)
    }

    // Whether a submit is the next operation of its site, whose last one is committed.
    pub(crate) fn next_submit(&self, site: u8, timestamp: u32) -> bool
        requires { Member self.now.size site }
        ensures { Decides result (NextSubmitEnters self.now.size self.now.signature (T.Store.means self.now.store) site timestamp) }
    {
        let last = self.submitted(site);
        last.checked_add(1) == Some(timestamp) && last == self.committed(site)
    }

    // Whether a commit is that of its site's last submit, and not committed yet.
    pub(crate) fn next_commit(&self, site: u8, version: &Version) -> bool
        requires member { Member self.now.size site }
        requires sized { length (slots version.now) ≡ self.now.size }
        ensures { Decides result (NextCommitEnters self.now.size self.now.signature (T.Store.means self.now.store) site (slot_of (slots version.now) site).timestamp) }
    {
        let timestamp = timestamp_of(version, site);
        timestamp == self.submitted(site) && timestamp != self.committed(site)
    }
}
