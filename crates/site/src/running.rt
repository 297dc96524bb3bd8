//! The running version: a reply's committed version, and what operations make of it one by one.

ghost use Rattle.std.specs.Prelude.{◌≡◌, ◌<◌, ◌≤◌, [], ◌∷◌, ◌++◌, length, take};
ghost use Rattle.rules.specs.Group.{Member, max_timestamp, slot};
ghost use Rattle.rules.specs.Running.{link as link_string, rise as risen};
ghost use Rattle.version.specs.Version.{slots};
ghost use Rattle.site.specs.Running.{running, committed};

use super::versions::digest_of;
use digest::{Digest, LEN};
use message::Reply;
use version::Version;

// The most bytes that are digested for an operation: a digest, and the site.
const LINK_SIZE: usize = 33;

/// A version, and the digest of the view history up to its last operation.
#[derive(Clone, Copy)]
pub(crate) struct Running {
    pub(crate) version: Version,
    pub(crate) digest: Option<[u8; LEN]>,
}

impl Running {
    /// The committed version of a reply, with the committer's digest in it.
    pub(crate) fn from_reply(reply: &Reply) -> Running
        ensures { running result ≡ committed reply.now }
    {
        Running {
            version: reply.version,
            digest: digest_of(&reply.version, reply.committer),
        }
    }

    /// Counts one operation more of `site`.
    pub(crate) fn rise<D: Digest>(&mut self, digest: &D, site: u8)
        requires member { Member (length (slots self.old.version)) site }
        requires below { (slot (slots self.old.version) site).timestamp < max_timestamp }
        ensures { running self.new ≡ risen D.Digest.means (running self.old) site }
    {
        let mut room = [0; LINK_SIZE];
        let history = digest.digest(link(&self.digest, site, &mut room));
        self.version.raise(site, history).unwrap();
        self.digest = Some(history);
    }
}

// What is digested when an operation of `site` follows, written to the front of `room`.
fn link<'r>(digest: &Option<[u8; LEN]>, site: u8, room: &'r mut [u8; LINK_SIZE]) -> &'r [u8]
    ensures { result.now ≡ link_string digest.now site }
{
    match digest {
        Some(digest) => {
            link_after(digest, site, room);
            &room[..]
        }
        None => {
            room[0] = site;
            &room[..1]
        }
    }
}

fn link_after(digest: &[u8; LEN], site: u8, room: &mut [u8; LINK_SIZE])
    ensures { room.new ≡ digest.now ++ (site ∷ []) }
{
    room[0..LEN].copy_from_slice(digest);
    room[LEN] = site;
}
