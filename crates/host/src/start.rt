//! A new host, and what any host can be asked.

ghost use Rattle.std.specs.Prelude.{◌≡◌, map};
ghost use Rattle.message.specs.Replied.{entered};
ghost use Rattle.host.specs.Calls.{Starts};
ghost use Rattle.host.specs.State.{list_of};

use super::host::Host;
use arrayvec::ArrayVec;
use message::ListEntry;
use rules::Refusal;
use signature::MAX_SIGNATURE;
use version::MAX_SITES;

/// A host that was not started: why, and the store that was handed in.
#[derive(Drop)]
pub struct Unstarted<T> {
    pub store: T,
    pub refusal: Refusal,
}

impl<T> Host<T> {
    /// A host for a group of `size` sites, with signatures of `signature` bytes, over `store`. Site 1 is the committer, and
    /// nothing is listed.
    ///
    /// Refused if the group has not 1 to 8 sites, or a signature not 1 to 64 bytes. The store then comes back.
    pub fn new(size: u8, signature: usize, store: T) -> Result<Host<T>, Unstarted<T>>
        ensures { Starts size signature store result }
    {
        if size < 1 || size > MAX_SITES || signature < 1 || signature > MAX_SIGNATURE {
            return Err(Unstarted {
                store,
                refusal: Refusal::OutOfRange,
            });
        }
        Ok(Host {
            size,
            signature,
            committer: 1,
            list: ArrayVec::new(),
            store,
        })
    }

    /// How many sites the group has.
    pub fn size(&self) -> u8
        ensures { result ≡ self.now.size }
    {
        self.size
    }

    /// How many bytes a signature has.
    pub fn signature(&self) -> usize
        ensures { result ≡ self.now.signature }
    {
        self.signature
    }

    /// The site whose commit leads.
    pub fn committer(&self) -> u8
        ensures { result ≡ self.now.committer }
    {
        self.committer
    }

    /// The submits that are not below that commit, oldest first. Of the room for a signature the first bytes count, as many as
    /// a signature has.
    pub fn list(&self) -> &[ListEntry]
        ensures { map (entered self.now.signature) result.now ≡ list_of self.now }
    {
        self.list.as_slice()
    }

    /// The store, as the taken submits and commits have left it.
    pub fn store(&self) -> &T
        ensures { result.now ≡ self.now.store }
    {
        &self.store
    }

    /// Gives the store back, as the taken submits and commits have left it.
    pub fn into_store(self) -> T
        ensures { result ≡ self.store }
    {
        let Host { store, .. } = self;
        store
    }
}
