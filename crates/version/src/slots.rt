//! What a version says of each site.

ghost use Rattle.std.specs.Prelude.{◌≡◌, length};
ghost use Rattle.version.specs.Calls.{Zero, Timestamp, Digest, Raises, Placed};
ghost use Rattle.version.specs.Shape.{Size};
ghost use Rattle.version.specs.Version.{slots};

use super::refusal::Refusal;
use super::seen::Seen;
use super::version::Version;

/// The most sites that a group can have.
pub const MAX_SITES: u8 = 8;

impl Version {
    /// The version of a group of `size` sites that has seen no operation.
    pub fn zero(size: u8) -> Result<Version, Refusal>
        ensures { Zero size result }
    {
        if size < 1 || size > MAX_SITES {
            return Err(Refusal::OutOfRange);
        }
        Ok(Version {
            size,
            seen: [None; 8],
        })
    }

    /// How many sites the group has.
    #[tactic(auto, using(crate::proofs::SlotLaws::slots_length))]
    pub fn size(&self) -> u8
        ensures value { result ≡ length (slots self.now) }
        ensures range { Size result }
    {
        self.size
    }

    /// How many operations of `site` this version counts.
    pub fn timestamp(&self, site: u8) -> Result<u32, Refusal>
        ensures { Timestamp self.now site result }
    {
        let place = self.place(site)?;
        Ok(self.seen[place].map_or(0, Seen::timestamp))
    }

    /// The digest of the view history up to the last of them, and none where there are none.
    pub fn digest(&self, site: u8) -> Result<Option<[u8; 32]>, Refusal>
        ensures { Digest self.now site result }
    {
        let place = self.place(site)?;
        Ok(self.seen[place].map(Seen::digest))
    }

    /// Counts one operation more of `site`; `history` is the digest of the view history that it ends.
    pub fn raise(&mut self, site: u8, history: [u8; 32]) -> Result<(), Refusal>
        ensures { Raises self.old site history self.new result }
    {
        let place = self.place(site)?;
        let count = self.seen[place].map_or(0, Seen::timestamp);
        let timestamp = count.checked_add(1).ok_or(Refusal::TimestampLimit)?;
        self.seen[place] = Some(Seen {
            timestamp,
            digest: history,
        });
        Ok(())
    }

    // where a site's slot stands
    #[tactic(auto, using(crate::proofs::SlotLaws::slots_length))]
    fn place(&self, site: u8) -> Result<usize, Refusal>
        ensures { Placed self.now site result }
    {
        if site < 1 || site > self.size {
            return Err(Refusal::OutOfRange);
        }
        Ok(site as usize - 1)
    }
}
