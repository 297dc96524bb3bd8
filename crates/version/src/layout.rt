//! A version in bytes.

ghost use Rattle.std.specs.Prelude.{◌≡◌, ℕ, ◌<◌, length};
ghost use Rattle.octets.specs.Field.{Undoes};
ghost use Rattle.octets.specs.Puts.{PutsOrNot};
ghost use Rattle.octets.specs.Reads.{Gets};
ghost use Rattle.version.specs.Calls.{Reads, Writes, bytes_of};
ghost use Rattle.version.specs.Layout.{slot_field, version_field};
ghost use Rattle.version.specs.Version.{slots, slot_from};
ghost use Rattle.version.specs.Steps.{PutsSlot};

use super::refusal::Refusal;
use super::seen::Seen;
use super::version::Version;
use octets::{BadField, put, put_number, take_number};

impl Version {
    /// Reads bytes that are to be a version of a group of `size` sites and nothing else.
    pub fn read(size: u8, bytes: &[u8]) -> Result<Version, Refusal>
        ensures reads { Reads size bytes.now result }
        ensures undoes { Undoes (version_field size) }
    {
        let left = match Version::zero(size)?.take(bytes) {
            Ok((version, [])) => return Ok(version),
            Ok((_, rest)) => rest.len(),
            Err(bad) => bad.left,
        };
        Err(Refusal::BadField(bytes.len().saturating_sub(left)))
    }

    /// Takes another version of this one's group from the front of `bytes`, and answers it with the rest.
    pub fn take(self, bytes: &[u8]) -> Result<(Version, &[u8]), BadField>
        ensures { Gets (version_field (length (slots self))) slots bytes.now result }
    {
        let mut seen = [None; 8];
        let mut rest = bytes;
        for slot in &mut seen[..self.size as usize] {
            (*slot, rest) = take_slot(rest)?;
        }
        let size = self.size;
        Ok((Version { size, seen }, rest))
    }

    /// Writes the version to the front of `out` and answers how many bytes it took.
    pub fn write(&self, out: &mut [u8]) -> Result<usize, Refusal>
        ensures { Writes self.now out.old out.new result }
    {
        self.put(out, 0).ok_or(Refusal::BufferTooShort)
    }

    /// Puts the version into `out` from `start` on and answers where it ends, or `None` where it does not fit.
    pub fn put(&self, out: &mut [u8], start: usize) -> Option<usize>
        ensures { PutsOrNot (bytes_of self.now) start out.old out.new result }
    {
        let size = self.size as usize;
        let end = start.checked_add(36 * size)?;
        if out.len() < end {
            return None;
        }
        let mut at = start;
        for slot in &self.seen[..size] {
            at = put_slot(slot, out, at)?;
        }
        Some(at)
    }
}

// A slot from the front of the bytes, and the rest.
fn take_slot(bytes: &[u8]) -> Result<(Option<Seen>, &[u8]), BadField>
    ensures { Gets slot_field slot_from bytes.now result }
{
    let (timestamp, behind) = take_number::<4, u32>(bytes)?;
    let bad = BadField { left: behind.len() };
    let Some((digest, rest)) = behind.split_first_chunk::<32>() else {
        return Err(bad);
    };
    if timestamp > 0 {
        let digest = *digest;
        return Ok((Some(Seen { timestamp, digest }), rest));
    }
    if *digest != [0; 32] {
        return Err(bad);
    }
    Ok((None, rest))
}

fn put_slot(slot: &Option<Seen>, out: &mut [u8], start: usize) -> Option<usize>
    ensures { PutsSlot slot.now start out.old out.new result }
{
    match slot {
        Some(seen) => {
            let at = put_number(out, start, seen.timestamp)?;
            put(out, at, &seen.digest)
        }
        None => put(out, start, &[0; 36]),
    }
}
