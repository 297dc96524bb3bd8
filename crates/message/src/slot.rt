//! The two slots that a host's store keeps for each site.

ghost use Rattle.std.specs.Prelude.{ℕ, length};
ghost use Rattle.octets.specs.Field.{Undoes};
ghost use Rattle.octets.specs.Reads.{Gets};
ghost use Rattle.version.specs.Version.{slots};
ghost use Rattle.message.specs.Reads.{Reads, ReadsAny};
ghost use Rattle.message.specs.Slots.{value_slot, version_slot, value_stored, version_stored};
ghost use Rattle.message.specs.Writes.{TooLong, Writes};

use super::fields::take_value;
use super::parts::{VERSION_SIZE, fill, value_parts, version_part};
use super::refusal::Refusal;
use super::whole::{whole, zero};
use octets::{BadField, take_number, take_span};
use version::Version;

/// What a host keeps of a site's last submit. Its parts are slices of the bytes that were read; `places` gives their places,
/// which borrow nothing.
#[derive(Clone, Copy)]
pub struct ValueSlot<'a> {
    pub timestamp: u32,
    pub value: Option<&'a [u8]>,
    pub data_signature: &'a [u8],
}

/// What a host keeps of a site's last commit. Its parts are slices of the bytes that were read; `places` gives their places,
/// which borrow nothing.
#[derive(Clone, Copy)]
pub struct VersionSlot<'a> {
    pub version: Version,
    pub commit_signature: &'a [u8],
    pub proof_signature: &'a [u8],
}

fn take_value_slot(bytes: &[u8], g: usize) -> Result<(ValueSlot<'_>, &[u8]), BadField>
    ensures { Gets (value_slot g) value_stored bytes.now result }
{
    let (timestamp, rest) = take_number(bytes)?;
    let (value, rest) = take_value(rest)?;
    let (data_signature, rest) = take_span(rest, g)?;
    Ok((
        ValueSlot {
            timestamp,
            value,
            data_signature,
        },
        rest,
    ))
}

fn take_version_slot(
    bytes: &[u8],
    zero: Version,
    g: usize,
) -> Result<(VersionSlot<'_>, &[u8]), BadField>
    ensures { Gets (version_slot (length (slots zero)) g) version_stored bytes.now result }
{
    let (version, rest) = zero.take(bytes)?;
    let (commit_signature, rest) = take_span(rest, g)?;
    let (proof_signature, rest) = take_span(rest, g)?;
    Ok((
        VersionSlot {
            version,
            commit_signature,
            proof_signature,
        },
        rest,
    ))
}

impl<'a> ValueSlot<'a> {
    /// Reads bytes that are to be a value slot, with a signature of `g` bytes, and nothing else.
    pub fn read(g: usize, bytes: &'a [u8]) -> Result<ValueSlot<'a>, Refusal>
        ensures reads { ReadsAny (value_slot g) value_stored bytes.now result }
        ensures undoes { Undoes (value_slot g) }
    {
        whole(bytes, take_value_slot(bytes, g))
    }

    /// Writes the value slot to the front of `out` and answers how many bytes it took.
    pub fn write(&self, out: &mut [u8]) -> Result<usize, Refusal>
        ensures { (g : ℕ) → Writes (value_slot g) (value_stored self.now) (TooLong (value_stored self.now).value) out.old out.new result }
    {
        let (size, value) = value_parts(self.value)?;
        let stamp = self.timestamp.to_be_bytes();
        fill(out, &[&stamp, &size, value, self.data_signature])
    }
}

impl<'a> VersionSlot<'a> {
    /// Reads bytes that are to be a version slot in a group of `n` sites, with signatures of `g` bytes, and nothing else.
    pub fn read(n: u8, g: usize, bytes: &'a [u8]) -> Result<VersionSlot<'a>, Refusal>
        ensures reads { Reads n (version_slot n g) version_stored bytes.now result }
        ensures undoes { Undoes (version_slot n g) }
    {
        let zero = zero(n)?;
        whole(bytes, take_version_slot(bytes, zero, g))
    }

    /// Writes the version slot to the front of `out` and answers how many bytes it took.
    pub fn write(&self, out: &mut [u8]) -> Result<usize, Refusal>
        ensures { (n g : ℕ) → Writes (version_slot n g) (version_stored self.now) ⊥ out.old out.new result }
    {
        let mut room = [0; VERSION_SIZE];
        let version = version_part(&self.version, &mut room);
        fill(out, &[version, self.commit_signature, self.proof_signature])
    }
}
