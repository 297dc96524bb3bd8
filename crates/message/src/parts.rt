//! Parts of a message, written one behind the other to the front of a lent buffer.

ghost use Rattle.std.specs.Prelude.{◌≡◌, ◌≤◌, ◌++◌, length, take, Decides};
ghost use Rattle.std.specs.Option.{option_map};
ghost use Rattle.octets.specs.Numbers.{big_endian};
ghost use Rattle.version.specs.Calls.{bytes_of};
ghost use Rattle.message.specs.Writes.{Fills, PutsOrShort, Valued, joined};

use super::fields::MAX_VALUE;
use super::refusal::Refusal;
use octets::put;
use version::Version;

// The most bytes that a version has, of a group of eight sites.
pub(crate) const VERSION_SIZE: usize = 288;

// Writes the parts one behind the other to the front of `out`, if there is room for all of them, and answers how many bytes they took.
pub(crate) fn fill(out: &mut [u8], parts: &[&[u8]]) -> Result<usize, Refusal>
    ensures { Fills (joined parts.now) out.old out.new result }
{
    if !fit(parts, out.len()) {
        return Err(Refusal::BufferTooShort);
    }
    put_all(out, parts).ok_or(Refusal::BufferTooShort)
}

// Whether `room` bytes are enough for the parts.
fn fit(parts: &[&[u8]], room: usize) -> bool
    ensures { Decides result (length (joined parts.now) ≤ room) }
{
    let mut left = room;
    for part in parts {
        if left < part.len() {
            return false;
        }
        left -= part.len();
    }
    true
}

fn put_all(out: &mut [u8], parts: &[&[u8]]) -> Option<usize>
    ensures { PutsOrShort (joined parts.now) out.old out.new result }
{
    let mut at = 0;
    for part in parts {
        at = put(out, at, part)?;
    }
    Some(at)
}

/// The two parts of a value: its size plus 1, or 0 where there is none, and its bytes.
pub fn value_parts(value: Option<&[u8]>) -> Result<([u8; 2], &[u8]), Refusal>
    ensures { Valued (option_map (λ x. x.now) value.entry) result }
{
    match value {
        None => Ok(([0, 0], &[])),
        Some(bytes) => {
            if MAX_VALUE < bytes.len() {
                return Err(Refusal::ValueTooLong);
            }
            let size = (bytes.len() + 1) as u16;
            Ok((size.to_be_bytes(), bytes))
        }
    }
}

// The bytes of a version, written to the front of `room`.
pub(crate) fn version_part<'r>(version: &Version, room: &'r mut [u8; VERSION_SIZE]) -> &'r [u8]
    ensures { result.now ≡ bytes_of version.now }
{
    let end = version.put(room, 0).unwrap_or(0);
    &room[..end]
}
