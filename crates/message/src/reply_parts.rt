//! A reply as parts that are to be written.

ghost use Rattle.std.specs.Prelude.{◌≡◌, ◌≤◌, min, ◌++◌, length, take};
ghost use Rattle.octets.specs.Numbers.{big_endian};
ghost use Rattle.version.specs.Version.{slots};
ghost use Rattle.message.specs.Code.{code_number};
ghost use Rattle.message.specs.Reply.{reply as reply_field};
ghost use Rattle.message.specs.Replied.{responded, FoundTooLong, answer_put, entries_put, proofs_put, PutsEntry, PutsEntries};
ghost use Rattle.message.specs.Writes.{Writes};

use super::code::Code;
use super::kind::Kind;
use super::parts::{VERSION_SIZE, fill, value_parts, version_part};
use super::refusal::Refusal;
use super::reply::Found;
use octets::{put, put_number};
use version::{MAX_SITES, Version};

// The most bytes that a signature of an entry has.
const MAX_SIGNATURE: usize = 64;

// The most bytes that a count and its entries have.
const LIST_SIZE: usize = 537;

/// A submit that the host took and that is not committed yet, with room for a signature of up to 64 bytes.
// Kept: an entry that is read has its signature in the message, one that the host keeps has it in the host, in fixed memory.
#[derive(Clone, Copy, Default)]
pub struct ListEntry {
    pub site: u8,
    pub code: Code,
    pub register: u8,
    pub signature: [u8; MAX_SIGNATURE],
}

/// What the host answers to a submit, as parts that are to be written: to a read with what was found, to a write without.
/// At most eight entries are written, and of `proofs` a signature for each site of the version's group.
// Kept: what is read has its entries as slices of the message, what is written has the list that the host keeps, so they are two types.
#[derive(Clone, Copy)]
pub struct ReplyParts<'a> {
    pub committer: u8,
    pub version: &'a Version,
    pub commit_signature: &'a [u8],
    pub entries: &'a [ListEntry],
    pub proofs: &'a [u8],
    pub found: Option<Found<'a>>,
}

// The fields in front of a reply's version.
fn reply_start(code: Code, committer: u8) -> [u8; 3]
    ensures { result ≡ answer_put code committer }
{
    [Kind::Reply.number(), code.number(), committer]
}

// The fields in front of an entry's signature.
fn entry_head(site: u8, code: Code, register: u8) -> [u8; 3]
    ensures { result ≡ big_endian 1 site ++ (big_endian 1 (code_number code) ++ big_endian 1 register) }
{
    [site, code.number(), register]
}

fn put_entry(out: &mut [u8], start: usize, entry: &ListEntry, g: usize) -> Option<usize>
    requires { g ≤ 64 }
    ensures { PutsEntry g entry.now start out.old out.new result }
{
    let head = entry_head(entry.site, entry.code, entry.register);
    let at = put(out, start, &head)?;
    put(out, at, &entry.signature[..g])
}

fn put_entries(out: &mut [u8], entries: &[ListEntry], g: usize) -> Option<usize>
    requires signature_fits { g ≤ 64 }
    requires few_entries { length entries.now ≤ 8 }
    ensures { PutsEntries g entries.now out.old out.new result }
{
    let mut at = put_number(out, 0, entries.len() as u8)?;
    for entry in entries {
        at = put_entry(out, at, entry, g)?;
    }
    Some(at)
}

// The count of the first eight entries, and those entries, written to the front of `room`.
fn entries_part<'r>(entries: &[ListEntry], g: usize, room: &'r mut [u8; LIST_SIZE]) -> &'r [u8]
    ensures { result.now ≡ entries_put (min g 64) (take 8 entries.now) }
{
    let count = entries.len().min(MAX_SITES as usize);
    let end = put_entries(room, &entries[..count], g.min(MAX_SIGNATURE)).unwrap_or(0);
    &room[..end]
}

// The first `n` of the signatures.
fn proofs_part(proofs: &[u8], g: usize, n: u8) -> &[u8]
    ensures { result.now ≡ proofs_put g proofs.now n }
{
    let size = g.saturating_mul(n as usize).min(proofs.len());
    &proofs[..size]
}

impl ReplyParts<'_> {
    /// Writes the reply, with signatures of `g` bytes, to the front of `out` and answers how many bytes it took.
    pub fn write(&self, g: usize, out: &mut [u8]) -> Result<usize, Refusal>
        ensures { Writes (reply_field (length (slots self.now.version.now)) g) (responded g self.now) (FoundTooLong self.now.found) out.old out.new result }
    {
        let mut room = [0; VERSION_SIZE];
        let version = version_part(self.version, &mut room);
        let mut list = [0; LIST_SIZE];
        let entries = entries_part(self.entries, g, &mut list);
        let proofs = proofs_part(self.proofs, g, self.version.size());
        match &self.found {
            None => {
                let head = reply_start(Code::Write, self.committer);
                fill(
                    out,
                    &[&head, version, self.commit_signature, entries, proofs],
                )
            }
            Some(found) => {
                let (size, value) = value_parts(found.value)?;
                let mut owner_room = [0; VERSION_SIZE];
                let owner = version_part(&found.version, &mut owner_room);
                let head = reply_start(Code::Read, self.committer);
                let stamp = found.timestamp.to_be_bytes();
                fill(
                    out,
                    &[
                        &head,
                        version,
                        self.commit_signature,
                        entries,
                        proofs,
                        owner,
                        found.commit_signature,
                        &stamp,
                        &size,
                        value,
                        found.data_signature,
                    ],
                )
            }
        }
    }
}
