//! A reply: what the host answers to a submit.

ghost use Rattle.std.specs.Prelude.{◌≡◌, ◌*◌, ◌≤◌, length, take, IfOk};
ghost use Rattle.octets.specs.Field.{Undoes, span, times};
ghost use Rattle.octets.specs.Reads.{Gets};
ghost use Rattle.std.specs.Option.{option_map};
ghost use Rattle.version.specs.Version.{slots};
ghost use Rattle.message.specs.Reads.{Reads};
ghost use Rattle.message.specs.Reply.{entry as entry_field, entries as entries_field, found as found_field, reply as reply_field, asked, listed, all_listed, signatures, held, response, FoundBefore};

use super::code::Code;
use super::fields::{take_code, take_register, take_site, take_value};
use super::head::take_reply_head;
use super::refusal::Refusal;
use super::whole::{whole, zero};
use octets::{BadField, take_number, take_span};
use version::{MAX_SITES, Version};

/// A submit that the host took before this one and that is not committed yet.
#[derive(Clone, Copy)]
pub struct Entry<'a> {
    pub site: u8,
    pub code: Code,
    pub register: u8,
    pub signature: &'a [u8],
}

/// The entries of a reply, in their order: the first `count` of `items`.
// Kept: a message is a plain value that is copied and takes no heap, so its entries stand in an array with their count.
#[derive(Clone, Copy)]
pub struct Entries<'a> {
    pub count: usize,
    pub items: [Entry<'a>; MAX_SITES as usize],
}

impl<'a> Entries<'a> {
    /// The entries that count.
    pub fn as_slice(&self) -> &[Entry<'a>]
        ensures { result.now ≡ take self.now.count self.now.items }
    {
        let items = self.items.as_slice();
        &items[..self.count.min(items.len())]
    }
}

/// What the register holds that a read asked for.
#[derive(Clone, Copy)]
pub struct Found<'a> {
    pub version: Version,
    pub commit_signature: &'a [u8],
    pub timestamp: u32,
    pub value: Option<&'a [u8]>,
    pub data_signature: &'a [u8],
}

/// What the host answers to a submit: to a read with what was found, to a write without. The proof signatures of the sites stand
/// one behind the other in `proofs`. Its parts are slices of the bytes that were read; `places` gives their places, which borrow nothing.
#[derive(Clone, Copy)]
pub struct Reply<'a> {
    pub committer: u8,
    pub version: Version,
    pub commit_signature: &'a [u8],
    pub entries: Entries<'a>,
    pub proofs: &'a [u8],
    pub found: Option<Found<'a>>,
}

fn take_entry(bytes: &[u8], n: u8, g: usize) -> Result<(Entry<'_>, &[u8]), BadField>
    ensures { Gets (entry_field n g) listed bytes.now result }
{
    let (site, rest) = take_site(bytes, n)?;
    let (code, rest) = take_code(rest)?;
    let (register, rest) = take_register(rest, n, site, code)?;
    let (signature, rest) = take_span(rest, g)?;
    Ok((
        Entry {
            site,
            code,
            register,
            signature,
        },
        rest,
    ))
}

// A count of at most `n`, and that many entries.
fn take_entries(bytes: &[u8], n: u8, g: usize) -> Result<(Entries<'_>, &[u8]), BadField>
    requires { n ≤ 8 }
    ensures { Gets (entries_field n g) all_listed bytes.now result }
{
    let (count, rest): (u8, _) = take_number(bytes)?;
    if n < count {
        return Err(BadField { left: bytes.len() });
    }
    take_listed(rest, count, n, g)
}

fn take_listed(bytes: &[u8], count: u8, n: u8, g: usize) -> Result<(Entries<'_>, &[u8]), BadField>
    requires { count ≤ 8 }
    ensures { Gets (times count (entry_field n g)) all_listed bytes.now result }
{
    let none = Entry {
        site: 1,
        code: Code::Read,
        register: 1,
        signature: &[],
    };
    let mut items = [none; MAX_SITES as usize];
    let mut rest = bytes;
    let count = count as usize;
    // Kept: the checker does not cover a `&mut` to an element that holds a reference, so the proof did not close over `iter_mut`.
    for i in 0..count {
        let (entry, behind) = take_entry(rest, n, g)?;
        items[i] = entry;
        rest = behind;
    }
    Ok((Entries { count, items }, rest))
}

// The proof signatures of all sites.
fn take_proofs(bytes: &[u8], n: u8, g: usize) -> Result<(&[u8], &[u8]), BadField>
    ensures got { Gets (times n (span g)) (λ p. signatures g p.now n 0) bytes.now result }
    ensures sized { IfOk result (λ p. length p.0.now ≡ g * n) }
{
    let mut rest = bytes;
    for _ in 0..n {
        let (_, behind) = take_span(rest, g)?;
        rest = behind;
    }
    Ok(bytes.split_at(bytes.len() - rest.len()))
}

// What a read found; a write finds nothing.
fn take_found(
    bytes: &[u8],
    zero: Version,
    g: usize,
    code: Code,
) -> Result<(Option<Found<'_>>, &[u8]), BadField>
    ensures got { Gets (found_field (length (slots zero)) g code) (option_map held) bytes.now result }
    ensures answers { IfOk result (λ p. asked p.0 ≡ code) }
{
    match code {
        Code::Read => {
            let (version, rest) = zero.take(bytes)?;
            let (commit_signature, rest) = take_span(rest, g)?;
            let (timestamp, rest) = take_number(rest)?;
            let (value, rest) = take_value(rest)?;
            let (data_signature, rest) = take_span(rest, g)?;
            let found = Found {
                version,
                commit_signature,
                timestamp,
                value,
                data_signature,
            };
            Ok((Some(found), rest))
        }
        Code::Write => Ok((None, bytes)),
    }
}

fn take_reply(bytes: &[u8], zero: Version, g: usize) -> Result<(Reply<'_>, &[u8]), BadField>
    ensures got { Gets (reply_field (length (slots zero)) g) (response g (length (slots zero))) bytes.now result }
    ensures sized { IfOk result (λ p. length p.0.proofs.now ≡ g * length (slots zero)) }
{
    let n = zero.size();
    let ((code, committer), rest) = take_reply_head(bytes, n)?;
    let (version, rest) = zero.take(rest)?;
    let (commit_signature, rest) = take_span(rest, g)?;
    let (entries, rest) = take_entries(rest, n, g)?;
    let (proofs, rest) = take_proofs(rest, n, g)?;
    let (found, rest) = take_found(rest, zero, g, code)?;
    Ok((
        Reply {
            committer,
            version,
            commit_signature,
            entries,
            proofs,
            found,
        },
        rest,
    ))
}

impl<'a> Reply<'a> {
    /// Reads bytes that are to be a reply in a group of `n` sites, with signatures of `g` bytes, and nothing else.
    pub fn read(n: u8, g: usize, bytes: &'a [u8]) -> Result<Reply<'a>, Refusal>
        ensures reads { Reads n (reply_field n g) (response g n) bytes.now result }
        ensures placed { IfOk result (λ m. FoundBefore g bytes.now m.found) }
        ensures sized { IfOk result (λ m. length m.proofs.now ≡ g * n) }
        ensures undoes { Undoes (reply_field n g) }
    {
        let zero = zero(n)?;
        whole(bytes, take_reply(bytes, zero, g))
    }

    /// What the operation does that is answered.
    pub fn code(&self) -> Code
        ensures { result ≡ asked self.now.found }
    {
        match self.found {
            Some(_) => Code::Read,
            None => Code::Write,
        }
    }
}
