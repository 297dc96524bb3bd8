//! A commit: what a site tells the host after an operation.

ghost use Rattle.std.specs.Prelude.{◌≡◌, ℕ, ◌++◌, length};
ghost use Rattle.octets.specs.Field.{Undoes};
ghost use Rattle.octets.specs.Numbers.{big_endian};
ghost use Rattle.octets.specs.Reads.{Gets};
ghost use Rattle.version.specs.Version.{slots};
ghost use Rattle.message.specs.Commit.{commit as commit_field, committed};
ghost use Rattle.message.specs.Reads.{Reads};
ghost use Rattle.message.specs.Writes.{Writes};

use super::head::take_commit_head;
use super::kind::Kind;
use super::parts::{VERSION_SIZE, fill, version_part};
use super::refusal::Refusal;
use super::whole::{whole, zero};
use octets::{BadField, take_span};
use version::Version;

/// What a site tells the host after an operation. Its parts are slices of the bytes that were read; `places` gives their places,
/// which borrow nothing.
#[derive(Clone, Copy)]
pub struct Commit<'a> {
    pub site: u8,
    pub version: Version,
    pub commit_signature: &'a [u8],
    pub proof_signature: &'a [u8],
}

fn take_commit(bytes: &[u8], zero: Version, g: usize) -> Result<(Commit<'_>, &[u8]), BadField>
    ensures { Gets (commit_field (length (slots zero)) g) committed bytes.now result }
{
    let (site, rest) = take_commit_head(bytes, zero.size())?;
    let (version, rest) = zero.take(rest)?;
    let (commit_signature, rest) = take_span(rest, g)?;
    let (proof_signature, rest) = take_span(rest, g)?;
    Ok((
        Commit {
            site,
            version,
            commit_signature,
            proof_signature,
        },
        rest,
    ))
}

impl<'a> Commit<'a> {
    /// Reads bytes that are to be a commit in a group of `n` sites, with signatures of `g` bytes, and nothing else.
    pub fn read(n: u8, g: usize, bytes: &'a [u8]) -> Result<Commit<'a>, Refusal>
        ensures reads { Reads n (commit_field n g) committed bytes.now result }
        ensures undoes { Undoes (commit_field n g) }
    {
        let zero = zero(n)?;
        whole(bytes, take_commit(bytes, zero, g))
    }

    /// Writes the commit to the front of `out` and answers how many bytes it took.
    pub fn write(&self, out: &mut [u8]) -> Result<usize, Refusal>
        ensures { (n g : ℕ) → Writes (commit_field n g) (committed self.now) ⊥ out.old out.new result }
    {
        let mut room = [0; VERSION_SIZE];
        let version = version_part(&self.version, &mut room);
        let head = commit_start(self.site);
        fill(
            out,
            &[&head, version, self.commit_signature, self.proof_signature],
        )
    }
}

/// The fields in front of a commit's version.
pub fn commit_start(site: u8) -> [u8; 2]
    ensures { result ≡ big_endian 1 3 ++ big_endian 1 site }
{
    [Kind::Commit.number(), site]
}
