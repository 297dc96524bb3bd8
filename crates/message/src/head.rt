//! The kind and the first fields of each message.

ghost use Rattle.message.specs.Heads.{commit_head, reply_head, submit_head};
ghost use Rattle.octets.specs.Reads.{Gets};

use super::code::Code;
use super::fields::{take_code, take_kind, take_register, take_site};
use super::kind::Kind;
use octets::BadField;

// The site, the code and the register of a submit.
pub(crate) fn take_submit_head(bytes: &[u8], n: u8) -> Result<((u8, Code, u8), &[u8]), BadField>
    ensures { Gets (submit_head n) (λ h. (tt, (h.0, (h.1, h.2)))) bytes.now result }
{
    let (_, rest) = take_kind(bytes, Kind::Submit)?;
    let (site, rest) = take_site(rest, n)?;
    let (code, rest) = take_code(rest)?;
    let (register, rest) = take_register(rest, n, site, code)?;
    Ok(((site, code, register), rest))
}

// The code and the committer of a reply.
pub(crate) fn take_reply_head(bytes: &[u8], n: u8) -> Result<((Code, u8), &[u8]), BadField>
    ensures { Gets (reply_head n) (λ h. (tt, (h.0, h.1))) bytes.now result }
{
    let (_, rest) = take_kind(bytes, Kind::Reply)?;
    let (code, rest) = take_code(rest)?;
    let (committer, rest) = take_site(rest, n)?;
    Ok(((code, committer), rest))
}

// The site of a commit.
pub(crate) fn take_commit_head(bytes: &[u8], n: u8) -> Result<(u8, &[u8]), BadField>
    ensures { Gets (commit_head n) (λ s. (tt, s)) bytes.now result }
{
    let (_, rest) = take_kind(bytes, Kind::Commit)?;
    take_site(rest, n)
}
