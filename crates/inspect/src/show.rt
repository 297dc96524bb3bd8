//! What stands in a line for a message and for its parts.

use hex_text::Text;
use message::{Code, Commit, Entry, Found, Reply, Submit, ValueSlot, VersionSlot};
use std::fmt;
use version::{MAX_SITES, Version};

// The most bytes that a version has.
const VERSION_SIZE: usize = 36 * MAX_SITES as usize;

/// A message or a part of one, as it is shown.
#[derive(Clone, Copy)]
pub struct Shown<M>(pub M);

impl fmt::Display for Shown<Submit<'_>> {
    fn fmt<W: fmt::Write>(&self, f: &mut fmt::Formatter<W>) -> fmt::Result {
        let m = self.0;
        write!(
            f,
            "submit {} {} {} {} {} {} {}",
            m.site,
            Shown(m.code),
            m.register,
            m.timestamp,
            Text(m.submit_signature),
            Shown(m.value),
            Text(m.data_signature)
        )
    }
}

impl fmt::Display for Shown<Commit<'_>> {
    fn fmt<W: fmt::Write>(&self, f: &mut fmt::Formatter<W>) -> fmt::Result {
        let m = self.0;
        write!(
            f,
            "commit {} {} {} {}",
            m.site,
            Shown(m.version),
            Text(m.commit_signature),
            Text(m.proof_signature)
        )
    }
}

impl fmt::Display for Shown<ValueSlot<'_>> {
    fn fmt<W: fmt::Write>(&self, f: &mut fmt::Formatter<W>) -> fmt::Result {
        let m = self.0;
        write!(
            f,
            "value-slot {} {} {}",
            m.timestamp,
            Shown(m.value),
            Text(m.data_signature)
        )
    }
}

impl fmt::Display for Shown<VersionSlot<'_>> {
    fn fmt<W: fmt::Write>(&self, f: &mut fmt::Formatter<W>) -> fmt::Result {
        let m = self.0;
        write!(
            f,
            "version-slot {} {} {}",
            Shown(m.version),
            Text(m.commit_signature),
            Text(m.proof_signature)
        )
    }
}

impl fmt::Display for Shown<Reply<'_>> {
    fn fmt<W: fmt::Write>(&self, f: &mut fmt::Formatter<W>) -> fmt::Result {
        let m = self.0;
        write!(
            f,
            "reply {} {} {} {}",
            Shown(m.code()),
            m.committer,
            Shown(m.version),
            Text(m.commit_signature)
        )?;
        for entry in m.entries.as_slice() {
            write!(f, " entry {}", Shown(*entry))?;
        }
        let mut rest = m.proofs;
        for _ in 0..m.version.size() {
            let (proof, behind) = rest.split_at(rest.len().min(m.commit_signature.len()));
            write!(f, " proof {}", Text(proof))?;
            rest = behind;
        }
        match m.found {
            Some(found) => write!(f, " found {}", Shown(found)),
            None => Ok(()),
        }
    }
}

impl fmt::Display for Shown<Entry<'_>> {
    fn fmt<W: fmt::Write>(&self, f: &mut fmt::Formatter<W>) -> fmt::Result {
        let m = self.0;
        write!(
            f,
            "{} {} {} {}",
            m.site,
            Shown(m.code),
            m.register,
            Text(m.signature)
        )
    }
}

impl fmt::Display for Shown<Found<'_>> {
    fn fmt<W: fmt::Write>(&self, f: &mut fmt::Formatter<W>) -> fmt::Result {
        let m = self.0;
        write!(
            f,
            "{} {} {} {} {}",
            Shown(m.version),
            Text(m.commit_signature),
            m.timestamp,
            Shown(m.value),
            Text(m.data_signature)
        )
    }
}

impl fmt::Display for Shown<Code> {
    fn fmt<W: fmt::Write>(&self, f: &mut fmt::Formatter<W>) -> fmt::Result {
        match self.0 {
            Code::Read => write!(f, "read"),
            Code::Write => write!(f, "write"),
        }
    }
}

impl fmt::Display for Shown<Version> {
    fn fmt<W: fmt::Write>(&self, f: &mut fmt::Formatter<W>) -> fmt::Result {
        let mut room = [0; VERSION_SIZE];
        let size = self.0.write(&mut room).unwrap_or(0).min(VERSION_SIZE);
        write!(f, "{}", Text(&room[..size]))
    }
}

impl fmt::Display for Shown<Option<&[u8]>> {
    fn fmt<W: fmt::Write>(&self, f: &mut fmt::Formatter<W>) -> fmt::Result {
        match self.0 {
            Some(value) => write!(f, "{}", Text(value)),
            None => write!(f, "absent"),
        }
    }
}
