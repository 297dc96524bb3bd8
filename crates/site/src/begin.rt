//! Beginning an operation.

ghost use Rattle.std.specs.Prelude.{◌≡◌, ℕ, List, length};
ghost use Rattle.rules.specs.Begin.{Short, read_of, write_of};
ghost use Rattle.version.specs.Shape.{digest_bytes};
ghost use Rattle.version.specs.Version.{slots};
ghost use Rattle.site.specs.Calls.{BeginsWith};
ghost use Rattle.site.specs.State.{state, setup};
ghost use Rattle.site.specs.Steps.{Nexts};
ghost use Rattle.site.specs.Submitting.{Asks, asked};

use super::request::Request;
use super::state::Site;
use super::ticket::Ticket;
use digest::Digest;
use message::MAX_VALUE;
use rules::{Phase, Refusal};
use signature::Scheme;

/// An operation that was begun: its ticket, and how many bytes of the buffer its submit took.
pub struct Begun {
    pub ticket: Ticket,
    pub length: usize,
}

impl Site {
    /// Begins to read a register, the site's own or another's: the submit for the host is written to the front of `out`.
    pub fn begin_read<S: Scheme>(
        &mut self,
        scheme: &mut S,
        register: u8,
        out: &mut [u8],
    ) -> Result<Begun, Refusal>
        ensures { (digest : List ℕ → List ℕ) → BeginsWith (setup (length (slots self.old.version)) S.Scheme.G digest) (S.Scheme.means scheme.old) (S.Scheme.means scheme.new) (state self.old) (state self.new) (read_of register) out.old out.new result }
    {
        if register < 1 || self.version.size() < register {
            return Err(Refusal::OutOfRange);
        }
        self.idle()?;
        let last = self.last;
        self.begin(scheme, Request::Read(register), last, out)
    }

    /// Begins to write a value to the site's own register: the submit for the host is written to the front of `out`.
    pub fn begin_write<S: Scheme, D: Digest>(
        &mut self,
        scheme: &mut S,
        digest: &D,
        value: &[u8],
        out: &mut [u8],
    ) -> Result<Begun, Refusal>
        ensures { BeginsWith (setup (length (slots self.old.version)) S.Scheme.G D.Digest.means) (S.Scheme.means scheme.old) (S.Scheme.means scheme.new) (state self.old) (state self.new) (write_of value.now) out.old out.new result }
    {
        self.idle()?;
        if MAX_VALUE < value.len() {
            return Err(Refusal::ValueTooLong);
        }
        let last = Some(digest.digest(value));
        self.begin(scheme, Request::Write(value), last, out)
    }

    // Begins an operation of an idle site; `last` is the digest of its last value, this one included.
    fn begin<S: Scheme>(
        &mut self,
        scheme: &mut S,
        request: Request,
        last: Option<[u8; 32]>,
        out: &mut [u8],
    ) -> Result<Begun, Refusal>
        requires short { Short (asked request) }
        requires wide { length (digest_bytes last) ≡ 32 }
        ensures { (digest : List ℕ → List ℕ) → Asks (setup (length (slots self.old.version)) S.Scheme.G digest) (state self.old) (asked request.entry) last → BeginsWith (setup (length (slots self.old.version)) S.Scheme.G digest) (S.Scheme.means scheme.old) (S.Scheme.means scheme.new) (state self.old) (state self.new) (asked request.entry) out.old out.new result }
    {
        let size = 10 + 2 * S::G + request.size();
        let timestamp = self.next(scheme, size, out.len())?;
        self.last = last;
        self.phase = Phase::Waiting(request.code(), request.register(self.number));
        let length = self.write_submit(scheme, request, timestamp, out);
        let ticket = Ticket::of(self.number, timestamp);
        Ok(Begun { ticket, length })
    }

    // The timestamp of the next operation, if it can have one, can be signed, and `room` bytes are enough.
    fn next<S: Scheme>(&self, scheme: &S, size: usize, room: usize) -> Result<u32, Refusal>
        ensures { Nexts (S.Scheme.means scheme.now) (state self.now) size room result }
    {
        let timestamp = self.own().checked_add(1).ok_or(Refusal::TimestampLimit)?;
        if self.left(scheme) < 4 {
            return Err(Refusal::TooFewSignatures);
        }
        if room < size {
            return Err(Refusal::BufferTooShort);
        }
        Ok(timestamp)
    }
}
