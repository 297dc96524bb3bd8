//! Finishing an operation by the host's reply.

ghost use Rattle.std.specs.Prelude.{◌≡◌, length};
ghost use Rattle.version.specs.Version.{slots};
ghost use Rattle.site.specs.Calls.{FinishesWith};
ghost use Rattle.site.specs.Finishing.{place_of};
ghost use Rattle.site.specs.State.{state, setup};

use super::abandon::Kept;
use super::checker::Checker;
use super::state::Site;
use super::ticket::Ticket;
use digest::Digest;
use message::{Place, Reply};
use rules::{Phase, Stop};
use signature::Scheme;

/// An operation that was finished: how many bytes of the buffer its commit took and, for a read, where the value stands in
/// the reply, nothing if there is none.
#[derive(Clone, Copy)]
pub struct Finished {
    pub length: usize,
    pub value: Option<Place>,
}

/// An operation that was not finished.
pub enum Unfinished {
    /// Nothing has changed, and the ticket comes back.
    Refused(Kept),
    /// A check of the reply failed: the site has stopped for good, and the ticket is spent.
    Stopped(Stop),
}

impl Site {
    /// Finishes the waiting operation by the host's reply: the commit for the host is written to the front of `out`.
    pub fn finish<S: Scheme, D: Digest>(
        &mut self,
        scheme: &mut S,
        digest: &D,
        ticket: Ticket,
        bytes: &[u8],
        out: &mut [u8],
    ) -> Result<Finished, Unfinished>
        ensures { FinishesWith (setup (length (slots self.old.version)) S.Scheme.G D.Digest.means) (S.Scheme.means scheme.old) (S.Scheme.means scheme.new) (state self.old) (state self.new) ticket bytes.now out.old out.new result }
    {
        let (register, reply) = match self.admit(scheme, &ticket, bytes, out.len()) {
            Ok(admitted) => admitted,
            Err(refusal) => return Err(Unfinished::Refused(Kept { ticket, refusal })),
        };
        ticket.spend();
        let checker = Checker {
            scheme: &*scheme,
            digest,
            number: self.number,
        };
        match checker.verify(&self.version, register, &reply) {
            Ok(running) => {
                self.version = running.version;
                self.phase = Phase::Idle;
                let length = self.write_commit(scheme, out);
                let value = found_place(&reply, bytes.len(), S::G);
                Ok(Finished { length, value })
            }
            Err(stop) => {
                self.phase = Phase::Stopped;
                Err(Unfinished::Stopped(stop))
            }
        }
    }
}

// Where the value stands that was found, in a reply of `size` bytes that ends with its data signature of `g` bytes.
fn found_place(reply: &Reply, size: usize, g: usize) -> Option<Place>
    ensures { result ≡ place_of g size reply.now.found }
{
    let value = reply.found.as_ref()?.value?;
    let length = value.len();
    let offset = size.saturating_sub(g).saturating_sub(length);
    Some(Place { offset, length })
}
