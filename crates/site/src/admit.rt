//! What a finish can be refused for, before the reply is checked.

ghost use Rattle.std.specs.Prelude.{◌≡◌};
ghost use Rattle.version.specs.Shape.{Size};
ghost use Rattle.site.specs.Finishing.{Admits, ReadsReply, offset_for};
ghost use Rattle.site.specs.State.{state, operation_named};

use super::state::Site;
use super::ticket::Ticket;
use message::{Code, Reply};
use rules::Refusal;
use signature::Scheme;

impl Site {
    // The register of the ticket's operation and the reply to it, if the site waits for it, can sign, and `room` bytes are enough.
    pub(crate) fn admit<'a, S: Scheme>(
        &self,
        scheme: &S,
        ticket: &Ticket,
        bytes: &'a [u8],
        room: usize,
    ) -> Result<(u8, Reply<'a>), Refusal>
        ensures { Admits S.Scheme.G (S.Scheme.means scheme.now) (state self.now) (operation_named ticket.now) bytes.now room result }
    {
        let (code, register) = self.awaited(ticket)?;
        if self.left(scheme) < 2 {
            return Err(Refusal::TooFewSignatures);
        }
        let size = self.version.size();
        let reply = read_reply(code, size, S::G, bytes)?;
        if room < 2 + 36 * size as usize + 2 * S::G {
            return Err(Refusal::BufferTooShort);
        }
        Ok((register, reply))
    }
}

// Reads the reply to an operation: the code of another makes the code a bad field.
fn read_reply(code: Code, size: u8, g: usize, bytes: &[u8]) -> Result<Reply<'_>, Refusal>
    requires { Size size }
    ensures { ReadsReply size g code bytes.now result }
{
    match Reply::read(size, g, bytes) {
        Ok(reply) => {
            if reply.code() == code {
                Ok(reply)
            } else {
                Err(Refusal::BadField(1))
            }
        }
        Err(message::Refusal::BadField(offset)) => {
            Err(Refusal::BadField(first_bad(code, bytes, offset)))
        }
        Err(_) => unreachable!(),
    }
}

// Where the first bad field of a reply to this operation begins, if it begins at `offset` in a reply to any.
fn first_bad(code: Code, bytes: &[u8], offset: usize) -> usize
    ensures { result ≡ offset_for code bytes.now offset }
{
    let second = bytes.get(1).copied().unwrap_or(0);
    if 1 < offset && second != code.number() {
        1
    } else {
        offset
    }
}
