//! Writing into a buffer that was found long enough, with signatures straight into their places.

ghost use Rattle.std.specs.Prelude.{◌≡◌, ◌+◌, ◌<◌, ◌≤◌, length, Ok};
ghost use Rattle.octets.specs.Puts.{Puts};
ghost use Rattle.message.specs.Texts.{text_of};
ghost use Rattle.signature.specs.Calls.{SignsAt};
ghost use Rattle.signature.specs.Limits.{max_text};
ghost use Rattle.signature.specs.Meaning.{Site as Signer};

use message::Text;
use octets::put;
use signature::{MAX_TEXT, Scheme, sign_at};

// Puts a part that fits into `out` from `start` on, and answers where it ends.
pub(crate) fn place(out: &mut [u8], start: usize, part: &[u8]) -> usize
    requires { start + length part.now ≤ length out.old }
    ensures { Puts part.now start out.old out.new result }
{
    put(out, start, part).unwrap()
}

// Signs what a site can sign into `out` from `start` on, and answers where the signature ends.
pub(crate) fn sign<S: Scheme>(
    scheme: &mut S,
    site: u8,
    text: &Text,
    out: &mut [u8],
    start: usize,
) -> usize
    requires ranged { Signer site }
    requires short { length (text_of text.now) ≤ max_text }
    requires some { 0 < (S.Scheme.means scheme.old).left site }
    requires room { start + S.Scheme.G ≤ length out.old }
    ensures { SignsAt S.Scheme.G (S.Scheme.means scheme.old) (S.Scheme.means scheme.new) site (text_of text.now) start out.old out.new (Ok result) }
{
    let mut room = [0; MAX_TEXT];
    let size = text.write(&mut room).unwrap();
    sign_at(scheme, site, &room[..size], out, start).unwrap()
}
