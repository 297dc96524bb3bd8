//! The texts that sites sign. Each begins with a tag that no other kind has, and determines what it was made of.

ghost use Rattle.std.specs.Prelude.{◌≡◌};
ghost use Rattle.message.specs.Strings.{StringsTellApart};
ghost use Rattle.message.specs.Texts.{tag_of, text_of};
ghost use Rattle.message.specs.Writes.{Fills};

use super::code::Code;
use super::parts::{VERSION_SIZE, fill, version_part};
use super::refusal::Refusal;
use version::Version;

/// What a site signs.
#[derive(Clone, Copy)]
pub enum Text<'a> {
    /// An operation, by its code, its register and its timestamp.
    Submit(Code, u8, u32),
    /// A timestamp, and the digest of the value last written, none where there is no value.
    Data(u32, Option<&'a [u8; 32]>),
    /// A version.
    Commit(&'a Version),
    /// The signer's own digest.
    Proof(&'a [u8; 32]),
}

impl Text<'_> {
    /// Writes the text to the front of `out` and answers how many bytes it took.
    #[tactic(auto, using(crate::proofs::Tags::strings_tell_apart))]
    pub fn write(&self, out: &mut [u8]) -> Result<usize, Refusal>
        ensures written { Fills (text_of self.now) out.old out.new result }
        ensures apart { StringsTellApart }
    {
        let tag = self.tag();
        match self {
            Text::Submit(code, register, timestamp) => {
                let operation = [code.number(), *register];
                let stamp = timestamp.to_be_bytes();
                fill(out, &[&tag, &operation, &stamp])
            }
            Text::Data(timestamp, digest) => {
                let stamp = timestamp.to_be_bytes();
                match digest {
                    Some(digest) => fill(out, &[&tag, &stamp, *digest]),
                    None => fill(out, &[&tag, &stamp]),
                }
            }
            Text::Commit(version) => {
                let mut room = [0; VERSION_SIZE];
                let version = version_part(version, &mut room);
                fill(out, &[&tag, version])
            }
            Text::Proof(digest) => fill(out, &[&tag, *digest]),
        }
    }

    // The bytes that every text of this kind begins with.
    fn tag(&self) -> [u8; 4]
        ensures { result ≡ tag_of self.now }
    {
        match self {
            Text::Submit(_, _, _) => *b"SUBM",
            Text::Data(_, _) => *b"DATA",
            Text::Commit(_) => *b"COMM",
            Text::Proof(_) => *b"PROF",
        }
    }
}
