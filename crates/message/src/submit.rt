//! A submit: what a site asks of the host.

ghost use Rattle.std.specs.Prelude.{◌≡◌, ℕ};
ghost use Rattle.octets.specs.Field.{Undoes};
ghost use Rattle.octets.specs.Reads.{Gets};
ghost use Rattle.message.specs.Reads.{Reads};
ghost use Rattle.message.specs.Submit.{submit as submit_field, submitted, operation_put};
ghost use Rattle.message.specs.Writes.{TooLong, Writes};

use super::code::Code;
use super::fields::take_written;
use super::head::take_submit_head;
use super::kind::Kind;
use super::parts::{fill, value_parts};
use super::refusal::Refusal;
use super::whole::{whole, zero};
use octets::{BadField, take_number, take_span};

/// What a site asks of the host. Its parts are slices of the bytes that were read; `places` gives their places, which borrow nothing.
#[derive(Clone, Copy)]
pub struct Submit<'a> {
    pub site: u8,
    // Kept: the code stands beside the value as in the message, since a writer takes any two of them.
    pub code: Code,
    pub register: u8,
    pub timestamp: u32,
    pub submit_signature: &'a [u8],
    pub value: Option<&'a [u8]>,
    pub data_signature: &'a [u8],
}

fn take_submit(bytes: &[u8], n: u8, g: usize) -> Result<(Submit<'_>, &[u8]), BadField>
    ensures { Gets (submit_field n g) submitted bytes.now result }
{
    let ((site, code, register), rest) = take_submit_head(bytes, n)?;
    let (timestamp, rest) = take_number(rest)?;
    let (submit_signature, rest) = take_span(rest, g)?;
    let (value, rest) = take_written(rest, code)?;
    let (data_signature, rest) = take_span(rest, g)?;
    Ok((
        Submit {
            site,
            code,
            register,
            timestamp,
            submit_signature,
            value,
            data_signature,
        },
        rest,
    ))
}

impl<'a> Submit<'a> {
    /// Reads bytes that are to be a submit in a group of `n` sites, with signatures of `g` bytes, and nothing else.
    pub fn read(n: u8, g: usize, bytes: &'a [u8]) -> Result<Submit<'a>, Refusal>
        ensures reads { Reads n (submit_field n g) submitted bytes.now result }
        ensures undoes { Undoes (submit_field n g) }
    {
        zero(n)?;
        whole(bytes, take_submit(bytes, n, g))
    }

    /// Writes the submit to the front of `out` and answers how many bytes it took.
    pub fn write(&self, out: &mut [u8]) -> Result<usize, Refusal>
        ensures { (n g : ℕ) → Writes (submit_field n g) (submitted self.now) (TooLong (submitted self.now).value) out.old out.new result }
    {
        let (size, value) = value_parts(self.value)?;
        let head = submit_start(self.site, self.code, self.register, self.timestamp);
        fill(
            out,
            &[
                &head,
                self.submit_signature,
                &size,
                value,
                self.data_signature,
            ],
        )
    }
}

/// The fields of a submit in front of its first signature.
pub fn submit_start(site: u8, code: Code, register: u8, timestamp: u32) -> [u8; 8]
    ensures { result ≡ operation_put site code register timestamp }
{
    let kind = Kind::Submit.number();
    let [a, b, c, d] = timestamp.to_be_bytes();
    [kind, site, code.number(), register, a, b, c, d]
}
