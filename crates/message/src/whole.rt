//! From the fields of a message to the whole of it.

ghost use Rattle.message.specs.Reads.{Ended, Sized};

use super::refusal::Refusal;
use octets::BadField;
use version::Version;

// The zero version of a group of `n` sites, if there is one.
pub(crate) fn zero(n: u8) -> Result<Version, Refusal>
    ensures { Sized n result }
{
    Version::zero(n).map_err(|_| Refusal::OutOfRange)
}

// The message, if nothing is left behind its last field.
pub(crate) fn whole<'a, M: Drop>(
    bytes: &[u8],
    got: Result<(M, &'a [u8]), BadField>,
) -> Result<M, Refusal>
    ensures { Ended bytes.now got.entry result }
{
    match got {
        Ok((message, rest)) => {
            if !rest.is_empty() {
                return Err(Refusal::BadField(bytes.len().saturating_sub(rest.len())));
            }
            Ok(message)
        }
        Err(bad) => Err(Refusal::BadField(bytes.len().saturating_sub(bad.left))),
    }
}
