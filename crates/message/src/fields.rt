//! Readers of single fields. Each takes the bytes that begin with its field, and answers the value and the rest.
// Kept: the number of sites and the length of a signature go together in the readers of whole messages and of entries, but each
// reader of a field takes one of them, so a struct of both would be taken apart at each call.

ghost use Rattle.std.specs.Option.{option_map};
ghost use Rattle.message.specs.Fields.{kind as kind_field, site as site_field, code as code_field, register as register_field, value as value_field, written};
ghost use Rattle.message.specs.Kind.{kind_number};
ghost use Rattle.octets.specs.Reads.{Gets};

use super::code::Code;
use super::kind::Kind;
use octets::{BadField, take_number};

/// The longest value that a register can hold.
pub const MAX_VALUE: usize = 512;

// The first byte of a message of this kind.
pub(crate) fn take_kind(bytes: &[u8], kind: Kind) -> Result<((), &[u8]), BadField>
    ensures { Gets (kind_field (kind_number kind)) (λ _. tt) bytes.now result }
{
    let (byte, rest): (u8, _) = take_number(bytes)?;
    if byte != kind.number() {
        return Err(BadField { left: bytes.len() });
    }
    Ok(((), rest))
}

pub(crate) fn take_site(bytes: &[u8], n: u8) -> Result<(u8, &[u8]), BadField>
    ensures { Gets (site_field n) (λ s. s) bytes.now result }
{
    let (site, rest) = take_number(bytes)?;
    if site < 1 || n < site {
        return Err(BadField { left: bytes.len() });
    }
    Ok((site, rest))
}

pub(crate) fn take_code(bytes: &[u8]) -> Result<(Code, &[u8]), BadField>
    ensures { Gets code_field (λ c. c) bytes.now result }
{
    let (byte, rest): (u8, _) = take_number(bytes)?;
    match Code::try_from(byte) {
        Ok(code) => Ok((code, rest)),
        Err(_) => Err(BadField { left: bytes.len() }),
    }
}

// The register of an operation of `site`, which writes only its own.
pub(crate) fn take_register(
    bytes: &[u8],
    n: u8,
    site: u8,
    code: Code,
) -> Result<(u8, &[u8]), BadField>
    ensures { Gets (register_field n site code) (λ s. s) bytes.now result }
{
    let (register, rest) = take_number(bytes)?;
    if register < 1 || n < register || (code == Code::Write && register != site) {
        return Err(BadField { left: bytes.len() });
    }
    Ok((register, rest))
}

pub(crate) fn take_value(bytes: &[u8]) -> Result<(Option<&[u8]>, &[u8]), BadField>
    ensures { Gets value_field (option_map (λ v. v.now)) bytes.now result }
{
    let left = bytes.len();
    let (size, rest): (u16, _) = take_number(bytes)?;
    let size = size as usize;
    if size == 0 {
        return Ok((None, rest));
    }
    if size > MAX_VALUE + 1 || rest.len() < size - 1 {
        return Err(BadField { left });
    }
    let (value, rest) = rest.split_at(size - 1);
    Ok((Some(value), rest))
}

// A value that is present exactly in a write.
pub(crate) fn take_written(bytes: &[u8], code: Code) -> Result<(Option<&[u8]>, &[u8]), BadField>
    ensures { Gets (written code) (option_map (λ v. v.now)) bytes.now result }
{
    let (value, rest) = take_value(bytes)?;
    if value.is_some() != (code == Code::Write) {
        return Err(BadField { left: bytes.len() });
    }
    Ok((value, rest))
}
