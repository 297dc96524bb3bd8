//! Bytes that a caller lends: numbers and parts read from their front, and parts put into them at a place.
//!
//! A reader is a function from a slice to a value and the rest, so that readers chain by `?`.
//! A writer takes the place to write at and answers where it ended, so that writers chain by places.

#![tactic(auto)]

ghost use Rattle.std.specs.Prelude.{◌≡◌, ℕ, ◌≤◌, Decides};
ghost use Rattle.std.proofs.Common.{rules};
ghost use Rattle.octets.specs.Field.{numeral, span};
ghost use Rattle.octets.specs.Numbers.{big_endian, number};
ghost use Rattle.octets.specs.Puts.{PutsOrNot};
ghost use Rattle.octets.specs.Reads.{Gets};

/// A field that is bad or incomplete, by the number of bytes that are left from its first byte on.
///
/// Whoever knows how long the whole message is has the field's offset by one subtraction.
#[derive(Clone, Copy, Debug, PartialEq, Eq)]
pub struct BadField {
    pub left: usize,
}

/// An unsigned number that has `N` bytes.
pub trait Number<const N: usize>: Copy {
    /// The number that a value stands for.
    ghost value: { Self → ℕ };

    /// The number that the bytes spell, highest first.
    fn from_bytes(bytes: [u8; N]) -> Self
        ensures { value result ≡ number bytes.entry };

    /// The bytes of the number, highest first.
    fn to_bytes(self) -> [u8; N]
        ensures { result ≡ big_endian N (value self) };

    ghost few: { N ≤ 16 };
}

impl Number<1> for u8 {
    ghost value = { λ n. n };

    ghost few = { Prim.search rules };

    fn from_bytes(bytes: [u8; 1]) -> u8
        ensures { result ≡ number bytes }
    {
        u8::from_be_bytes(bytes)
    }

    fn to_bytes(self) -> [u8; 1]
        ensures { result ≡ big_endian 1 self }
    {
        u8::to_be_bytes(self)
    }
}

impl Number<2> for u16 {
    ghost value = { λ n. n };

    ghost few = { Prim.search rules };

    fn from_bytes(bytes: [u8; 2]) -> u16
        ensures { result ≡ number bytes }
    {
        u16::from_be_bytes(bytes)
    }

    fn to_bytes(self) -> [u8; 2]
        ensures { result ≡ big_endian 2 self }
    {
        u16::to_be_bytes(self)
    }
}

impl Number<4> for u32 {
    ghost value = { λ n. n };

    ghost few = { Prim.search rules };

    fn from_bytes(bytes: [u8; 4]) -> u32
        ensures { result ≡ number bytes }
    {
        u32::from_be_bytes(bytes)
    }

    fn to_bytes(self) -> [u8; 4]
        ensures { result ≡ big_endian 4 self }
    {
        u32::to_be_bytes(self)
    }
}

/// A number of `N` bytes, highest first, and the rest.
pub fn take_number<const N: usize, T: Number<N>>(bytes: &[u8]) -> Result<(T, &[u8]), BadField>
    ensures { Gets (numeral N) T.value bytes.now result }
{
    match bytes.split_first_chunk::<N>() {
        Some((front, rest)) => Ok((T::from_bytes(*front), rest)),
        None => Err(BadField { left: bytes.len() }),
    }
}

/// The first `size` bytes, and the rest.
pub fn take_span(bytes: &[u8], size: usize) -> Result<(&[u8], &[u8]), BadField>
    ensures { Gets (span size) (λ x. x.now) bytes.now result }
{
    if bytes.len() < size {
        return Err(BadField { left: bytes.len() });
    }
    Ok(bytes.split_at(size))
}

/// Puts `part` into `out` from `start` on and answers where it ends, or `None` where it does not fit.
pub fn put(out: &mut [u8], start: usize, part: &[u8]) -> Option<usize>
    ensures { PutsOrNot part.now start out.old out.new result }
{
    let end = start.checked_add(part.len())?;
    if out.len() < end {
        return None;
    }
    out[start..end].copy_from_slice(part);
    Some(end)
}

/// Puts a number of `N` bytes, highest first.
pub fn put_number<const N: usize, T: Number<N>>(out: &mut [u8], start: usize, n: T) -> Option<usize>
    ensures { PutsOrNot (big_endian N (T.value n)) start out.old out.new result }
{
    put(out, start, &n.to_bytes())
}

/// Whether two slices hold the same bytes.
pub fn same(a: &[u8], b: &[u8]) -> bool
    ensures { Decides result (a.now ≡ b.now) }
{
    a == b
}
