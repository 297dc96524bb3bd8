//! Bytes in text: two lower-case hexadecimal digits a byte, and a full stop for no bytes.
#![tactic(auto)]

ghost use Rattle.std.specs.Prelude.{◌≡◌, ℕ, ◌*◌, ◌<◌, ◌≤◌, length, take, Some, IfOk, string_bytes};
ghost use Rattle.std.specs.Str.{IsAscii};
ghost use Rattle.hex_text.specs.Hex.{digit as digit_of, digits as digits_of, text_of, Value, Spelled, Decodes};

use std::alloc::{AllocError, Global};
use std::{fmt, str};

// How many bytes are written at once.
const PIECE: usize = 32;

/// Bytes that are shown as their text.
#[derive(Clone, Copy)]
pub struct Text<'a>(pub &'a [u8]);

impl fmt::Display for Text<'_> {
    ghost output = { λ text. Some (text_of text.0.now) };

    fn fmt<W: fmt::Write>(&self, f: &mut fmt::Formatter<W>) -> fmt::Result {
        if self.0.is_empty() {
            return f.write_str(".");
        }
        let mut room = [0; 2 * PIECE];
        for piece in self.0.chunks(PIECE) {
            put_digits(piece, &mut room);
            let Ok(text) = str::from_utf8(&room[..2 * piece.len()]) else {
                unreachable!();
            };
            f.write_str(text)?;
        }
        Ok(())
    }
}

/// The text of `bytes`.
pub fn encode(heap: Global, bytes: &[u8]) -> Result<String, AllocError>
    ensures { IfOk result (λ s. string_bytes s ≡ text_of bytes.now) }
{
    Text(bytes).to_string(heap)
}

/// The bytes that `text` spells, or `None` where it spells none.
pub fn decode(heap: Global, text: &[u8]) -> Result<Option<Vec<u8>>, AllocError>
    ensures { Decodes text.now result }
{
    let mut bytes = Vec::new(heap);
    if text == b".".as_slice() {
        return Ok(Some(bytes));
    }
    let (pairs, rest) = text.as_chunks::<2>();
    if pairs.is_empty() || !rest.is_empty() {
        return Ok(None);
    }
    for [high, low] in pairs {
        let Some(byte) = byte(*high, *low) else {
            return Ok(None);
        };
        bytes.push(byte)?;
    }
    Ok(Some(bytes))
}

// Writes the digits of `bytes` to the front of `room`.
#[tactic(auto, using(crate::proofs::Digits::digits_put, crate::proofs::Digits::digits_ascii))]
fn put_digits(bytes: &[u8], room: &mut [u8; 2 * PIECE])
    requires { length bytes.now ≤ 32 }
    ensures written { take (2 * length bytes.now) room.new ≡ digits_of bytes.now }
    ensures ascii { IsAscii (digits_of bytes.now) }
{
    for (k, byte) in bytes.iter().enumerate() {
        room[2 * k] = digit(byte / 16);
        room[2 * k + 1] = digit(byte % 16);
    }
}

// The byte that two digits spell.
fn byte(high: u8, low: u8) -> Option<u8>
    ensures { Spelled high low result }
{
    Some(value(high)? * 16 + value(low)?)
}

#[tactic(auto, using(crate::proofs::Digits::digit_low, crate::proofs::Digits::digit_high))]
fn digit(n: u8) -> u8
    requires { n < 16 }
    ensures value { result ≡ digit_of n }
    ensures ascii { result < 128 }
{
    if n < 10 { b'0' + n } else { b'a' - 10 + n }
}

#[tactic(auto, using(crate::proofs::Digits::no_value, crate::proofs::Digits::digit_low, crate::proofs::Digits::digit_high))]
fn value(c: u8) -> Option<u8>
    ensures { Value c result }
{
    // Kept: `char::to_digit` reads upper-case letters too, which spell nothing here.
    match c {
        b'0'..=b'9' => Some(c - b'0'),
        b'a'..=b'f' => Some(c - b'a' + 10),
        _ => None,
    }
}
