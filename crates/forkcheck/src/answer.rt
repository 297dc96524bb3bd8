//! A line of text and its answer.

use super::check::{Saved, check};
use hex_text::decode;
use std::alloc::{AllocError, Global};
use std::fmt;
use std::str::Split;
use version::{Order, Refusal};

/// Why a line is answered by no order.
#[derive(Clone, Copy, Debug, PartialEq, Eq)]
pub enum Failure {
    /// The line is not `SIZE HEX SIZE HEX`.
    Unknown,
    /// One of the two is no version, or their groups differ in size.
    Refused(Refusal),
}

impl fmt::Display for Failure {
    fn fmt<W: fmt::Write>(&self, f: &mut fmt::Formatter<W>) -> fmt::Result {
        match self {
            Failure::Unknown => write!(f, "unknown"),
            Failure::Refused(Refusal::BadField(offset)) => write!(f, "refused 7 at {offset}"),
            Failure::Refused(refusal) => {
                let number = refusal.number();
                write!(f, "refused {number}")
            }
        }
    }
}

/// The answer to a line `SIZE HEX SIZE HEX`.
pub fn answer_to(heap: Global, line: &str) -> Result<Result<Order, Failure>, AllocError> {
    let mut words = line.split(' ');
    let (Some(left), Some(right), None) = (named(&mut words), named(&mut words), words.next())
    else {
        return Ok(Err(Failure::Unknown));
    };
    let (Some(left), Some(right)) = (saved(heap, left)?, saved(heap, right)?) else {
        return Ok(Err(Failure::Unknown));
    };
    Ok(check(&left, &right).map_err(Failure::Refused))
}

// The size and the text of the version that the next two words name.
fn named<'a>(words: &mut Split<'a, char>) -> Option<(u8, &'a str)> {
    let (size, text) = (words.next()?, words.next()?);
    Some((parse_size(size)?, text))
}

// The version of this size and text.
fn saved(heap: Global, (size, text): (u8, &str)) -> Result<Option<Saved>, AllocError> {
    let bytes = decode(heap, text.as_bytes())?;
    Ok(bytes.map(|bytes| Saved { size, bytes }))
}

// A group's size; a number too large for any group is as good as 0, which is none either.
fn parse_size(word: &str) -> Option<u8> {
    let size = word.parse::<u64>().ok()?;
    Some(u8::try_from(size).unwrap_or(0))
}
