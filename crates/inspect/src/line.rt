//! A line of text and its answer.

use super::show::Shown;
use message::{Commit, Refusal, Reply, Submit, ValueSlot, VersionSlot};
use std::alloc::{AllocError, Global};
use std::fmt::Display;

/// What is written for a line: what the message says, why it does not read, or `unknown`.
pub fn answer(heap: Global, line: &str) -> Result<String, AllocError> {
    match parsed(heap, line)? {
        Some(answer) => Ok(answer),
        None => String::from_str(heap, "unknown"),
    }
}

// The answer to a line of the right shape.
fn parsed(heap: Global, line: &str) -> Result<Option<String>, AllocError> {
    let mut words = line.split(' ');
    let (Some(kind), Some(n), Some(g), Some(text), None) = (
        words.next(),
        words.next(),
        words.next(),
        words.next(),
        words.next(),
    ) else {
        return Ok(None);
    };
    let (Ok(n), Ok(g)) = (n.parse::<u64>(), g.parse::<usize>()) else {
        return Ok(None);
    };
    let Some(bytes) = hex_text::decode(heap, text.as_bytes())? else {
        return Ok(None);
    };
    shown(heap, kind, u8::try_from(n).unwrap_or(0), g, &bytes)
}

// What a message of this kind says, in a group of `n` sites with signatures of `g` bytes.
fn shown(
    heap: Global,
    kind: &str,
    n: u8,
    g: usize,
    bytes: &[u8],
) -> Result<Option<String>, AllocError> {
    let answer = match kind {
        "submit" => said(heap, Submit::read(n, g, bytes).map(Shown))?,
        "reply" => said(heap, Reply::read(n, g, bytes).map(Shown))?,
        "commit" => said(heap, Commit::read(n, g, bytes).map(Shown))?,
        "value-slot" => said(heap, ValueSlot::read(g, bytes).map(Shown))?,
        "version-slot" => said(heap, VersionSlot::read(n, g, bytes).map(Shown))?,
        _ => return Ok(None),
    };
    Ok(Some(answer))
}

fn said<M: Display + Drop>(heap: Global, read: Result<M, Refusal>) -> Result<String, AllocError> {
    match read {
        Ok(message) => format!(in heap; "{message}"),
        Err(Refusal::BadField(offset)) => format!(in heap; "refused 7 at {offset}"),
        Err(refusal) => {
            let number = refusal.number();
            format!(in heap; "refused {number}")
        }
    }
}
