//! A line of input, and the line that answers it.

ghost use Rattle.std.specs.Prelude.{IfSome, IfOk, string_bytes};
ghost use Rattle.vectors.specs.Questions.{Asks, OfHmac, OfMidstate, OfOne, OfPair, OfRepeated, Replies, Two};

use crate::hashes::{by_midstate, repeated};
use digest::{Digest, LEN, Streaming};
use hmac::hmac_sha256;
use sha3::Sha3_256;
use sha256::Sha256;
use std::alloc::{AllocError, Global};

/// What is written for `line`: a remark or an empty line as it is, a digest in hexadecimal digits, or `unknown`.
pub fn answer(heap: Global, line: &str) -> Result<String, AllocError>
    ensures { IfOk result (λ s. Replies line.now (string_bytes s)) }
{
    if line.is_empty() || line.starts_with('#') {
        return String::from_str(heap, line);
    }
    match digest_asked(heap, line)? {
        Some(digest) => hex_text::encode(heap, &digest),
        None => String::from_str(heap, "unknown"),
    }
}

/// The digest that `line` asks for, if it can be understood.
fn digest_asked(heap: Global, line: &str) -> Result<Option<[u8; LEN]>, AllocError>
    ensures { IfOk result (λ o. IfSome o (Asks line.now)) }
{
    let Some((name, words)) = line.split_once(' ') else {
        return Ok(None);
    };
    match name {
        "sha256" => of_one::<sha256::Hasher>(heap, &Sha256, words),
        "sha3-256" => of_one::<sha3::Hasher>(heap, &Sha3_256, words),
        "sha256-pair" => of_two::<sha256::Hasher>(heap, words),
        "sha3-256-pair" => of_two::<sha3::Hasher>(heap, words),
        "sha256-midstate" => of_midstate(heap, words),
        "hmac-sha256" => of_hmac(heap, words),
        _ => Ok(None),
    }
}

/// Of `HEX`, or of `COUNT*HEX`.
fn of_one<H: Streaming>(
    heap: Global,
    digest: &H::Of,
    word: &str,
) -> Result<Option<[u8; LEN]>, AllocError>
    ensures { IfOk result (λ o. IfSome o (OfOne H.Of.means word.now)) }
{
    if let Some((count, text)) = word.split_once('*') {
        return of_repeated::<H>(heap, count, text);
    }
    let Some(bytes) = hex_text::decode(heap, word.as_bytes())? else {
        return Ok(None);
    };
    Ok(Some(digest.digest(&bytes)))
}

/// Of `count` times the bytes of `text`.
fn of_repeated<H: Streaming>(
    heap: Global,
    count: &str,
    text: &str,
) -> Result<Option<[u8; LEN]>, AllocError>
    ensures { IfOk result (λ o. IfSome o (OfRepeated H.Of.means count.now text.now)) }
{
    let Ok(count) = count.parse::<u64>() else {
        return Ok(None);
    };
    let Some(bytes) = hex_text::decode(heap, text.as_bytes())? else {
        return Ok(None);
    };
    Ok(Some(repeated::<H>(count, &bytes)))
}

/// The bytes of two words.
fn two(heap: Global, words: &str) -> Result<Option<(Vec<u8>, Vec<u8>)>, AllocError>
    ensures { IfOk result (λ o. IfSome o (λ p. Two words.now p.0.items p.1.items)) }
{
    let Some((first, second)) = words.split_once(' ') else {
        return Ok(None);
    };
    let Some(front) = hex_text::decode(heap, first.as_bytes())? else {
        return Ok(None);
    };
    let Some(back) = hex_text::decode(heap, second.as_bytes())? else {
        return Ok(None);
    };
    Ok(Some((front, back)))
}

/// Of two words as one message.
fn of_two<H: Streaming>(heap: Global, words: &str) -> Result<Option<[u8; LEN]>, AllocError>
    ensures { IfOk result (λ o. IfSome o (OfPair H.Of.means words.now)) }
{
    let Some((front, back)) = two(heap, words)? else {
        return Ok(None);
    };
    Ok(Some(digest::pair::<H>(&front, &back)))
}

/// Of a first block and the rest of a message.
fn of_midstate(heap: Global, words: &str) -> Result<Option<[u8; LEN]>, AllocError>
    ensures { IfOk result (λ o. IfSome o (OfMidstate words.now)) }
{
    let Some((block, rest)) = two(heap, words)? else {
        return Ok(None);
    };
    Ok(by_midstate(&block, &rest))
}

/// Of a key and a text: the keyed hash.
fn of_hmac(heap: Global, words: &str) -> Result<Option<[u8; LEN]>, AllocError>
    ensures { IfOk result (λ o. IfSome o (OfHmac words.now)) }
{
    let Some((key, text)) = two(heap, words)? else {
        return Ok(None);
    };
    Ok(Some(hmac_sha256(&key, &text)))
}
