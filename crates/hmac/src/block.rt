//! The block that a key becomes.

ghost use Rattle.std.specs.Prelude.{◌≡◌, ◌≤◌, length};
ghost use Rattle.hmac.specs.Hmac.{zero_filled, key_block, xored};

use digest::Digest;
use sha256::Sha256;

/// The bytes of a block of SHA-256, B in RFC 2104.
pub(crate) const BLOCK: usize = 64;

/// The key with zeros behind it, or its hash where it is longer than a block.
pub(crate) fn key_block(key: &[u8]) -> [u8; BLOCK]
    ensures { result ≡ key_block key.now }
{
    if key.len() > BLOCK {
        zero_filled(&Sha256.digest(key))
    } else {
        zero_filled(key)
    }
}

fn zero_filled(part: &[u8]) -> [u8; BLOCK]
    requires { length part.now ≤ 64 }
    ensures { result ≡ zero_filled part.now }
{
    let mut block = [0; BLOCK];
    block[..part.len()].copy_from_slice(part);
    block
}

/// Each byte of `block` XORed with `byte`.
pub(crate) fn xored(mut block: [u8; BLOCK], byte: u8) -> [u8; BLOCK]
    ensures { result ≡ xored byte block }
{
    // Kept: an array's `map` moves each byte through an `Option`, which was tried and makes the hash of a short text a third slower.
    for b in block.iter_mut() {
        *b ^= byte;
    }
    block
}
