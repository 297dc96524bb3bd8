//! The digests as callers in C have them, for callers in Rust. The crate `capi_c` exports them under the same names.
#![tactic(auto)]

ghost use Rattle.std.specs.Prelude.{◌≡◌, List, [], ◌++◌, ℕ};
ghost use Rattle.sha256.specs.Sha256.{sha256};
ghost use Rattle.sha256.specs.Stream.{After, Took};
ghost use Rattle.sha3.specs.Sha3.{sha3_256};

use digest::{Digest, LEN};
use sha3::Sha3_256;
use sha256::{Hasher, Midstate, Sha256};

/// Writes the SHA-256 of `bytes` to `out`.
pub fn dilpako_sha256(bytes: &[u8], out: &mut [u8; LEN])
    ensures { out.new ≡ sha256 bytes.now }
{
    *out = Sha256.digest(bytes);
}

/// Writes the SHA-256 of `front` and then `back` to `out`.
pub fn dilpako_sha256_pair(front: &[u8], back: &[u8], out: &mut [u8; LEN])
    ensures { out.new ≡ sha256 (front.now ++ back.now) }
{
    *out = sha256::pair(front, back);
}

/// Makes `hasher` one that took nothing yet.
pub fn dilpako_sha256_start(hasher: &mut Hasher)
    ensures { Took hasher.new [] }
{
    *hasher = Hasher::new();
}

/// Has `hasher` take `piece` after what came before.
pub fn dilpako_sha256_update(hasher: &mut Hasher, piece: &[u8])
    ensures { (bs : List ℕ) → Took hasher.old bs → Took hasher.new (bs ++ piece.now) }
{
    hasher.update(piece);
}

/// Writes the SHA-256 of all that `hasher` took to `out`.
pub fn dilpako_sha256_finalize(hasher: &Hasher, out: &mut [u8; LEN])
    ensures { (bs : List ℕ) → Took hasher.now bs → out.new ≡ sha256 bs }
{
    *out = hasher.finalize();
}

/// Makes `midstate` the state after `block`.
pub fn dilpako_sha256_midstate(midstate: &mut Midstate, block: &[u8; 64])
    ensures { After midstate.new block.now }
{
    *midstate = Midstate::of(block);
}

/// Writes the SHA-256 of the block of `midstate` and then `rest` to `out`.
pub fn dilpako_sha256_after(midstate: &Midstate, rest: &[u8], out: &mut [u8; LEN])
    ensures { (block : List ℕ) → After midstate.now block → out.new ≡ sha256 (block ++ rest.now) }
{
    *out = midstate.digest(rest);
}

/// Writes the SHA3-256 of `bytes` to `out`.
pub fn dilpako_sha3_256(bytes: &[u8], out: &mut [u8; LEN])
    ensures { out.new ≡ sha3_256 bytes.now }
{
    *out = Sha3_256.digest(bytes);
}
