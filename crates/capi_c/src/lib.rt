//! The digests for callers in C, by the header include/dilpako.h. A `&[u8]` is passed as a pointer and then a length.
// Kept: each function of `capi` once more, since the C interface exports names, and a static library is no dependency of a crate.
#![tactic(auto)]

ghost use Rattle.std.specs.Prelude.{◌≡◌, List, [], ◌++◌, ℕ};
ghost use Rattle.sha256.specs.Sha256.{sha256};
ghost use Rattle.sha256.specs.Stream.{After, Took};
ghost use Rattle.sha3.specs.Sha3.{sha3_256};

use digest::{Digest, LEN};
use sha3::Sha3_256;
use sha256::{Hasher, Midstate, Sha256};

/// Writes the SHA-256 of `bytes` to `out`.
#[unsafe(no_mangle)]
pub extern "C" fn dilpako_sha256(bytes: &[u8], out: &mut [u8; LEN])
    ensures { out.new ≡ sha256 bytes.now }
{
    capi::dilpako_sha256(bytes, out);
}

/// Writes the SHA-256 of `front` and then `back` to `out`.
#[unsafe(no_mangle)]
pub extern "C" fn dilpako_sha256_pair(front: &[u8], back: &[u8], out: &mut [u8; LEN])
    ensures { out.new ≡ sha256 (front.now ++ back.now) }
{
    capi::dilpako_sha256_pair(front, back, out);
}

/// Makes `hasher` one that took nothing yet.
#[unsafe(no_mangle)]
pub extern "C" fn dilpako_sha256_start(hasher: &mut Hasher)
    ensures { Took hasher.new [] }
{
    capi::dilpako_sha256_start(hasher);
}

/// Has `hasher` take `piece` after what came before.
#[unsafe(no_mangle)]
pub extern "C" fn dilpako_sha256_update(hasher: &mut Hasher, piece: &[u8])
    ensures { (bs : List ℕ) → Took hasher.old bs → Took hasher.new (bs ++ piece.now) }
{
    capi::dilpako_sha256_update(hasher, piece);
}

/// Writes the SHA-256 of all that `hasher` took to `out`.
#[unsafe(no_mangle)]
pub extern "C" fn dilpako_sha256_finalize(hasher: &Hasher, out: &mut [u8; LEN])
    ensures { (bs : List ℕ) → Took hasher.now bs → out.new ≡ sha256 bs }
{
    capi::dilpako_sha256_finalize(hasher, out);
}

/// Makes `midstate` the state after `block`.
#[unsafe(no_mangle)]
pub extern "C" fn dilpako_sha256_midstate(midstate: &mut Midstate, block: &[u8; 64])
    ensures { After midstate.new block.now }
{
    capi::dilpako_sha256_midstate(midstate, block);
}

/// Writes the SHA-256 of the block of `midstate` and then `rest` to `out`.
#[unsafe(no_mangle)]
pub extern "C" fn dilpako_sha256_after(midstate: &Midstate, rest: &[u8], out: &mut [u8; LEN])
    ensures { (block : List ℕ) → After midstate.now block → out.new ≡ sha256 (block ++ rest.now) }
{
    capi::dilpako_sha256_after(midstate, rest, out);
}

/// Writes the SHA3-256 of `bytes` to `out`.
#[unsafe(no_mangle)]
pub extern "C" fn dilpako_sha3_256(bytes: &[u8], out: &mut [u8; LEN])
    ensures { out.new ≡ sha3_256 bytes.now }
{
    capi::dilpako_sha3_256(bytes, out);
}
