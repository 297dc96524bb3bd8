//! The digests that a line can ask for, as functions on values.

ghost use Rattle.std.specs.Prelude.{◌≡◌, ◌++◌, length, MatchOption, ◌≢◌};
ghost use Rattle.sha256.specs.Sha256.{sha256};
ghost use Rattle.vectors.specs.Hashes.{times};

use digest::{LEN, Streaming};
use sha256::Midstate;

/// The digest of `count` times `bytes`, taken piece by piece.
pub fn repeated<H: Streaming>(count: u64, bytes: &[u8]) -> [u8; LEN]
    ensures { result ≡ H.Of.means (times count bytes.now) }
{
    let mut hasher = H::new();
    for _ in 0..count {
        hasher.update(bytes);
    }
    hasher.finalize()
}

/// The SHA-256 of a block and then `rest`, by the state after the block; `None` where the block has not 64 bytes.
pub fn by_midstate(block: &[u8], rest: &[u8]) -> Option<[u8; LEN]>
    ensures { MatchOption result (length block.now ≢ 64) (λ d. d ≡ sha256 (block.now ++ rest.now)) }
{
    let block = <&[u8; 64]>::try_from(block).ok()?;
    Some(Midstate::of(block).digest(rest))
}
