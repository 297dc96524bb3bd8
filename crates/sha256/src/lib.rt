//! SHA-256 (FIPS 180-4).
#![tactic(auto)]

ghost use Rattle.std.specs.Prelude.{◌≡◌, ◌++◌};
ghost use Rattle.std.proofs.Math.Path.{refl};
ghost use Rattle.sha256.specs.Published.{Published};
ghost use Rattle.sha256.specs.Sha256.{sha256, output};
ghost use Rattle.sha256.specs.Padded.{output_bytes};

use digest::{Digest, LEN};

mod compression;
mod hasher;
mod message;
mod midstate;
mod schedule;
mod words;

pub use hasher::Hasher;
pub use midstate::Midstate;

/// SHA-256 of a message that is at hand whole.
#[derive(Clone, Copy)]
pub struct Sha256;

impl Digest for Sha256 {
    ghost means = { sha256 };

    ghost len = { unfold sha256 output in λ bs. refl };

    ghost bytes = { unfold sha256 in λ bs k. output_bytes _ k };

    fn digest(&self, bytes: &[u8]) -> [u8; LEN] {
        message::conclude(message::START, bytes, bytes.len() as u64)
    }
}

/// The SHA-256 of `front` and then `back`, with no copy that joins them.
pub fn pair(front: &[u8], back: &[u8]) -> [u8; LEN]
    ensures { result ≡ sha256 (front.now ++ back.now) }
{
    digest::pair::<Hasher>(front, back)
}

/// Does nothing. Its contract is that the definition of SHA-256, which the other contracts cite, gives the published digests.
pub fn published()
    ensures { Published }
{}
