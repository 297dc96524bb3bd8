//! SHA3-256 (FIPS 202): of bytes in one slice, in two, or in pieces one after the other.
#![tactic(auto)]

ghost use Rattle.std.specs.Prelude.{◌≡◌, ◌++◌};
ghost use Rattle.std.proofs.Math.Path.{refl};
ghost use Rattle.sha3.specs.Published.{Published};
ghost use Rattle.sha3.specs.Sha3.{sha3_256, squeezed};
ghost use Rattle.sha3.specs.Lanes.{squeezed_bytes};

use digest::{Digest, LEN};

mod hasher;
mod permutation;
mod sponge;

pub use hasher::Hasher;

/// SHA3-256 of a message that is at hand whole.
#[derive(Clone, Copy)]
pub struct Sha3_256;

impl Digest for Sha3_256 {
    ghost means = { sha3_256 };

    ghost len = { unfold sha3_256 squeezed in λ bs. refl };

    ghost bytes = { unfold sha3_256 in λ bs. squeezed_bytes _ };

    fn digest(&self, bytes: &[u8]) -> [u8; LEN] {
        sponge::conclude([0; 25], bytes)
    }
}

/// The SHA3-256 of `front` and then `back`, with no copy that joins them.
pub fn pair(front: &[u8], back: &[u8]) -> [u8; LEN]
    ensures { result ≡ sha3_256 (front.now ++ back.now) }
{
    digest::pair::<Hasher>(front, back)
}

/// States that the definition of SHA3-256 that these contracts cite gives the published digests.
pub fn published()
    ensures { Published }
{}
