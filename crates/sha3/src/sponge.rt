//! The sponge of SHA3-256 (FIPS 202, sections 4 to 6): blocks of 136 bytes are mixed into the state, and the digest is read off it.

ghost use Rattle.std.specs.Prelude.{◌≡◌, ◌<◌, ◌++◌, length};
ghost use Rattle.std.proofs.Common.{lit<};
ghost use Rattle.digest.specs.Blocks.{whole};
ghost use Rattle.sha3.specs.Sha3.{padding, squeezed, step, xored};

use crate::Sha3_256;
use crate::permutation::{State, permute};
use digest::{BlockHash, absorb};

/// The number of bytes of a block.
pub(crate) const RATE: usize = 136;

/// The state with a block mixed into its first 17 lanes, the first byte of each the lowest.
fn mix(a: State, block: &[u8; RATE]) -> State
    ensures { result ≡ xored a block.now }
{
    let mut mixed = a;
    let (lanes, _) = block.as_chunks::<8>();
    for (i, lane) in lanes.iter().enumerate() {
        mixed[i] ^= u64::from_le_bytes(*lane);
    }
    mixed
}

impl BlockHash<136> for Sha3_256 {
    type State = State;

    ghost step = { step };

    ghost nonempty = { lit< tt };

    ghost fits = { lit< tt };

    fn compress(a: &mut State, block: &[u8; RATE]) {
        *a = permute(mix(*a, block));
    }
}

/// The last block: the bytes after the whole blocks, and the padding.
fn last_block(rest: &[u8]) -> [u8; RATE]
    requires { length rest.now < 136 }
    ensures { result ≡ rest.now ++ padding (length rest.now) }
{
    let mut block = [0u8; RATE];
    block[..rest.len()].copy_from_slice(rest);
    block[rest.len()] = 0x06;
    block[RATE - 1] ^= 0x80;
    block
}

/// The first 32 bytes of the state.
fn squeeze(a: State) -> [u8; 32]
    ensures { result ≡ squeezed a }
{
    let lanes = [a[0], a[1], a[2], a[3]].map(u64::to_le_bytes);
    let mut out = [0u8; 32];
    out.copy_from_slice(lanes.as_flattened());
    out
}

/// The digest of a message that ends with `bytes`, from the state after the blocks before them.
pub(crate) fn conclude(a: State, bytes: &[u8]) -> [u8; 32]
    ensures { result ≡ squeezed (whole step 136 a (bytes.now ++ padding (length bytes.now))) }
{
    let mut state = a;
    let rest = absorb::<Sha3_256, RATE>(&mut state, bytes);
    Sha3_256::compress(&mut state, &last_block(rest));
    squeeze(state)
}
