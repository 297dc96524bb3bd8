//! A message: its whole blocks, and the last ones with the padding (FIPS 180-4, sections 5.1.1 and 6.2).

ghost use Rattle.std.specs.Prelude.{◌≡◌, ◌%◌, ◌<◌, ◌++◌, length};
ghost use Rattle.digest.specs.Blocks.{whole};
ghost use Rattle.sha256.specs.Compression.{compressed};
ghost use Rattle.sha256.specs.Sha256.{output, padding};
ghost use Rattle.std.proofs.Common.{lit<};

use crate::Sha256;
use crate::compression::{State, compress};
use digest::{BlockHash, absorb};

/// The hash value that a message begins with (FIPS 180-4, section 5.3.3).
pub(crate) const START: State = State {
    a: 0x6a09e667,
    b: 0xbb67ae85,
    c: 0x3c6ef372,
    d: 0xa54ff53a,
    e: 0x510e527f,
    f: 0x9b05688c,
    g: 0x1f83d9ab,
    h: 0x5be0cd19,
};

impl BlockHash<64> for Sha256 {
    type State = State;

    ghost step = { compressed };

    ghost nonempty = { lit< tt };

    ghost fits = { lit< tt };

    fn compress(state: &mut State, block: &[u8; 64]) {
        *state = compress(*state, block);
    }
}

/// The hash value after `rest`, the last bytes of a message of `n` bytes, and the padding.
fn finish(s: State, rest: &[u8], n: u64) -> State
    requires short { length rest.now < 64 }
    requires last { n % 64 ≡ length rest.now }
    ensures { result ≡ whole compressed 64 s (rest.now ++ padding n) }
{
    let k = rest.len();
    let end = 64 * ((k + 8) / 64 + 1);
    let mut tail = [0u8; 128];
    tail[..k].copy_from_slice(rest);
    tail[k] = 0x80;
    tail[end - 8..end].copy_from_slice(&n.wrapping_mul(8).to_be_bytes());
    let mut state = s;
    absorb::<Sha256, 64>(&mut state, &tail[..end]);
    state
}

/// The bytes of a hash value.
fn output_bytes(s: State) -> [u8; 32]
    ensures { result ≡ output s }
{
    let words = [s.a, s.b, s.c, s.d, s.e, s.f, s.g, s.h].map(u32::to_be_bytes);
    let mut bytes = [0u8; 32];
    bytes.copy_from_slice(words.as_flattened());
    bytes
}

/// The digest of a message of `n` bytes that ends with `bytes`, where `s` is the hash value after the blocks before them.
pub(crate) fn conclude(s: State, bytes: &[u8], n: u64) -> [u8; 32]
    requires { n % 64 ≡ length bytes.now % 64 }
    ensures { result ≡ output (whole compressed 64 s (bytes.now ++ padding n)) }
{
    let mut state = s;
    let rest = absorb::<Sha256, 64>(&mut state, bytes);
    output_bytes(finish(state, rest, n))
}
