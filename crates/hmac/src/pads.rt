//! A key whose two blocks are absorbed.

ghost use Rattle.std.specs.Prelude.{◌≡◌, ℕ, List};
ghost use Rattle.hmac.specs.Hmac.{hmac_sha256};
ghost use Rattle.hmac.specs.Pads.{Absorbed};

use super::block::{key_block, xored};
use sha256::Midstate;

/// The bytes that the inner and the outer block are XORed with.
const IPAD: u8 = 0x36;

const OPAD: u8 = 0x5c;

/// The states of the inner and of the outer hash after the block of a key.
#[derive(Clone, Copy)]
pub(crate) struct Pads {
    inner: Midstate,
    outer: Midstate,
}

impl Pads {
    /// Absorbs the two blocks of a key of any length.
    pub(crate) fn of(key: &[u8]) -> Pads
        ensures { Absorbed result key.now }
    {
        let block = key_block(key);
        let inner = Midstate::of(&xored(block, IPAD));
        let outer = Midstate::of(&xored(block, OPAD));
        Pads { inner, outer }
    }

    /// The HMAC of `text` under the key.
    pub(crate) fn mac(&self, text: &[u8]) -> [u8; 32]
        ensures { (key : List ℕ) → Absorbed self.now key → result ≡ hmac_sha256 key text.now }
    {
        self.outer.digest(&self.inner.digest(text))
    }
}
