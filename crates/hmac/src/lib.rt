//! HMAC-SHA-256 (RFC 2104), alone and as a signature scheme.
#![tactic(auto)]

ghost use Rattle.std.specs.Prelude.{◌≡◌};
ghost use Rattle.hmac.specs.Hmac.{hmac_sha256};
ghost use Rattle.hmac.specs.Published.{Published};

use pads::Pads;

mod block;
mod equal;
mod keyed;
mod pads;
mod scheme;

pub use scheme::{Hmac, KEYS};

/// The HMAC-SHA-256 of `text` under a key of any length.
pub fn hmac_sha256(key: &[u8], text: &[u8]) -> [u8; 32]
    ensures { result ≡ hmac_sha256 key.now text.now }
{
    Pads::of(key).mac(text)
}

/// States that the definition of HMAC-SHA-256 that these contracts cite gives published values.
pub fn published()
    ensures { Published }
{}
