ghost use Rattle.std.specs.Prelude.{◌≡◌};
ghost use Rattle.hmac.specs.Hmac.{hmac_sha256};
ghost use Rattle.hmac.specs.Pads.{Absorbed};

use super::pads::Pads;

/// A key of 32 bytes, and what its two blocks make of the hash, which is worked out once.
#[derive(Clone, Copy)]
pub(crate) struct Keyed {
    pub(crate) key: [u8; 32],
    pub(crate) pads: Pads,
    ghost absorbed: { ∥ Absorbed pads key ∥₁ },
}

impl Keyed {
    pub(crate) fn of(key: &[u8; 32]) -> Keyed
        ensures { result.key ≡ key.now }
    {
        Keyed {
            key: *key,
            pads: Pads::of(key),
        }
    }

    /// The HMAC of `text` under the key.
    pub(crate) fn mac(&self, text: &[u8]) -> [u8; 32]
        ensures { result ≡ hmac_sha256 self.now.key text.now }
    {
        self.pads.mac(text)
    }
}
