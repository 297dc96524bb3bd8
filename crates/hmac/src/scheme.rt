//! HMAC-SHA-256 as a signature scheme.

ghost use Rattle.std.specs.Prelude.{◌≡◌};
ghost use Rattle.signature.specs.Calls.{Signs};
ghost use Rattle.signature.specs.Meaning.{Site};
ghost use Rattle.hmac.specs.Calls.{site_keys, Macs};
ghost use Rattle.hmac.specs.Keys.{mac, meaning};
ghost use Rattle.hmac.specs.Macs as MacLaws;
ghost use Rattle.std.proofs.Common.{rules};

use super::equal::equal;
use super::keyed::Keyed;
use signature::{MAX_SITES, MAX_TEXT, Refusal, Scheme, check_site, is_site};

/// How many keys a scheme has: one for each site.
pub const KEYS: usize = MAX_SITES as usize;

/// A scheme in which each site signs by HMAC-SHA-256 under a key of its own. Its signatures never run out.
#[derive(Drop)]
pub struct Hmac {
    sites: [Keyed; KEYS],
}

impl Hmac {
    /// The scheme of these keys, that of site 1 first.
    pub fn new(keys: &[[u8; 32]; KEYS]) -> Hmac
        ensures { site_keys result ≡ keys.now }
    {
        Hmac {
            sites: keys.each_ref().map(Keyed::of),
        }
    }

    // The HMAC of `text` under the key of `site`.
    fn mac(&self, site: u8, text: &[u8]) -> [u8; 32]
        requires { Site site }
        ensures { result ≡ mac (site_keys self.now) site text.now }
    {
        self.sites[usize::from(site) - 1].mac(text)
    }
}

impl Scheme for Hmac {
    const G: usize = 32;

    ghost G = { 32 };

    ghost means = { λ h. meaning (site_keys h) };

    ghost low = { Prim.search rules };

    ghost high = { Prim.search rules };

    ghost fits = { λ x s t g h. MacLaws.fits (site_keys x) s t g h };

    /// Beyond what every scheme promises: what is written is the HMAC of `text` under the key of `site`.
    fn sign(&mut self, site: u8, text: &[u8], out: &mut [u8]) -> Result<(), Refusal>
        ensures signs { Signs 32 (meaning (site_keys self.old)) (meaning (site_keys self.new)) site text.now out.old out.new result }
        ensures macs { Macs (site_keys self.old) site text.now out.old out.new result }
        ensures same { site_keys self.new ≡ site_keys self.old }
    {
        // never by `NoneLeft`, since signatures do not run out
        self.check_sign(site, text, out.len())?;
        out[..Self::G].copy_from_slice(&self.mac(site, text));
        Ok(())
    }

    fn left(&self, site: u8) -> Result<u32, Refusal> {
        check_site(site)?;
        Ok(u32::MAX)
    }

    fn check(&self, site: u8, text: &[u8], signature: &[u8]) -> bool {
        if !is_site(site) || text.len() > MAX_TEXT {
            return false;
        }
        equal(signature, &self.mac(site, text))
    }
}
