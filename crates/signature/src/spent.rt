ghost use Rattle.std.specs.Prelude.{false};
ghost use Rattle.std.proofs.Common.{rules};

use super::limits::check_site;
use super::refusal::Refusal;
use super::scheme::Scheme;

/// A scheme that has nothing left from birth and holds nothing valid.
///
/// With it a program sees what its caller does when no signature is left.
#[derive(Clone, Copy)]
pub struct Spent;

impl Scheme for Spent {
    const G: usize = 1;

    ghost G = { 1 };

    ghost means = { λ _. record { valid = λ _ _ _. false; left = λ _. 0 } };

    ghost low = { Prim.search rules };

    ghost high = { Prim.search rules };

    ghost fits = { Prim.search rules };

    fn sign(&mut self, site: u8, text: &[u8], out: &mut [u8]) -> Result<(), Refusal> {
        self.check_sign(site, text, out.len())
    }

    fn left(&self, site: u8) -> Result<u32, Refusal> {
        check_site(site)?;
        Ok(0)
    }

    fn check(&self, _site: u8, _text: &[u8], _signature: &[u8]) -> bool {
        false
    }
}
