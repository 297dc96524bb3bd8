//! The ledger as a signature scheme.

ghost use Rattle.signature.specs.Calls.{Signs};
ghost use Rattle.ledger.specs.Calls.{entries, Enters};
ghost use Rattle.ledger.specs.Entries.{meaning};
ghost use Rattle.ledger.specs.Named;
ghost use Rattle.std.proofs.Common.{rules};

use super::entry::Entry;
use super::ledger::Ledger;
use super::serial::MAX_ENTRIES;
use signature::{Refusal, Scheme, check_site};

impl Scheme for Ledger {
    const G: usize = 8;

    ghost G = { 8 };

    ghost means = { λ l. meaning (entries l) };

    ghost low = { Prim.search rules };

    ghost high = { Prim.search rules };

    ghost fits = { λ x s t g h. Named.fits x.entries.items s t g h };

    /// Beyond what every scheme promises: the signing becomes the last entry, and its serial number is what is written.
    fn sign(&mut self, site: u8, text: &[u8], out: &mut [u8]) -> Result<(), Refusal>
        ensures signs { Signs 8 (meaning (entries self.old)) (meaning (entries self.new)) site text.now out.old out.new result }
        ensures enters { Enters (entries self.old) (entries self.new) site text.now out.old out.new result }
    {
        self.check_sign(site, text, out.len())?;
        let serial = self.entries.len() as u64 + 1;
        self.entries.push_reserved(Entry::of(site, text));
        out[..Self::G].copy_from_slice(&serial.to_be_bytes());
        Ok(())
    }

    fn left(&self, site: u8) -> Result<u32, Refusal> {
        check_site(site)?;
        Ok((MAX_ENTRIES - self.count(site)) as u32)
    }

    fn check(&self, site: u8, text: &[u8], signature: &[u8]) -> bool {
        self.named(signature)
            .is_some_and(|entry| entry.holds(site, text))
    }
}
