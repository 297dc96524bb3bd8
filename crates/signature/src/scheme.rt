ghost use Rattle.std.specs.Prelude.{◌≡◌, ℕ, ◌≤◌, true, List};
ghost use Rattle.signature.specs.Limits.{max_signature};
ghost use Rattle.signature.specs.Meaning.{SchemeMeaning, Fits};
ghost use Rattle.signature.specs.Calls.{MaySign, Signs, Lefts, Checks};

use super::limits::MAX_TEXT;
use super::refusal::Refusal;

/// A kind of signature scheme.
///
/// Each call says what it answers and changes by the meaning alone, so that code written against it holds for every kind.
// Kept: a site and a text go together in three calls, but callers have them apart, and a struct would be made for one call each time.
pub trait Scheme {
    /// How many bytes a signature of this kind has, from 1 to `MAX_SIGNATURE`.
    const G: usize;

    /// The same number in contracts.
    ghost G: { ℕ };

    /// Which triples are valid, and how many signatures each site has left.
    ghost means: { Self → SchemeMeaning };

    /// Whether `site` can sign `text` into `room` bytes, or which check refuses that first.
    fn check_sign(&self, site: u8, text: &[u8], room: usize) -> Result<(), Refusal>
        ensures may_sign { MaySign G (means self.now) site text.now room result }
    {
        let left = self.left(site)?;
        if text.len() > MAX_TEXT {
            return Err(Refusal::TextTooLong);
        }
        if left == 0 {
            return Err(Refusal::NoneLeft);
        }
        if room < Self::G {
            return Err(Refusal::BufferTooShort);
        }
        Ok(())
    }

    /// Signs `text` for `site` and writes the signature to the front of `out`.
    fn sign(&mut self, site: u8, text: &[u8], out: &mut [u8]) -> Result<(), Refusal>
        ensures signs { Signs G (means self.old) (means self.new) site text.now out.old out.new result };

    /// How many signatures `site` has left.
    fn left(&self, site: u8) -> Result<u32, Refusal>
        ensures lefts { Lefts (means self.now) site result };

    /// Whether `signature` is valid for `site` and `text`.
    fn check(&self, site: u8, text: &[u8], signature: &[u8]) -> bool
        ensures checks { Checks (means self.now) site text.now signature.now result };

    ghost low: { 1 ≤ G };

    ghost high: { G ≤ max_signature };

    ghost fits: { (x : Self) (site : ℕ) (text signature : List ℕ) → (means x).valid site text signature ≡ true → Fits G site text signature };
}
