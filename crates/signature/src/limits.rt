//! The limits of every scheme. specs/Limits.antt has the same numbers for the contracts.

ghost use Rattle.std.specs.Prelude.{Decides};
ghost use Rattle.signature.specs.Calls.{ChecksSite};
ghost use Rattle.signature.specs.Meaning.{Site};

use super::refusal::Refusal;

/// Sites are numbered from 1 to this.
pub const MAX_SITES: u8 = 8;

/// The most bytes that a text to sign can have.
pub const MAX_TEXT: usize = 320;

/// The most bytes that a signature of any kind of scheme has.
pub const MAX_SIGNATURE: usize = 64;

/// Whether there is such a site.
pub fn is_site(site: u8) -> bool
    ensures { Decides result (Site site) }
{
    (1..=MAX_SITES).contains(&site)
}

/// Refuses a site that there is not.
pub fn check_site(site: u8) -> Result<(), Refusal>
    ensures { ChecksSite site result }
{
    if !is_site(site) {
        return Err(Refusal::OutOfRange);
    }
    Ok(())
}
