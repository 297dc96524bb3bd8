//! Entries made and looked at.

ghost use Rattle.std.specs.Prelude.{◌≡◌, ◌≤◌, length};
ghost use Rattle.signature.specs.Limits.{max_text};
ghost use Rattle.signature.specs.Meaning.{Site};
ghost use Rattle.ledger.specs.Entries.{signing, holds};
ghost use Rattle.ledger.specs.Held.{held};

use super::entry::Entry;
use arrayvec::ArrayVec;

impl Entry {
    /// The entry of a signing.
    pub(crate) fn of(site: u8, text: &[u8]) -> Entry
        requires ranged { Site site }
        requires short { length text.now ≤ max_text }
        ensures { held result ≡ signing site text.now }
    {
        let mut entry = Entry {
            site,
            text: ArrayVec::new(),
        };
        entry.text.try_extend_from_slice(text).unwrap();
        entry
    }

    /// Whether this is an entry of `site` and `text`.
    pub(crate) fn holds(&self, site: u8, text: &[u8]) -> bool
        ensures { result ≡ holds site text.now (held self.now) }
    {
        self.site == site && self.text.as_slice() == text
    }
}
