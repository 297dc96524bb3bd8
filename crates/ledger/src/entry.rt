ghost use Rattle.std.specs.Prelude.{◌≤◌, length};
ghost use Rattle.signature.specs.Limits.{max_text};
ghost use Rattle.signature.specs.Meaning.{Site};

use arrayvec::ArrayVec;
use signature::MAX_TEXT;

/// An accepted signing: its site and its text.
#[derive(Drop)]
pub(crate) struct Entry {
    pub(crate) site: u8,
    pub(crate) text: ArrayVec<u8, MAX_TEXT>,
    ghost ranged: { Site site },
    ghost short: { length text.items ≤ max_text },
}
