//! The comparison itself, on values.

ghost use Rattle.std.specs.Prelude.{vec_items};
ghost use Rattle.forkcheck.specs.Check.{Checks};
ghost use Rattle.version.specs.Calls.{Reads};

use version::{Order, Refusal, Version};

/// Bytes that are to be a version of a group of `size` sites.
#[derive(Drop)]
pub struct Saved {
    pub size: u8,
    pub bytes: Vec<u8>,
}

impl Saved {
    fn version(&self) -> Result<Version, Refusal>
        ensures { Reads self.now.size (vec_items self.now.bytes) result }
    {
        Version::read(self.size, &self.bytes)
    }
}

/// How the version that `left` holds stands to the one that `right` holds.
pub fn check(left: &Saved, right: &Saved) -> Result<Order, Refusal>
    ensures { Checks left.now.size (vec_items left.now.bytes) right.now.size (vec_items right.now.bytes) result }
{
    let left = left.version()?;
    let right = right.version()?;
    left.compare(&right)
}
