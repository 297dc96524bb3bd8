ghost use Rattle.std.specs.Prelude.{◌≡◌, ℕ, ◌<◌, ◌≤◌, length};

use std::cmp::Ordering;

/// What a version has seen of one site: how many of its operations, at least one, and the digest of the view history up
/// to the last of them.
#[derive(Clone, Copy, Debug, PartialEq, Eq)]
pub(crate) struct Seen {
    pub(crate) timestamp: u32,
    pub(crate) digest: [u8; 32],
    ghost counted: { 1 ≤ timestamp },
    ghost small: { timestamp < 4294967296 },
    ghost wide: { length digest ≡ 32 },
}

impl Seen {
    pub(crate) fn timestamp(self) -> u32
        ensures { result ≡ self.timestamp }
    {
        self.timestamp
    }

    pub(crate) fn digest(self) -> [u8; 32]
        ensures { result ≡ self.digest }
    {
        self.digest
    }
}

impl PartialOrd for Seen {
    ghost use Rattle.version.specs.Compared.{seen_cmp};
    ghost use Rattle.std.proofs.Common.{rules};

    ghost partial_cmp = { seen_cmp };

    ghost laws = { Prim.search rules };

    /// Fewer operations are below more; of equally many, none but the same are comparable.
    fn partial_cmp(&self, other: &Seen) -> Option<Ordering> {
        match self.timestamp.cmp(&other.timestamp) {
            Ordering::Equal if self.digest != other.digest => None,
            order => Some(order),
        }
    }
}
