ghost use Rattle.std.specs.Prelude.{◌≡◌, ◌≤◌, length};
ghost use Rattle.version.specs.Shape.{digest_bytes};
ghost use Rattle.version.specs.Version.{slots};

use rules::Phase;
use version::Version;

/// A site of a group: its number, what it has seen, the digest of the value that it wrote last, and where it stands
/// between its calls.
///
/// Its number is one of its group's.
#[derive(Drop)]
pub struct Site {
    pub(crate) number: u8,
    pub(crate) version: Version,
    pub(crate) last: Option<[u8; 32]>,
    pub(crate) phase: Phase,
    ghost low: { 1 ≤ number },
    ghost high: { number ≤ length (slots version) },
    ghost wide: { length (digest_bytes last) ≡ 32 },
}
