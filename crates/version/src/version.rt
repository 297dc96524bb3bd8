ghost use Rattle.std.specs.Prelude.{◌≡◌, ℕ, length};
ghost use Rattle.version.specs.Shape.{Size, Bounded};

use super::seen::Seen;

/// What a site has seen: for each site of the group how many of its operations, and the digest of the view history
/// up to the last of them.
///
/// A site of which nothing has been seen has timestamp 0 and no digest, and there is no other way to say so: the type
/// keeps that a digest is there exactly above timestamp 0, and that nothing stands past the group's size.
#[derive(Clone, Copy, Debug, PartialEq, Eq)]
pub struct Version {
    // Kept: a list with its own length is not `Copy`, which callers rely on, or stands on the heap.
    pub(crate) size: u8,
    pub(crate) seen: [Option<Seen>; 8],
    ghost sized: { Size size },
    ghost eight: { length seen ≡ 8 },
    ghost bounded: { Bounded size seen },
}
