ghost use Rattle.std.specs.Prelude.{◌≤◌};
ghost use Rattle.arrayvec.specs.ArrayVec.{array_vec_len};
ghost use Rattle.version.specs.Shape.{Size};
ghost use Rattle.rules.specs.Group.{Member};
ghost use Rattle.host.specs.Shape.{Signature};

use arrayvec::ArrayVec;
use message::ListEntry;

/// The host of a register group, over any store.
///
/// It keeps the site whose commit leads, and the submits that are not below that commit, oldest first. Everything else is in
/// the store.
#[derive(Drop)]
pub struct Host<T> {
    pub(crate) size: u8,
    // how many bytes a signature has
    pub(crate) signature: usize,
    pub(crate) committer: u8,
    // at most one of each site
    pub(crate) list: ArrayVec<ListEntry, 8>,
    pub(crate) store: T,
    ghost sized: { Size size },
    ghost signed: { Signature signature },
    ghost ranged: { Member size committer },
    ghost few: { array_vec_len list ≤ size },
}
