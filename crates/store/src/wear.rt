//! An allowance of rewrites over any store.

ghost use Rattle.std.specs.Prelude.{◌≡◌, min};
ghost use Rattle.store.specs.Calls.{Writes};
ghost use Rattle.store.specs.Wear.{worn, Wears};
ghost use Rattle.std.proofs.Common.{rules};

use crate::check::check_write;
use crate::fault::Fault;
use crate::slot::Slot;
use crate::store::Store;

/// A store that takes only so many more writes, whatever the store below has left.
///
/// It is itself a store, so that allowances can stand on each other: the smallest binds.
#[derive(Drop)]
pub struct Wear<T> {
    below: T,
    allowance: u32,
}

impl<T> Wear<T> {
    /// Lets at most `allowance` writes through to `below`.
    pub fn new(below: T, allowance: u32) -> Wear<T>
        ensures below { result.below ≡ below }
        ensures allowance { result.allowance ≡ allowance }
    {
        Wear { below, allowance }
    }

    /// The store below, as the writes have left it.
    pub fn into_inner(self) -> T
        ensures { result ≡ self.below }
    {
        self.below
    }
}

impl<T: Store> Store for Wear<T> {
    ghost means = { worn T.Store.means };

    ghost sound = { Prim.search rules };

    fn read(&self, slot: Slot, site: u8, out: &mut [u8]) -> Result<usize, Fault> {
        self.below.read(slot, site, out)
    }

    fn left(&self) -> u32
        ensures { result ≡ min self.now.allowance (T.Store.means self.now.below).left }
    {
        self.allowance.min(self.below.left())
    }

    fn write(&mut self, slot: Slot, site: u8, bytes: &[u8]) -> Result<(), Fault>
        ensures writes { Writes (worn T.Store.means self.old) slot site bytes.now (worn T.Store.means self.new) result }
        ensures wears { Wears T.Store.means self.old slot site bytes.now self.new result }
    {
        check_write(site, bytes, self.left())?;
        self.below.write(slot, site, bytes)?;
        self.allowance -= 1;
        Ok(())
    }
}
