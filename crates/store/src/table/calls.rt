ghost use Rattle.std.specs.Prelude.{◌≡◌, ◌≤◌, length, IfOk};
ghost use Rattle.store.specs.Calls.{Site, Replaced};
ghost use Rattle.store.specs.Limits.{max_slot, max_left};
ghost use Rattle.store.specs.Meaning.{Empty};
ghost use Rattle.store.specs.Table.{table_meaning};
ghost use Rattle.store.specs.Slots.{table_sound};

use super::Table;
use super::pair::Pair;
use crate::check::{check_site, check_write};
use crate::fault::Fault;
use crate::slot::{MAX_SITES, Slot};
use crate::store::Store;
use octets::put;
use std::alloc::{AllocError, Global};

impl Table {
    /// A table whose slots are all empty.
    pub fn new(heap: Global) -> Result<Table, AllocError>
        ensures { IfOk result (λ t. Empty (table_meaning t)) }
    {
        let mut sites = Vec::new(heap);
        sites.resize_with(usize::from(MAX_SITES), Pair::empty)?;
        Ok(Table { sites })
    }

    // What a slot holds.
    fn held(&self, slot: Slot, site: u8) -> &[u8]
        requires { Site site }
        ensures { result.now ≡ (table_meaning self.now).slot slot site }
    {
        self.sites[usize::from(site) - 1].held(slot)
    }

    // Puts other bytes into a slot.
    fn refill(&mut self, slot: Slot, site: u8, bytes: &[u8])
        requires known { Site site }
        requires short { length bytes.now ≤ max_slot }
        ensures { Replaced (table_meaning self.old) slot site bytes.now (table_meaning self.new) }
    {
        self.sites[usize::from(site) - 1].put(slot, bytes);
    }
}

impl Store for Table {
    ghost means = { table_meaning };

    ghost sound = { λ x. table_sound x };

    fn read(&self, slot: Slot, site: u8, out: &mut [u8]) -> Result<usize, Fault> {
        check_site(site)?;
        put(out, 0, self.held(slot, site)).ok_or(Fault::BufferTooShort)
    }

    fn left(&self) -> u32
        ensures { result ≡ max_left }
    {
        u32::MAX
    }

    fn write(&mut self, slot: Slot, site: u8, bytes: &[u8]) -> Result<(), Fault> {
        check_write(site, bytes, self.left())?;
        self.refill(slot, site, bytes);
        Ok(())
    }
}
