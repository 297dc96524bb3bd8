/// How many sites a store has slots for. They are numbered from 1.
pub const MAX_SITES: u8 = 8;

/// The most bytes that a slot holds.
pub const MAX_SLOT: usize = 1024;

/// The two slots of a site.
#[derive(Clone, Copy, Debug, PartialEq, Eq)]
pub enum Slot {
    /// The slot for the site's value.
    Value,
    /// The slot for the site's version.
    Version,
}
