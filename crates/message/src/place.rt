ghost use Rattle.std.specs.Prelude.{◌≡◌};
ghost use Rattle.message.specs.Places.{PartOf};

/// A part of lent bytes: where it begins, and how many bytes it has.
#[derive(Clone, Copy, Debug, PartialEq, Eq)]
pub struct Place {
    pub offset: usize,
    pub length: usize,
}

impl Place {
    /// The part of `bytes` at this place, or nothing where it does not lie within them.
    pub fn of<'a>(&self, bytes: &'a [u8]) -> &'a [u8]
        ensures { PartOf self.now bytes.now result.now }
    {
        let offset = self.offset;
        match offset.checked_add(self.length) {
            Some(end) if end <= bytes.len() => &bytes[offset..end],
            _ => &[],
        }
    }
}
