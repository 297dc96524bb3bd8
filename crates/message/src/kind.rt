ghost use Rattle.std.specs.Prelude.{◌≡◌};
ghost use Rattle.message.specs.Kind.{kind_number};

/// What a message is, by its first byte.
#[derive(Clone, Copy, Debug, PartialEq, Eq)]
pub(crate) enum Kind {
    Submit = 1,
    Reply = 2,
    Commit = 3,
}

impl Kind {
    /// The byte that stands for it.
    pub(crate) fn number(self) -> u8
        ensures { result ≡ kind_number self }
    {
        self as u8
    }
}
