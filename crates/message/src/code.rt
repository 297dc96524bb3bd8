ghost use Rattle.std.specs.Prelude.{◌≡◌};
ghost use Rattle.message.specs.Code.{Decodes, code_number};

/// What an operation does.
#[derive(Clone, Copy, Debug, Default, PartialEq, Eq)]
pub enum Code {
    /// Reads a register, its own or another site's.
    #[default]
    Read = 1,
    /// Writes the site's own register.
    Write = 2,
}

/// A byte that stands for no code.
#[derive(Clone, Copy, Debug, PartialEq, Eq)]
pub struct UnknownCode(pub u8);

impl Code {
    /// The byte that stands for it.
    pub fn number(self) -> u8
        ensures { result ≡ code_number self }
    {
        self as u8
    }
}

impl TryFrom<u8> for Code {
    type Error = UnknownCode;

    ghost try_from_gives = { Decodes };

    fn try_from(byte: u8) -> Result<Code, UnknownCode> {
        match byte {
            1 => Ok(Code::Read),
            2 => Ok(Code::Write),
            _ => Err(UnknownCode(byte)),
        }
    }
}
