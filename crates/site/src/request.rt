//! What a site is asked to begin.

ghost use Rattle.std.specs.Prelude.{◌≡◌};
ghost use Rattle.std.specs.Option.{option_map};
ghost use Rattle.rules.specs.Begin.{code_of, register_of, value_of, value_size};
ghost use Rattle.site.specs.Submitting.{asked};

use message::Code;

/// To read a register, or to write a value to the site's own.
#[derive(Clone, Copy)]
pub(crate) enum Request<'a> {
    Read(u8),
    Write(&'a [u8]),
}

impl<'a> Request<'a> {
    pub(crate) fn code(self) -> Code
        ensures { result ≡ code_of (asked self.entry) }
    {
        match self {
            Request::Read(_) => Code::Read,
            Request::Write(_) => Code::Write,
        }
    }

    // The register of a request to the site `number`.
    pub(crate) fn register(self, number: u8) -> u8
        ensures { result ≡ register_of number (asked self.entry) }
    {
        match self {
            Request::Read(register) => register,
            Request::Write(_) => number,
        }
    }

    pub(crate) fn value(self) -> Option<&'a [u8]>
        ensures { option_map (λ v. v.now) result ≡ value_of (asked self.entry) }
    {
        match self {
            Request::Read(_) => None,
            Request::Write(value) => Some(value),
        }
    }

    // How many bytes the value has.
    pub(crate) fn size(self) -> usize
        ensures { result ≡ value_size (asked self.entry) }
    {
        match self {
            Request::Read(_) => 0,
            Request::Write(value) => value.len(),
        }
    }
}
