//! Writing the submit of an operation that was just begun.

ghost use Rattle.std.specs.Prelude.{◌+◌, ◌*◌, ◌≤◌, length};
ghost use Rattle.rules.specs.Begin.{Short, value_size};
ghost use Rattle.site.specs.Submitting.{Submits, asked};

use super::request::Request;
use super::sign::{place, sign};
use super::state::Site;
use message::{Text, submit_start, value_parts};
use signature::Scheme;

impl Site {
    // Writes the submit to the front of `out`, where there is room for it, and answers how many bytes it took.
    pub(crate) fn write_submit<S: Scheme>(
        &self,
        scheme: &mut S,
        request: Request,
        timestamp: u32,
        out: &mut [u8],
    ) -> usize
        requires short { Short (asked request) }
        requires two { 2 ≤ (S.Scheme.means scheme.old).left self.now.number }
        requires room { 10 + 2 * S.Scheme.G + value_size (asked request) ≤ length out.old }
        ensures { Submits S.Scheme.G (S.Scheme.means scheme.old) (S.Scheme.means scheme.new) self.now.number (asked request.entry) timestamp self.now.last out.old out.new result }
    {
        let (size, value) = value_parts(request.value()).unwrap();
        let code = request.code();
        let register = request.register(self.number);
        let head = submit_start(self.number, code, register, timestamp);
        let submit = Text::Submit(code, register, timestamp);
        let data = Text::Data(timestamp, self.last.as_ref());
        let at = place(out, 0, &head);
        let at = sign(scheme, self.number, &submit, out, at);
        let at = place(out, at, &size);
        let at = place(out, at, value);
        sign(scheme, self.number, &data, out, at)
    }
}
