//! Writing the commit of an operation that was just finished.

ghost use Rattle.std.specs.Prelude.{◌+◌, ◌*◌, ◌≤◌, length};
ghost use Rattle.rules.specs.Group.{slot};
ghost use Rattle.version.specs.Version.{slots};
ghost use Rattle.site.specs.Finishing.{Commits, Told};

use super::sign::{place, sign};
use super::state::Site;
use super::versions::digest_of;
use message::{Text, commit_start};
use signature::Scheme;

impl Site {
    // Signs the version and its own digest, and writes the commit to the front of `out`, where there is room for it; answers how
    // many bytes it took.
    pub(crate) fn write_commit<S: Scheme>(&self, scheme: &mut S, out: &mut [u8]) -> usize
        requires told { Told (slot (slots self.now.version) self.now.number).digest }
        requires two { 2 ≤ (S.Scheme.means scheme.old).left self.now.number }
        requires room { 2 + 36 * length (slots self.now.version) + 2 * S.Scheme.G ≤ length out.old }
        ensures { Commits S.Scheme.G (S.Scheme.means scheme.old) (S.Scheme.means scheme.new) self.now.number (slots self.now.version) out.old out.new result }
    {
        let history = digest_of(&self.version, self.number).unwrap();
        let head = commit_start(self.number);
        let at = place(out, 0, &head);
        let at = self.version.put(out, at).unwrap();
        let at = sign(scheme, self.number, &Text::Commit(&self.version), out, at);
        sign(scheme, self.number, &Text::Proof(&history), out, at)
    }
}
