//! Whether a site signed what a reply says of it.

ghost use Rattle.std.specs.Prelude.{◌≡◌, ◌≤◌, length, Decides};
ghost use Rattle.message.specs.Texts.{text_of};
ghost use Rattle.signature.specs.Limits.{max_text};
ghost use Rattle.version.specs.Version.{slots};
ghost use Rattle.site.specs.Checking.{ZeroOrSigned};

use super::checker::Checker;
use super::versions::is_zero;
use message::Text;
use signature::{MAX_TEXT, Scheme};
use version::Version;

impl<S: Scheme, D> Checker<'_, S, D> {
    /// Whether a version counts no operation, or `site` signed it.
    pub(crate) fn version_signed(&self, site: u8, version: &Version, signature: &[u8]) -> bool
        ensures { Decides result (ZeroOrSigned (S.Scheme.means self.now.scheme.now) site (slots version.now) signature.now) }
    {
        is_zero(version) || self.signed(site, &Text::Commit(version), signature)
    }

    /// Whether `site` signed a text that it can sign.
    pub(crate) fn signed(&self, site: u8, text: &Text, signature: &[u8]) -> bool
        requires { length (text_of text.now) ≤ max_text }
        ensures { result ≡ (S.Scheme.means self.now.scheme.now).valid site (text_of text.now) signature.now }
    {
        let mut room = [0; MAX_TEXT];
        let size = text.write(&mut room).unwrap();
        self.scheme.check(site, &room[..size], signature)
    }
}
