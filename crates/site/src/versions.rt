//! What a version says of a site, and how it stands to another.

ghost use Rattle.std.specs.Prelude.{◌≡◌, length, Decides};
ghost use Rattle.rules.specs.Group.{slot, zeros};
ghost use Rattle.version.specs.Order.{AtOrBelow};
ghost use Rattle.version.specs.Version.{slots};

use digest::LEN;
use version::Version;

/// How many operations of `site` a version counts: none of a site that its group does not have.
pub(crate) fn timestamp_of(version: &Version, site: u8) -> u32
    ensures { result ≡ (slot (slots version.now) site).timestamp }
{
    version.timestamp(site).unwrap_or(0)
}

/// The digest that a version has for `site`, none where it counts no operation.
pub(crate) fn digest_of(version: &Version, site: u8) -> Option<[u8; LEN]>
    ensures { result ≡ (slot (slots version.now) site).digest }
{
    version.digest(site).unwrap_or(None)
}

/// Whether a version counts no operation.
#[tactic(auto, using(version::proofs::OrderLaws::equal))]
pub(crate) fn is_zero(version: &Version) -> bool
    ensures { Decides result (slots version.now ≡ zeros (length (slots version.now))) }
{
    let zero = Version::zero(version.size()).unwrap();
    *version == zero
}

/// Whether a version is at or below another.
#[tactic(auto, using(version::proofs::OrderLaws::at_or_below))]
pub(crate) fn at_or_below(left: &Version, right: &Version) -> bool
    ensures { Decides result (AtOrBelow (slots left.now) (slots right.now)) }
{
    *left <= *right
}
