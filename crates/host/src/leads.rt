//! Which of two commits leads.

ghost use Rattle.std.specs.Prelude.{◌≡◌, length};
ghost use Rattle.version.specs.Version.{slots};
ghost use Rattle.rules.specs.Group.{slot as slot_of, Member};
ghost use Rattle.rules.specs.Taking.{leads as leads_over};

use version::Version;

// Whether the timestamps of `version` are nowhere below those of `other`, and somewhere above.
pub(crate) fn leads(version: &Version, other: &Version) -> bool
    requires { length (slots version.now) ≡ length (slots other.now) }
    ensures { result ≡ leads_over (slots version.now) (slots other.now) }
{
    let mut above = false;
    for site in 1..=version.size() {
        let new = timestamp_of(version, site);
        let old = timestamp_of(other, site);
        if new < old {
            return false;
        }
        if old < new {
            above = true;
        }
    }
    above
}

// The timestamp of `site` in a version of its group.
pub(crate) fn timestamp_of(version: &Version, site: u8) -> u32
    requires { Member (length (slots version.now)) site }
    ensures { result ≡ (slot_of (slots version.now) site).timestamp }
{
    version.timestamp(site).unwrap()
}
