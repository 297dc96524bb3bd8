//! A new site, and what a site shows of itself.

ghost use Rattle.std.specs.Prelude.{◌≡◌};
ghost use Rattle.rules.specs.Group.{own as own_of};
ghost use Rattle.version.specs.Version.{slots};
ghost use Rattle.site.specs.Calls.{News};
ghost use Rattle.site.specs.State.{state};

use super::state::Site;
use rules::{Phase, Refusal};
use signature::Scheme;
use version::Version;

impl Site {
    /// The site `number` of a group of `size` sites, which has seen and written nothing yet.
    pub fn new(size: u8, number: u8) -> Result<Site, Refusal>
        ensures { News size number result }
    {
        let Ok(version) = Version::zero(size) else {
            return Err(Refusal::OutOfRange);
        };
        if number < 1 || size < number {
            return Err(Refusal::OutOfRange);
        }
        Ok(Site {
            number,
            version,
            last: None,
            phase: Phase::Idle,
        })
    }

    /// Its number in the group.
    pub fn number(&self) -> u8
        ensures { result ≡ (state self.now).number }
    {
        self.number
    }

    /// What it has seen.
    pub fn version(&self) -> &Version
        ensures { slots result.now ≡ (state self.now).version }
    {
        &self.version
    }

    /// Where it stands between its calls.
    pub fn phase(&self) -> Phase
        ensures { result ≡ (state self.now).phase }
    {
        self.phase
    }

    // How many operations it has finished.
    pub(crate) fn own(&self) -> u32
        ensures { result ≡ own_of (state self.now) }
    {
        self.version.timestamp(self.number).unwrap()
    }

    // How many signatures it has left.
    pub(crate) fn left<S: Scheme>(&self, scheme: &S) -> u32
        ensures { result ≡ (S.Scheme.means scheme.now).left self.now.number }
    {
        scheme.left(self.number).unwrap()
    }
}
