//! How two versions stand to each other.

ghost use Rattle.std.specs.Prelude.{◌≡◌};
ghost use Rattle.version.specs.Calls.{Compares};
ghost use Rattle.version.specs.Compared.{both_below, both_ways, compared};
ghost use Rattle.version.specs.Examples.{Examples};
ghost use Rattle.version.specs.Order.{PartialOrder, AtOrBelow, Stands, order_of};
ghost use Rattle.version.specs.Version.{OneForm, slots};

use super::order::Order;
use super::refusal::Refusal;
use super::seen::Seen;
use super::version::Version;
use std::cmp::Ordering;

impl Version {
    /// How this version stands to `other`, a version of the same group size.
    ///
    /// A version is at or below another when none of its timestamps is greater and, wherever two timestamps are equal,
    /// the digests are equal too.
    pub fn compare(&self, other: &Version) -> Result<Order, Refusal>
        ensures answer { Compares self.now other.now result }
        ensures lawful { PartialOrder AtOrBelow }
        ensures one_form { OneForm }
        ensures examples { Examples }
    {
        if self.size != other.size {
            return Err(Refusal::OutOfRange);
        }
        Ok(Order::from(self.partial_cmp(other)))
    }
}

impl PartialOrd for Version {
    ghost use Rattle.version.specs.ComparedLaws.{version_order};

    ghost partial_cmp = { compared };

    ghost laws = { version_order };

    /// `None` where neither is at or below the other, as where the groups are of different sizes.
    fn partial_cmp(&self, other: &Version) -> Option<Ordering>
        ensures value { result ≡ compared self.now other.now }
        ensures stands { Stands AtOrBelow (slots self.now) (slots other.now) (order_of result) }
    {
        if self.size != other.size {
            return None;
        }
        let size = self.size as usize;
        let (below, above) = both_below(&self.seen[..size], &other.seen[..size]);
        both_ways(below, above)
    }
}

// Whether each slot on the left is at or below the one on the right, and each on the right at or below the one on the
// left. Each place is looked at once.
fn both_below(left: &[Option<Seen>], right: &[Option<Seen>]) -> (bool, bool)
    ensures { result ≡ both_below left.now right.now }
{
    left.iter().zip(right).fold(
        (true, true),
        |(below, above), (a, b)| match a.partial_cmp(b) {
            Some(Ordering::Less) => (below, false),
            Some(Ordering::Equal) => (below, above),
            Some(Ordering::Greater) => (false, above),
            None => (false, false),
        },
    )
}

// The answer, where it is known whether each is at or below the other.
fn both_ways(below: bool, above: bool) -> Option<Ordering>
    ensures { result ≡ both_ways below above }
{
    match (below, above) {
        (true, true) => Some(Ordering::Equal),
        (true, false) => Some(Ordering::Less),
        (false, true) => Some(Ordering::Greater),
        (false, false) => None,
    }
}
