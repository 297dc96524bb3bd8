ghost use Rattle.std.specs.Prelude.{◌≡◌, Some};
ghost use Rattle.version.specs.Order.{order_of, word_of};

use std::cmp::Ordering;
use std::fmt;

/// How one version stands to another.
// Kept: an `Option<Ordering>` says the same, but a fork, which callers look for, would have no name in it.
#[derive(Clone, Copy, Debug, PartialEq, Eq)]
pub enum Order {
    /// The two are the same version.
    Equal,
    /// The first is at or below the second, and they differ.
    Below,
    /// The second is at or below the first, and they differ.
    Above,
    /// Neither is at or below the other: two sites were shown different pasts.
    Apart,
}

impl From<Option<Ordering>> for Order {
    ghost from_gives = { λ order answer. answer ≡ order_of order };

    /// The answer that a comparison of two versions stands for.
    fn from(order: Option<Ordering>) -> Order {
        match order {
            Some(Ordering::Equal) => Order::Equal,
            Some(Ordering::Less) => Order::Below,
            Some(Ordering::Greater) => Order::Above,
            None => Order::Apart,
        }
    }
}

impl fmt::Display for Order {
    ghost output = { λ order. Some (word_of order) };

    fn fmt<W: fmt::Write>(&self, f: &mut fmt::Formatter<W>) -> fmt::Result {
        f.write_str(match self {
            Order::Equal => "equal",
            Order::Below => "below",
            Order::Above => "above",
            Order::Apart => "apart",
        })
    }
}
