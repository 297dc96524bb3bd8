//! The submits that are not committed yet.

ghost use Rattle.std.specs.Prelude.{◌≡◌, ℕ, ◌≤◌, map, length, drop};
ghost use Rattle.message.specs.Replied.{entered};
ghost use Rattle.rules.specs.Taking.{after_last};

use message::ListEntry;

// How many entries there are up to the last one of `site`.
pub(crate) fn through_last(list: &[ListEntry], site: u8) -> usize
    ensures within { result ≤ length list.now }
    ensures rest { (g : ℕ) → drop result (map (entered g) list.now) ≡ after_last site (map (entered g) list.now) }
{
    list.iter()
        .rposition(|entry| entry.site == site)
        .map_or(0, |last| last + 1)
}
