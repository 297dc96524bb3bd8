//! Where the parts of a reply stand in its bytes.

ghost use Rattle.std.specs.Prelude.{◌≡◌, ℕ, ◌*◌, length, map, take};
ghost use Rattle.message.specs.Placed.{Located, Passes, Stands};
ghost use Rattle.message.specs.Reply.{entry as entry_field, entries as entries_field, listed, reply as reply_field, response};
ghost use Rattle.message.specs.ReplyPlaced.{EntriesStand, PassesFound, ReplyPlaced};

use super::place::Place;
use super::places::{TIMESTAMP_SIZE, place, place_value, version_end};
use super::reply::{Entry, Found, Reply};
use version::MAX_SITES;

// How many bytes stand in front of a reply's version.
const REPLY_START: usize = 3;

// How many bytes stand in front of an entry's signature.
const ENTRY_START: usize = 3;

/// Where a reply to a read has the signatures and the value of what was found.
#[derive(Clone, Copy, Debug, PartialEq, Eq)]
pub struct FoundPlaces {
    pub commit_signature: Place,
    pub value: Option<Place>,
    pub data_signature: Place,
}

/// Where a reply has its signatures. Those of the entries have their places in the entries' order, and a place past the entries' number
/// says nothing; the proof signatures of all sites, one behind the other, have one place.
#[derive(Clone, Copy, Debug, PartialEq, Eq)]
pub struct ReplyPlaces {
    pub commit_signature: Place,
    pub entries: [Place; MAX_SITES as usize],
    pub proofs: Place,
    pub found: Option<FoundPlaces>,
}

// The place of the signature of an entry that begins at `offset`, and where it ends.
fn place_entry(entry: &Entry<'_>, offset: usize) -> (Place, usize)
    ensures { Passes (λ bs. Stands bs result.0 entry.now.signature.now) ((entry_field 0 0).put (listed entry.now)) offset result.1 }
{
    place(entry.signature, offset.saturating_add(ENTRY_START))
}

// The places of the signatures of the first `count` entries, with their number at `offset`, and where the last one ends.
// Kept: the entries come as an array, since the checker knows the length of an array that is a parameter, and not of one in a struct.
fn place_entries(
    items: &[Entry<'_>; MAX_SITES as usize],
    count: usize,
    offset: usize,
) -> ([Place; MAX_SITES as usize], usize)
    ensures { Passes (λ bs. EntriesStand bs result.0 (map listed (take count items.now))) ((entries_field 0 0).put (map listed (take count items.now))) offset result.1 }
{
    let none = Place {
        offset: 0,
        length: 0,
    };
    let mut places = [none; MAX_SITES as usize];
    let mut end = offset.saturating_add(1);
    let entries = &items[..count.min(items.len())];
    for (i, entry) in entries.iter().enumerate() {
        let (place, behind) = place_entry(entry, end);
        places[i] = place;
        end = behind;
    }
    (places, end)
}

// The places of the parts of what was found, which begins at `offset`.
fn place_found(found: &Option<Found<'_>>, offset: usize) -> Option<FoundPlaces>
    ensures { PassesFound found.now offset result }
{
    let Some(found) = found else {
        return None;
    };
    let end = version_end(&found.version, offset);
    let (commit_signature, end) = place(found.commit_signature, end);
    let (value, end) = place_value(found.value, end.saturating_add(TIMESTAMP_SIZE));
    let (data_signature, _) = place(found.data_signature, end);
    Some(FoundPlaces {
        commit_signature,
        value,
        data_signature,
    })
}

impl Reply<'_> {
    /// Where its parts stand in the bytes that it was read from. The places can be kept when the bytes are handed on.
    pub fn places(&self) -> ReplyPlaces
        ensures { (n g : ℕ) → length self.now.proofs.now ≡ g * n → Located (reply_field n g) (response g n self.now) (ReplyPlaced n g) result }
    {
        let end = version_end(&self.version, REPLY_START);
        let (commit_signature, end) = place(self.commit_signature, end);
        let (entries, end) = place_entries(&self.entries.items, self.entries.count, end);
        let (proofs, end) = place(self.proofs, end);
        let found = place_found(&self.found, end);
        ReplyPlaces {
            commit_signature,
            entries,
            proofs,
            found,
        }
    }
}
