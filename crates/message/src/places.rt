//! Where the parts of a message stand in its bytes: numbers, which can be kept when the bytes are handed on.

ghost use Rattle.std.specs.Prelude.{ℕ};
ghost use Rattle.std.specs.Option.{option_map};
ghost use Rattle.version.specs.Calls.{bytes_of};
ghost use Rattle.message.specs.Commit.{commit as commit_field, committed};
ghost use Rattle.message.specs.Fields.{value as value_field};
ghost use Rattle.message.specs.Placed.{Located, Passes, StandsTo, ValueStandsTo, SubmitPlaced, CommitPlaced, ValueSlotPlaced, VersionSlotPlaced};
ghost use Rattle.message.specs.Slots.{value_slot, version_slot, value_stored, version_stored};
ghost use Rattle.message.specs.Submit.{submit as submit_field, submitted};

use super::commit::Commit;
use super::place::Place;
use super::slot::{ValueSlot, VersionSlot};
use super::submit::Submit;
use version::Version;

// How many bytes stand in front of a submit's first signature.
const SUBMIT_START: usize = 8;

// How many bytes stand in front of a commit's version.
const COMMIT_START: usize = 2;

// How many bytes a timestamp has, which also begins a value slot.
pub(crate) const TIMESTAMP_SIZE: usize = 4;

/// Where a submit has its signatures and its value.
#[derive(Clone, Copy, Debug, PartialEq, Eq)]
pub struct SubmitPlaces {
    pub submit_signature: Place,
    pub value: Option<Place>,
    pub data_signature: Place,
}

/// Where a commit has its signatures.
#[derive(Clone, Copy, Debug, PartialEq, Eq)]
pub struct CommitPlaces {
    pub commit_signature: Place,
    pub proof_signature: Place,
}

/// Where a value slot has its value and its signature.
#[derive(Clone, Copy, Debug, PartialEq, Eq)]
pub struct ValueSlotPlaces {
    pub value: Option<Place>,
    pub data_signature: Place,
}

/// Where a version slot has its signatures.
#[derive(Clone, Copy, Debug, PartialEq, Eq)]
pub struct VersionSlotPlaces {
    pub commit_signature: Place,
    pub proof_signature: Place,
}

// The place of a part that begins at `offset`, and where it ends.
pub(crate) fn place(part: &[u8], offset: usize) -> (Place, usize)
    ensures { Passes (λ bs. StandsTo result.1 bs result.0 part.now) part.now offset result.1 }
{
    let length = part.len();
    (Place { offset, length }, offset.saturating_add(length))
}

// The place of the bytes of a value whose size stands at `offset`, and where they end.
pub(crate) fn place_value(value: Option<&[u8]>, offset: usize) -> (Option<Place>, usize)
    ensures { Passes (λ bs. ValueStandsTo result.1 bs result.0 (option_map (λ v. v.now) value.entry)) (value_field.put (option_map (λ v. v.now) value.entry)) offset result.1 }
{
    let start = offset.saturating_add(2);
    match value {
        None => (None, start),
        Some(bytes) => {
            let (place, end) = place(bytes, start);
            (Some(place), end)
        }
    }
}

// Where a version ends that begins at `offset`.
pub(crate) fn version_end(version: &Version, offset: usize) -> usize
    ensures { Passes (λ _. Unit {0}) (bytes_of version.now) offset result }
{
    offset.saturating_add(36 * version.size() as usize)
}

impl Submit<'_> {
    /// Where its parts stand in the bytes that it was read from, or that it is written as.
    /// The places can be kept when the bytes are handed on.
    pub fn places(&self) -> SubmitPlaces
        ensures { (n g : ℕ) → Located (submit_field n g) (submitted self.now) SubmitPlaced result }
    {
        let (submit_signature, end) = place(self.submit_signature, SUBMIT_START);
        let (value, end) = place_value(self.value, end);
        let (data_signature, _) = place(self.data_signature, end);
        SubmitPlaces {
            submit_signature,
            value,
            data_signature,
        }
    }
}

impl Commit<'_> {
    /// Where its parts stand in the bytes that it was read from, or that it is written as.
    /// The places can be kept when the bytes are handed on.
    pub fn places(&self) -> CommitPlaces
        ensures { (n g : ℕ) → Located (commit_field n g) (committed self.now) CommitPlaced result }
    {
        let end = version_end(&self.version, COMMIT_START);
        let (commit_signature, end) = place(self.commit_signature, end);
        let (proof_signature, _) = place(self.proof_signature, end);
        CommitPlaces {
            commit_signature,
            proof_signature,
        }
    }
}

impl ValueSlot<'_> {
    /// Where its parts stand in the bytes that it was read from, or that it is written as.
    /// The places can be kept when the bytes are handed on.
    pub fn places(&self) -> ValueSlotPlaces
        ensures { (g : ℕ) → Located (value_slot g) (value_stored self.now) ValueSlotPlaced result }
    {
        let (value, end) = place_value(self.value, TIMESTAMP_SIZE);
        let (data_signature, _) = place(self.data_signature, end);
        ValueSlotPlaces {
            value,
            data_signature,
        }
    }
}

impl VersionSlot<'_> {
    /// Where its parts stand in the bytes that it was read from, or that it is written as.
    /// The places can be kept when the bytes are handed on.
    pub fn places(&self) -> VersionSlotPlaces
        ensures { (n g : ℕ) → Located (version_slot n g) (version_stored self.now) VersionSlotPlaced result }
    {
        let end = version_end(&self.version, 0);
        let (commit_signature, end) = place(self.commit_signature, end);
        let (proof_signature, _) = place(self.proof_signature, end);
        VersionSlotPlaces {
            commit_signature,
            proof_signature,
        }
    }
}
