//! Messages between sites and their host, read from bytes and written to them, and the strings that sites sign.
#![tactic(auto)]

mod code;
mod commit;
mod fields;
mod head;
mod kind;
mod parts;
mod place;
mod places;
mod refusal;
mod reply;
mod reply_parts;
mod reply_places;
mod slot;
mod submit;
mod text;
mod whole;

pub use code::{Code, UnknownCode};
pub use commit::{Commit, commit_start};
pub use fields::MAX_VALUE;
pub use parts::value_parts;
pub use place::Place;
pub use places::{CommitPlaces, SubmitPlaces, ValueSlotPlaces, VersionSlotPlaces};
pub use refusal::Refusal;
pub use reply::{Entries, Entry, Found, Reply};
pub use reply_parts::{ListEntry, ReplyParts};
pub use reply_places::{FoundPlaces, ReplyPlaces};
pub use slot::{ValueSlot, VersionSlot};
pub use submit::{Submit, submit_start};
pub use text::Text;
