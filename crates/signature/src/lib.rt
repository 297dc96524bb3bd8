//! Signature schemes, known by their meaning: which triples of site, text and signature are valid, and how many
//! signatures each site has left.
//!
//! Code that signs and checks is written against [`Scheme`] and holds for every kind of scheme, also for one that has
//! nothing left from birth, as [`Spent`].
#![tactic(auto)]

mod at;
mod limits;
mod refusal;
mod scheme;
mod spent;

pub use at::sign_at;
pub use limits::{MAX_SIGNATURE, MAX_SITES, MAX_TEXT, check_site, is_site};
pub use refusal::Refusal;
pub use scheme::Scheme;
pub use spent::Spent;

#[cfg(test)]
mod tests {
    use super::*;

    // What is proved of every scheme holds for one that never signs.
    #[test]
    fn spent_signs_nothing(rt: HostRuntime) {
        let mut out = [7u8; 4];
        assert!(rt; sign_at(&mut Spent, 1, b"text", &mut out, 2) == Err(Refusal::NoneLeft));
        assert!(rt; sign_at(&mut Spent, 9, b"text", &mut out, 2) == Err(Refusal::OutOfRange));
        assert!(rt; out == [7u8; 4]);
        assert!(rt; !Spent.check(1, b"text", &out));
    }
}
