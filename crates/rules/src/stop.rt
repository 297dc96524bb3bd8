ghost use Rattle.std.specs.Prelude.{◌≡◌};
ghost use Rattle.rules.specs.Numbers.{stop_number};

use thiserror::Error;

/// Which check of a reply failed. The site has stopped for good, its version as it was.
#[derive(Clone, Copy, Debug, PartialEq, Eq, Error)]
pub enum Stop {
    /// The committed version is not zero, and its commit signature is not valid.
    #[error("the committed version is not signed")]
    CommitSignature = 21,
    /// The site's version is not at or below the committed one, or they differ in the site's own timestamp.
    #[error("the committed version does not follow this site's")]
    Forked = 22,
    /// An entry's site has a digest, and its proof signature is not valid.
    #[error("an entry's site did not sign its digest")]
    ProofSignature = 23,
    /// An entry is the site's own.
    #[error("an entry is this site's own")]
    OwnEntry = 24,
    /// An entry's timestamp cannot rise, or its submit signature is not valid.
    #[error("an entry is not signed")]
    SubmitSignature = 25,
    /// The owner's version is not zero, and its commit signature is not valid.
    #[error("the owner's version is not signed")]
    OwnerSignature = 26,
    /// The data signature is not valid above timestamp 0, or there is a value at timestamp 0.
    #[error("the value is not signed")]
    DataSignature = 27,
    /// The owner's version is not at or below the committed one, or the value's timestamp is not the owner's in the running version.
    #[error("the value is not of this history")]
    OwnerVersion = 28,
    /// The owner's own timestamp is neither the value's nor one less.
    #[error("the owner's version is not of this value")]
    OwnerTimestamp = 29,
}

impl Stop {
    /// The number that this stop has in docs/RULES.md.
    pub fn number(&self) -> u8
        ensures { result ≡ stop_number self.now }
    {
        *self as u8
    }
}
