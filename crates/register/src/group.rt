use host::Host;
use site::Site;

/// A group that was started: its host over the store, its sites, site 1 first, and the scheme and the digest that they use.
#[derive(Drop)]
pub struct Group<S, D, T> {
    pub scheme: S,
    pub digest: D,
    pub host: Host<T>,
    pub sites: Vec<Site>,
}

/// Why a group was not started.
#[derive(Clone, Copy, Debug, PartialEq, Eq)]
pub enum Reason {
    /// No group has this size.
    OutOfRange,
    /// There is no memory for the sites.
    NoMemory,
}

/// What was handed in for a group that was not started, and why it was not.
#[derive(Drop)]
pub struct Unstarted<S, D, T> {
    pub scheme: S,
    pub digest: D,
    pub store: T,
    pub reason: Reason,
}
