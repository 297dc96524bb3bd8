use message::Code;

/// Where a site stands between its calls.
#[derive(Clone, Copy, Debug, PartialEq, Eq)]
pub enum Phase {
    /// It can begin an operation.
    Idle,
    /// It has begun an operation, by its code and register, and waits for the reply.
    Waiting(Code, u8),
    /// A reply failed a check: nothing can be begun or finished any more.
    Stopped,
    /// An operation was abandoned: nothing can be begun or finished any more.
    Retired,
}
