//! The name of a begun operation, held by whoever began it.

ghost use Rattle.std.specs.Prelude.{◌≡◌};
ghost use Rattle.site.specs.State.{operation_named};

/// A begun operation, by its site and its timestamp.
///
/// There is one for each operation, and it has to be given back to the site: a ticket is not copied and not let go.
pub struct Ticket {
    site: u8,
    timestamp: u32,
}

impl Ticket {
    /// The site that began the operation.
    pub fn site(&self) -> u8
        ensures { result ≡ (operation_named self.now).site }
    {
        self.site
    }

    /// The timestamp of the operation: how many the site has begun, this one included.
    pub fn timestamp(&self) -> u32
        ensures { result ≡ (operation_named self.now).timestamp }
    {
        self.timestamp
    }

    // The ticket of an operation that was begun.
    pub(crate) fn of(site: u8, timestamp: u32) -> Ticket
        ensures { operation_named result ≡ record { site = site; timestamp = timestamp } }
    {
        Ticket { site, timestamp }
    }

    // Takes the ticket of an operation that is over.
    pub(crate) fn spend(self) {
        let Ticket {
            site: _,
            timestamp: _,
        } = self;
    }
}
