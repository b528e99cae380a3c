//! What is kept of a live command, and its slot beside it.

/// What is kept of a live command.
#[derive(Clone, Copy)]
pub struct Live {
    /// Its ticket, by which its unit answers. Tickets go up in the order in which commands enter.
    pub ticket: u64,
    /// Its logical unit.
    pub unit: u16,
    /// The CID of the connection that it came on.
    pub conn: u16,
    /// Its Initiator Task Tag.
    pub itt: u32,
    /// Whether it was for immediate delivery.
    pub immediate: bool,
}

/// A live command, and the slot that it has in its task set.
///
/// The slot is the one that it entered with. No clause says so, as none needs it: the set that is asked verifies it.
#[derive(Clone, Copy)]
pub struct Placed {
    /// What is kept of the command.
    pub command: Live,
    /// The slot that it has in its task set.
    pub slot: u16,
}

/// A live command, the slot that it has in its task set, and where it was found.
///
/// No clause speaks of slot or place: whoever is given them looks there first, and verifies what it finds.
#[derive(Clone, Copy)]
pub struct Located {
    /// What is kept of the command.
    pub command: Live,
    /// The slot that it has in its task set.
    pub slot: u16,
    /// Where it was found among the live commands.
    pub place: usize,
}
