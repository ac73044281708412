// The records that the abstract state is made of.

/// When the book looks for cycles of waits (deadlock detection). Fixed at the making of a book.
#[derive(Clone, Copy, Debug, PartialEq, Eq)]
pub enum Detection {
    /// at every claim that is entered
    Continuous,
    /// at a sweep alone
    Periodic,
}

/// An entry of the open list: an open dispatch (an active transaction).
#[derive(Clone, Copy, Debug, PartialEq, Eq)]
pub struct OpenEntry {
    /// its number, 0 to 63
    pub dispatch: u8,
    /// its weight, 0 to 1000, for the recall order
    pub weight: u16,
}

/// An entry of the claim list (a lock request).
#[derive(Clone, Copy, Debug, PartialEq, Eq)]
pub struct Claim {
    /// the claimant, 0 to 63
    pub dispatch: u8,
    /// the section (locked object), 0 to 1023
    pub section: u16,
    /// the use code (lock mode)
    pub mode: u32,
}

/// How a dispatch stands.
#[derive(Clone, Copy, Debug, PartialEq, Eq)]
pub enum Condition {
    /// neither open nor recalled
    Free,
    /// open, and no claim of it waits
    Running,
    /// open, and a claim of it waits
    Waiting,
    /// recalled and not yet acknowledged
    Recalled,
}
