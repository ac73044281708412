// The six calls of the book, with any numbers.

/// A call of the book. Any numbers may be given; the book refuses those out of range.
#[derive(Clone, Copy, Debug, PartialEq, Eq)]
pub enum Call {
    /// Begin a dispatch (a transaction), with its weight.
    Open {
        dispatch: u32,
        weight: u32,
    },
    /// Ask for a section (request a lock on an object) for a use (in a lock mode).
    Claim {
        dispatch: u32,
        section: u32,
        mode: u32,
    },
    /// End a dispatch that runs (commit).
    Close {
        dispatch: u32,
    },
    /// End a dispatch, also one that waits (abort).
    Withdraw {
        dispatch: u32,
    },
    /// Take note of a recall, which frees the number of a deadlock victim.
    Acknowledge {
        dispatch: u32,
    },
    /// Look for cycles of waits, and recall until none is left (a run of deadlock detection).
    Sweep,
}
