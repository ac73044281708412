// The limits of a session.

/// The number of the line at which reading stops.
pub const LAST_LINE: u32 = 1000000;

/// How many bytes of a line are kept: enough to see that it is too long.
pub const KEPT: usize = 33;
