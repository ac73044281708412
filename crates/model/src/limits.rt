// The limits of a book. Its memory is fixed, so they are constants.

/// How many dispatch numbers there are: 0 to 63.
pub const DISPATCHES: usize = 64;

/// How many sections there are: 0 to 1023.
pub const SECTIONS: u32 = 1024;

/// How many claims stand at most.
pub const CLAIMS: usize = 512;

/// The greatest weight of a dispatch.
pub const HEAVIEST: u32 = 1000;
