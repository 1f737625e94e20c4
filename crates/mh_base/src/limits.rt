//! Limits that several crates share.

/// The greatest number of needs of a link: the switch points that its tree assumes to be valid.
pub const MOST_NEEDS: usize = 8;

/// The greatest number of workers: threads that make calls, or that solve the parts of a problem.
pub const MOST_WORKERS: u32 = 64;
