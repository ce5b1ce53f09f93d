//! The exit statuses of a run.

/// The job is done.
pub const DONE: u8 = 0;

/// The first check that fails has a number.
pub const REFUSED: u8 = 1;

/// The words give no job.
pub const NO_JOB: u8 = 2;

/// A file can't be read, or the output can't be stored or printed.
pub const FAILED: u8 = 3;

/// Out of memory.
pub const NO_MEMORY: u8 = 4;

/// A name is of nothing that can be shown.
pub const UNNAMED: u8 = 5;
