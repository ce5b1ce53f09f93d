//! The codes by which words are refused that give no job.

/// The word is an unknown option.
pub const UNKNOWN_OPTION: u32 = 1;

/// The option's value is missing.
pub const MISSING_VALUE: u32 = 2;

/// The option's value is bad.
pub const BAD_VALUE: u32 = 3;

/// The option is repeated.
pub const REPEATED_OPTION: u32 = 4;

/// Some options don't go together.
pub const CONFLICTING_OPTIONS: u32 = 5;

/// There is no file.
pub const NO_FILE: u32 = 6;

/// There is a file too many.
pub const TOO_MANY_FILES: u32 = 7;
