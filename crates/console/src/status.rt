//! The exit statuses.

/// The status of what is done.
pub const DONE: u8 = 0;

/// The status of a faulty line, a faulty argument, and what comes of them.
pub const FAULTY: u8 = 1;

/// The status of a command line that isn't one of the program's.
pub const USAGE: u8 = 2;

/// The status where memory is refused.
pub const NO_MEMORY: u8 = 3;

/// The status of a failed read or write.
pub const IO_FAILED: u8 = 4;
