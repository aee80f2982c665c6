//! The exit statuses of programs that failed, as `sysexits.h` has them.

/// The arguments are wrong: `EX_USAGE`.
pub const WRONG_USAGE: u8 = 64;

/// What was read is not what it should be: `EX_DATAERR`.
pub const BAD_DATA: u8 = 65;

/// A file that is named can't be opened: `EX_NOINPUT`.
pub const NO_INPUT: u8 = 66;

/// Memory is refused: `EX_OSERR`.
pub const NO_MEMORY: u8 = 71;

/// A file can't be created: `EX_CANTCREAT`.
pub const NOT_CREATED: u8 = 73;

/// Reading or writing failed: `EX_IOERR`.
pub const IO_FAILED: u8 = 74;
