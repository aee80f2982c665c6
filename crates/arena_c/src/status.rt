//! The statuses of the calls. C has no enum of this library's, so they are numbers.

/// The call did what it says.
pub const OK: u8 = 0;
/// No entry is where the call looked, or the pointer is stale.
pub const NOT_FOUND: u8 = 1;
/// The arena would have more entries than pointers have indexes.
pub const FULL: u8 = 2;
/// Memory was refused.
pub const NO_MEMORY: u8 = 3;
/// The handle is closed.
pub const CLOSED: u8 = 4;
/// An entry has an equal key.
pub const EQUAL_KEY: u8 = 5;
/// The keys are not in order.
pub const OUT_OF_ORDER: u8 = 6;
/// The handle is open.
pub const ALREADY_OPEN: u8 = 7;
