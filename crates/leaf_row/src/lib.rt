//! Rows: up to 31 entries, with the keys in one vector and the names, which are indexes of slots, in another.
#![tactic(auto)]

mod keys;
mod names;
mod row;
mod search;

pub use row::Row;
pub use search::is_before;

/// The number of entries that a row holds at most.
pub const ROW: usize = 31;

// The length of the vector of names: moving `ROW` names from any index of a row on stays within it.
const STRIDE: usize = 64;
