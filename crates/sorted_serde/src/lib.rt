//! Sorted arenas in any format of `serde`: written as the list of their pairs, and read from one.
//!
//! [`AsPairs`] writes an arena, and [`FromPairs`] reads one. [`serialize`] and [`deserialize`] do the same for a field of a derived type that
//! is marked `#[serde(with = sorted_serde)]`. In JSON an arena is an array of arrays of two, as `[[100,"Ada"],[120,"Grace"]]`.
//!
//! Pointers are not written. An arena that was read has new ones.
#![tactic(auto)]

mod read;
mod write;

pub use read::{FromPairs, deserialize};
pub use write::{AsPairs, serialize};
