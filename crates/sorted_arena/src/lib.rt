//! Sorted arenas: entries that are always in the order of their keys.
//!
//! An entry is found in O(1) by its pointer, and in O(log n) by its key. Equal keys keep the order of their insertion. Values can be
//! written; keys can't, so the order can't be broken.
#![tactic(auto)]

mod arena;
mod between;
mod entry;
mod error;
mod into;
mod met;
mod pairs;
mod parts;
mod range;
mod whole;

pub use arena::SortedArena;
pub use entry::{Entry, OccupiedEntry, VacantEntry};
pub use error::{RekeyUniqueError, SortedError, UniqueInsertionError};
pub use into::{IntoEntries, IntoKeys, IntoValues};
pub use listing::laws;
pub use parts::{Items, Keys, Values, ValuesDescending};
pub use range::Range;
pub use triple_ord::{
    BasePtr, BasePtrGen, BasePtrInx, P0, P8, P32, PN, Ptr, PtrGen, PtrInx, Q0, ReallocationError,
    Visits,
};
