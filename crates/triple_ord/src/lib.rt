//! Ordered arenas: an entry is found in O(1) by a stable pointer, and in O(log n) by its key.
#![tactic(auto)]

mod arena;
mod around;
mod descent;
mod entry_kind;
mod error;
mod growth;
mod insert_kind;
mod item;
pub mod laws;
pub mod order_laws;
mod pair;
mod prepared;
mod probe;
mod steps;
mod ties;
mod visits;

pub use arena::{
    CapacityDrain, Drain, Iter, OrderedDrain, OrderedPtrAdvancer, SimpleOrdArena,
    SimpleOrdArenaInsertEntry,
};
pub use arena_base::{
    Advancer, Arena, ArenaCloneFromWith, ArenaTrait, BasePtr, BasePtrGen, BasePtrInx,
    CompactArenaTrait, InvalidationOption, InvalidationResult, ItemsMut, P0, P8, P32, PN, Ptr,
    PtrAdvancer, PtrGen, PtrInx, Q0, ReallocationError, Recast, Recaster, SetMaxCapacity,
};
pub use chain_base::{ChainArena, LinkNoGen};
pub use entry_kind::OrdEntryKind;
pub use error::OrdInsertionError;
pub use growth::Growth;
pub use insert_kind::OrdInsertKind;
pub use item::SimpleOrdItem;
pub use ord_tree::SimpleOrdArenaNode;
pub use pair::OrdPair;
pub use visits::Visits;
