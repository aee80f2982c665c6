//! Generational arenas: entries at small indexes, found by pointers that detect when their entry is gone.
#![tactic(auto)]

mod advancer;
mod arena;
mod clone_entry;
mod error;
mod invalidation;
mod items_mut;
pub mod laws;
mod map_entry;
mod opt_inx;
mod ptr;
mod recast;
mod slot;
mod traits;

pub use advancer::Advancer;
pub use arena::{Arena, Drain, PtrAdvancer, doubled_capacity};
pub use clone_entry::{CloneEntry, TryCalls};
pub use error::{InsertionError, MaxCapacityReductionError, ReallocationError};
pub use invalidation::{InvalidationOption, InvalidationResult};
pub use items_mut::ItemsMut;
pub use map_entry::{Calls, MapEntry};
pub use opt_inx::OptInx;
pub use ptr::{BasePtr, BasePtrGen, BasePtrInx, P0, P8, P32, PN, Ptr, PtrGen, PtrInx, Q0};
pub use recast::{Recast, Recaster};
// A crate can name an arena in a contract only if the types of its fields are exported.
#[doc(hidden)]
pub use slot::Slot;
pub use traits::{ArenaCloneFromWith, ArenaTrait, CompactArenaTrait, SetMaxCapacity};
