//! Chain arenas: entries of an arena in one list, each linked to its neighbours.
#![tactic(auto)]

mod chain;
mod link;
mod map_taken;

pub use chain::ChainArena;
pub use chain::insert::LinkInsertKind;
pub use chain::walk::ChainPtrAdvancer;
pub use link::LinkNoGen;
pub use map_taken::MapTaken;
