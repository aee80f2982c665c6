//! Uses of `triple_ord` as a caller writes them, each with the clauses that its user needs, proved from the contracts alone.
#![tactic(auto)]

pub mod catalogue;
pub mod entries;
pub mod notes;
pub mod pointers;
pub mod rounds;
pub mod scheduler;
pub mod sessions;
