//! Uses of `level_feed`, as a caller writes them: with the clauses that their users want, proved from the contracts alone.
#![tactic(auto)]

pub mod image;
pub mod publisher;
