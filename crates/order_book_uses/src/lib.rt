//! Uses of `order_book`, as a caller writes them: with the clauses that their users want, proved from the contracts alone.
#![tactic(auto)]

pub mod desk;
pub mod feed;
pub mod opening;
pub mod owners;
pub mod quote;
pub mod saving;
pub mod spreads;
