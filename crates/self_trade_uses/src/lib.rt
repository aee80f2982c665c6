//! Uses of `self_trade`, as a caller writes them: with the clauses that their users want, proved from the contract alone.
#![tactic(auto)]

pub mod own_orders;
