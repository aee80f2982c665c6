//! Trees of small keys, kept in order by hand, seen through the chain's nodes.
mod amortized;
mod balance;
mod memory;
mod rebuild;
mod repairs;
mod support;
