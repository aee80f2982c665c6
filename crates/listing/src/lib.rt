//! Listings: what sorted arenas, agendas and queues of orders are to those who read their contracts. An ordered arena of pairs holds one: it
//! is in the order of its keys, and a new entry goes after every entry with a key ≤ its own.
#![tactic(auto)]

pub mod laws;
mod put;

pub use put::{insert_behind, insert_behind_within};
