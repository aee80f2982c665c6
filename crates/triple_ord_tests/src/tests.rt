//! Arenas of keys, seen from the outside. Helpers return what they find, and a test compares it.
//!
//! A file tests the file of `triple_ord` that has its name. `disorder`, `each_call`, `equal_keys`, `every_order`, `rank_changes` and
//! `refusals` test across files.
mod append;
mod check;
mod compare;
mod debug;
mod disorder;
mod drain;
mod each_call;
mod entry;
mod equal_keys;
mod error;
mod every_order;
mod find;
mod find_linear;
mod find_with;
mod growth;
mod insert;
mod pair;
mod rank_changes;
mod rebuild;
mod recast;
mod refusals;
mod rekey;
mod remove;
mod support;
mod traits;
mod walk;
