//! Tells whether a write-ahead log ends as its last commit left it, or was damaged since.
#![tactic(auto)]

mod end;
mod header;
#[cfg(test)]
mod tests;

pub use end::is_whole;
