//! Commands to an ordered arena: `run` runs a list of them on any `SimpleOrdArena`, and returns a reply to each.
#![tactic(auto)]

mod command;
pub mod laws;
mod reply;
mod running;
mod steps;

pub use command::Command;
pub use reply::Reply;
pub use running::run;
