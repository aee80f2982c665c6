//! Commands to an ordered arena, and scripts of them: bytes in, replies out.
//!
//! `run` runs commands on any `SimpleOrdArena`, and returns a reply to each. `serve` reads a whole script, runs its commands on an arena
//! of pairs, and writes a line for each reply. `parse` reads the commands of a script, for callers that run them on an arena of their own.
//! `laws` states facts about every run and every script.
#![tactic(auto)]

mod arguments;
mod cutting;
mod fault;
mod form;
pub mod laws;
mod numbers;
mod pairs;
mod parsing;
mod reading;
mod script;
mod script_end;
mod serving;
mod text;
mod watched;
mod word;
mod writing;

pub use fault::{Fault, FaultKind};
pub use ord_machine::{Command, Reply, run};
pub use pairs::{Pair, PairArena, PairCommand, PairReply};
pub use script::{Script, parse};
pub use script_end::ScriptEnd;
pub use serving::serve;
pub use watched::Watched;
