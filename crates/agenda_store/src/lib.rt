//! An agenda in a table of a database that sqlite3 reads.
#![tactic(auto)]

mod history;
mod iter;
mod job;
pub mod laws;
mod planner;
mod requests;
mod store;

pub use history::Session;
pub use iter::Iter;
pub use job::{Job, JobId, JobRef};
pub use job_table::{Checkpoint, MAX_BYTES, MAX_DEADLINE, StoreError};
pub use requests::{Reply, Request};
pub use store::Store;
