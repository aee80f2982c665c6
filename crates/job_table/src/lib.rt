//! A table of jobs in a database that sqlite3 reads.
#![tactic(auto)]

mod checkpoint;
mod error;
mod file;
pub mod laws;
mod load;
mod rows;
mod table;

pub use checkpoint::Checkpoint;
pub use error::StoreError;
pub use file::{FileError, JOB_OBJECT, JOB_TABLE, open_file, open_rows};
pub use rows::{Entry, MAX_BYTES, MAX_DEADLINE, MAX_NUMBER, put_job, put_next};
pub use table::{Table, is_unused};
