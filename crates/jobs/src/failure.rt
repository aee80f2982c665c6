//! Why the program ends with another status than 0.

use crate::old_log::OldFault;
use crate::serve::Stop;
use agenda_store::StoreError;
use job_table::FileError;
use line_service::{BAD_DATA, IO_FAILED, NO_INPUT, NO_MEMORY, NOT_CREATED};
use sqlite_trees::error::StoreError as RowsError;
use std::alloc::AllocError;
use std::io;
use thiserror::Error;

/// A commit failed after the agenda was opened: all that was answered lasts.
const COMMIT_FAILED: u8 = 1;

/// The file is in use: `EX_TEMPFAIL`.
const IN_USE: u8 = 75;

/// Why the program ends. The text follows the name of the file.
#[derive(Debug, Drop, Error)]
pub enum Failure {
    #[error("in use by another process")]
    InUse,
    #[error("{0}")]
    Path(io::Error),
    #[error("{0}")]
    NotCreated(io::Error),
    #[error("the device failed")]
    Device,
    #[error("the device is full")]
    NoRoom,
    #[error("out of memory")]
    Memory,
    #[error("a rollback journal lies beside it: open it with sqlite3 first")]
    HotJournal,
    #[error("no agenda")]
    NotAnAgenda,
    #[error("an agenda of another version than 1: {0}")]
    OtherVersion(u32),
    #[error("damaged")]
    Damaged,
    #[error("damaged: its log is; {0} jobs are from before that, and jobs --salvage copies them")]
    DamagedLog(usize),
    #[error("exists already")]
    Exists,
    #[error("{0}")]
    Old(#[from] OldFault),
    #[error("{0}")]
    Store(StoreError),
    #[error("the log can't be copied into it, and has what was answered: {0}")]
    Closing(StoreError),
    #[error("{0}")]
    Stop(#[from] Stop),
}

impl From<AllocError> for Failure {
    fn from(_: AllocError) -> Failure {
        Failure::Memory
    }
}

impl From<io::Error> for Failure {
    fn from(error: io::Error) -> Failure {
        Failure::Path(error)
    }
}

impl From<FileError> for Failure {
    fn from(error: FileError) -> Failure {
        match error {
            FileError::Path(error) => Failure::Path(error),
            FileError::InUse => Failure::InUse,
            FileError::HotJournal => Failure::HotJournal,
            FileError::NotAnAgenda => Failure::NotAnAgenda,
            FileError::Device => Failure::Device,
            FileError::NoRoom => Failure::NoRoom,
            FileError::OutOfMemory => Failure::Memory,
        }
    }
}

impl From<StoreError> for Failure {
    fn from(error: StoreError) -> Failure {
        match error {
            StoreError::Rows(RowsError::Corrupt) => Failure::Damaged,
            StoreError::Rows(RowsError::Io) => Failure::Device,
            StoreError::Rows(RowsError::Full) => Failure::NoRoom,
            StoreError::OutOfMemory => Failure::Memory,
            StoreError::NotAnAgenda => Failure::NotAnAgenda,
            _ => Failure::Store(error),
        }
    }
}

impl Failure {
    /// Returns the exit status.
    pub fn status(&self) -> u8 {
        match self {
            Failure::InUse => IN_USE,
            Failure::Path(error) => status_at_path(error),
            Failure::Exists | Failure::NotCreated(_) => NOT_CREATED,
            Failure::Memory
            | Failure::Old(OldFault::Memory)
            | Failure::Stop(Stop::Memory | Stop::Commit(StoreError::OutOfMemory, _)) => NO_MEMORY,
            Failure::HotJournal
            | Failure::NotAnAgenda
            | Failure::OtherVersion(_)
            | Failure::Damaged
            | Failure::DamagedLog(_)
            | Failure::Old(_)
            | Failure::Stop(Stop::Commit(StoreError::Rows(RowsError::Corrupt), _)) => BAD_DATA,
            Failure::Closing(_) | Failure::Stop(Stop::Commit(..)) => COMMIT_FAILED,
            Failure::Device | Failure::NoRoom | Failure::Store(_) | Failure::Stop(_) => IO_FAILED,
        }
    }
}

// Returns the exit status after a file couldn't be opened or read.
fn status_at_path(error: &io::Error) -> u8 {
    match error.kind() {
        io::ErrorKind::NotFound | io::ErrorKind::PermissionDenied => NO_INPUT,
        io::ErrorKind::OutOfMemory => NO_MEMORY,
        _ => IO_FAILED,
    }
}
