//! Why nothing is drawn.
use line_service::{BAD_DATA, IO_FAILED, NO_INPUT, NO_MEMORY};
use ord_script::FaultKind;
use std::alloc::{AllocError, AllocFailed};
use std::io;
use thiserror::Error;
use tree_picture::PictureError;

/// Why nothing is drawn.
#[derive(Debug, Drop, Error)]
pub enum DrawError {
    /// This line of the script, counted from 1, is no command.
    #[error("line {0}: {1}")]
    Fault(usize, FaultKind),
    /// The script has more bytes than are read.
    #[error("the script is too long")]
    TooLong,
    /// The picture would be too large.
    #[error("the picture is too large")]
    TooLarge,
    /// The script can't be opened.
    #[error("can't be opened: {0}")]
    NoInput(io::Error),
    /// Memory is refused.
    #[error("out of memory")]
    Memory,
    /// The script can't be read.
    #[error("reading failed: {0}")]
    ReadFailed(io::Error),
    /// The picture can't be written.
    #[error("writing failed: {0}")]
    WriteFailed(io::Error),
}

impl DrawError {
    /// Returns the exit status.
    pub fn status(&self) -> u8 {
        match self {
            DrawError::Fault(_, _) | DrawError::TooLong | DrawError::TooLarge => BAD_DATA,
            DrawError::NoInput(_) => NO_INPUT,
            DrawError::Memory => NO_MEMORY,
            DrawError::ReadFailed(_) | DrawError::WriteFailed(_) => IO_FAILED,
        }
    }
}

impl From<AllocError> for DrawError {
    fn from(_refused: AllocError) -> DrawError {
        DrawError::Memory
    }
}

impl<T: Drop> From<AllocFailed<T>> for DrawError {
    fn from(_refused: AllocFailed<T>) -> DrawError {
        DrawError::Memory
    }
}

impl From<PictureError> for DrawError {
    fn from(error: PictureError) -> DrawError {
        match error {
            PictureError::TooLarge => DrawError::TooLarge,
            PictureError::AllocError => DrawError::Memory,
        }
    }
}
