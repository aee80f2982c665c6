//! Why a program ends before its input does.
ghost use Rattle.std.specs.Prelude.{◌≡◌, ◌⊎◌, IfOk, IfErr};
ghost use Rattle.std.specs.Process.{exit_status};
ghost use Rattle.line_service.specs.Ending.{status_of};

use crate::status::{IO_FAILED, NO_MEMORY, WRONG_USAGE};
use std::alloc::{AllocError, AllocFailed};
use std::io;
use std::process::ExitCode;
use thiserror::Error;

/// Why a program ended before it had answered every line.
#[derive(Debug, Drop, Error)]
pub enum Failure {
    /// An argument is not UTF-8.
    #[error("an argument is not text")]
    Arguments,
    /// Reading standard input failed.
    #[error("reading failed: {0}")]
    Reading(io::Error),
    /// Writing standard output failed.
    #[error("writing failed: {0}")]
    Writing(io::Error),
    /// An allocation failed.
    #[error("out of memory")]
    Memory,
}

impl Failure {
    /// Returns the failure of a write, or of an allocation for it.
    pub fn writing(error: io::Error) -> Failure
        ensures { (result ≡ Failure.Writing error) ⊎ (result ≡ Failure.Memory) }
    {
        match error.kind() {
            io::ErrorKind::OutOfMemory => Failure::Memory,
            _ => Failure::Writing(error),
        }
    }

    /// Returns the failure of a read, or of an allocation for it.
    pub fn reading(error: io::Error) -> Failure
        ensures { (result ≡ Failure.Reading error) ⊎ (result ≡ Failure.Memory) }
    {
        match error.kind() {
            io::ErrorKind::OutOfMemory => Failure::Memory,
            _ => Failure::Reading(error),
        }
    }

    /// Returns the exit status of a program that fails so.
    pub fn status(&self) -> u8
        ensures { result ≡ status_of self.now }
    {
        match self {
            Failure::Arguments => WRONG_USAGE,
            Failure::Reading(_) | Failure::Writing(_) => IO_FAILED,
            Failure::Memory => NO_MEMORY,
        }
    }
}

impl From<AllocError> for Failure {
    ghost use Rattle.line_service.specs.Ending.{IsOfMemory};

    ghost from_gives = { λ refused failure. IsOfMemory failure };

    fn from(_refused: AllocError) -> Failure {
        Failure::Memory
    }
}

impl<T: Drop> From<AllocFailed<T>> for Failure {
    ghost use Rattle.line_service.specs.Ending.{IsOfMemory};

    ghost from_gives = { λ refused failure. IsOfMemory failure };

    fn from(_refused: AllocFailed<T>) -> Failure {
        Failure::Memory
    }
}

/// Returns the exit status of a program that has ended with this outcome. A failure is written to standard error as one line,
/// `PROGRAM: REASON`.
pub fn ended(rt: &impl Eprint, program: &str, outcome: Result<ExitCode, Failure>) -> ExitCode
    ensures ok { IfOk outcome (λ status. result ≡ status) }
    ensures err { IfErr outcome (λ failure. exit_status result ≡ status_of failure) }
{
    match outcome {
        Ok(status) => status,
        Err(failure) => {
            let status = failure.status();
            let _ = eprintln!(rt; "{program}: {failure}");
            ExitCode::from(status)
        }
    }
}
