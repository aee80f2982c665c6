//! The end of a log.

ghost use Rattle.std.specs.Prelude.{◌≡◌, ◌↔◌, ◌<◌, ◌+◌, ℕ, IsTrue, IfOk, length, slice_index};
ghost use Rattle.sqlite_wal.specs.Outcome.{FailsFor, Never};
ghost use Rattle.sqlite_wal.specs.Opening.{RefusesLog};
ghost use Rattle.sqlite_wal.specs.PageSize.{bytes_of};
ghost use Rattle.sqlite_wal.specs.Reads.{IsClean, OnlyReads};
ghost use Rattle.log_check.specs.LogEnd.{IsWhole, HasClosedGate, closed_byte};

use crate::header::{byte_at, has_header};
use sqlite_disk::Disk;
use sqlite_wal::{Error, PageSize, probe_frames};
use std::alloc::Global;

/// Where the first frame has its gate.
const FIRST_GATE: usize = 40;

/// The length of a frame's header.
const FRAME_HEADER: usize = 24;

/// Where a header has its salt.
const SALT: usize = 16;

/// Returns whether a log is whole: it is empty, or its header's gate is closed because it was being emptied, or its header is intact and
/// the gate behind its last commit is closed.
///
/// Commits under `Wary` leave a log so, and so does a crash at any moment of one: the gate of a commit's first frame is opened last, by one
/// byte, once all of its frames and the gate behind them are on the disk. So a log that isn't whole was changed since: bytes behind the last
/// commit that can be read were lost.
///
/// # Errors
///
/// Nothing is written.
/// - `Io`: the log can't be read.
/// - `Corrupt`: the header names another page size or version, so recovery refuses the log.
/// - `OutOfMemory`.
///
/// O(the length of the log).
pub fn is_whole<D: Disk>(alloc: Global, log: &mut D, size: PageSize) -> Result<bool, Error>
    requires { IsTrue (D.Disk.is_usable log.old) }
    ensures value { IfOk result (λ is. IsClean D.Disk log.new → (IsTrue is ↔ IsWhole (bytes_of size) (D.Disk.seen log.old))) }
    ensures cause { FailsFor result (IsClean D.Disk log.new) (D.Disk.faults log.old) (D.Disk.faults log.new)
        (RefusesLog (bytes_of size) (D.Disk.seen log.old)) }
    ensures same { OnlyReads D.Disk log.old log.new }
{
    if byte_at(log, 0)? == 0 {
        return Ok(true);
    }
    if !has_header(log)? {
        return Ok(false);
    }
    let frames = probe_frames(alloc, log, size)?.len();
    let len = frames.saturating_mul(FRAME_HEADER + size.bytes());
    has_closed_gate(log, len.saturating_add(FIRST_GATE))
}

// Returns the byte of a closed gate, under the first byte of a salt.
fn closed(salt: u8) -> u8
    ensures { result ≡ closed_byte salt }
{
    if salt == 0 { 1 } else { 0 }
}

// Returns whether the gate at this place is in the log and closed.
fn has_closed_gate<D: Disk>(log: &mut D, gate: usize) -> Result<bool, Error>
    requires { IsTrue (D.Disk.is_usable log.old) }
    ensures value { IfOk result (λ is. IsClean D.Disk log.new → (IsTrue is ↔ HasClosedGate gate (D.Disk.seen log.old))) }
    ensures cause { FailsFor result (IsClean D.Disk log.new) (D.Disk.faults log.old) (D.Disk.faults log.new) Never }
    ensures same { OnlyReads D.Disk log.old log.new }
{
    if gate >= log.len()? {
        return Ok(false);
    }
    let salt = byte_at(log, SALT)?;
    Ok(byte_at(log, gate)? == closed(salt))
}
