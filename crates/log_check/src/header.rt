//! The header of a log, and single bytes of it.

ghost use Rattle.std.specs.Prelude.{◌≡◌, ◌↔◌, ◌<◌, ◌≤◌, ◌+◌, ◌^◌, ℕ, IsTrue, IfOk, length, slice_index};
ghost use Rattle.sqlite_disk.specs.Disk.{CountsFault};
ghost use Rattle.sqlite_wal.specs.Reads.{IsClean, OnlyReads};
ghost use Rattle.sqlite_wal.specs.Format.{IsSigned, be32, stored_sum};
ghost use Rattle.sqlite_wal.specs.Recovery.{header};

use sqlite_disk::Disk;
use sqlite_wal::checksum_of;
use std::io;

/// The length of a log's header.
const HEADER: usize = 32;

/// Returns a byte of a file, or 0 past its end.
pub(crate) fn byte_at<D: Disk>(file: &mut D, at: usize) -> io::Result<u8>
    requires { IsTrue (D.Disk.is_usable file.old) }
    ensures value { IfOk result (λ byte. IsClean D.Disk file.new → byte ≡ slice_index (D.Disk.seen file.old) at) }
    ensures faults { CountsFault result (D.Disk.faults file.old) (D.Disk.faults file.new) }
    ensures same { OnlyReads D.Disk file.old file.new }
{
    if at >= file.len()? {
        return Ok(0);
    }
    let mut byte = [0];
    file.read_at(at, &mut byte)?;
    Ok(byte[0])
}

// Returns four bytes as a number, the highest first.
fn number_at(bytes: &[u8], at: usize) -> u32
    requires { at + 4 ≤ length bytes.now }
    ensures { result ≡ be32 bytes.now at }
{
    let high = bytes[at] as u32 * 256 + bytes[at + 1] as u32;
    let low = bytes[at + 2] as u32 * 256 + bytes[at + 3] as u32;
    high * 65536 + low
}

// Returns whether 32 bytes begin with the magic number of a log and end with their checksum.
fn is_signed(head: &[u8; 32]) -> bool
    ensures { IsTrue result ↔ IsSigned head.now }
{
    if head[0] != 0x37 || head[1] != 0x7f || head[2] != 0x06 {
        return false;
    }
    if head[3] != 0x82 && head[3] != 0x83 {
        return false;
    }
    let sum = checksum_of(head[3] == 0x83, (0, 0), &head[..24]);
    sum == (number_at(head, 24), number_at(head, 28))
}

/// Returns whether a file has the header of a log, under its checksum.
pub(crate) fn has_header<D: Disk>(log: &mut D) -> io::Result<bool>
    requires { IsTrue (D.Disk.is_usable log.old) }
    ensures value { IfOk result (λ has. IsClean D.Disk log.new
        → (IsTrue has ↔ ((32 ≤ length (D.Disk.seen log.old)) × IsSigned (header (D.Disk.seen log.old))))) }
    // For the prover: a length has 64 bits.
    ensures sized { IfOk result (λ _. IsClean D.Disk log.new → length (D.Disk.seen log.old) < 2 ^ 64) }
    ensures faults { CountsFault result (D.Disk.faults log.old) (D.Disk.faults log.new) }
    ensures same { OnlyReads D.Disk log.old log.new }
{
    if log.len()? < HEADER {
        return Ok(false);
    }
    let mut head = [0; HEADER];
    log.read_at(0, &mut head)?;
    Ok(is_signed(&head))
}
