//! Logs without a commit, and changed ones.

ghost use Rattle.std.specs.Prelude.{IfOk, IsTrue};
ghost use Rattle.sqlite_disk.specs.Memory.{memory_is_usable};

use crate::is_whole;
use sqlite_disk::{Disk, Memory};
use sqlite_wal::PageSize;
use std::alloc::Global;
use std::io;
use std::test::Fail;

// Returns a file of these bytes.
fn file_of(alloc: Global, bytes: &[u8]) -> io::Result<Memory>
    ensures { IfOk result (λ file. IsTrue (memory_is_usable file)) }
{
    let mut file = Memory::new(alloc);
    file.write_at(0, bytes)?;
    Ok(file)
}

// The header of a log of 4,096-byte pages, whose salt begins with 5, with its checksum; and then the first frame up to its closed gate.
const LOG: [u8; 41] = [
    0x37, 0x7f, 0x06, 0x82, 0x00, 0x2d, 0xe2, 0x18, 0, 0, 0x10, 0, 0, 0, 0, 0, 5, 0, 0, 0, 0, 0, 0,
    0, 212, 231, 3, 24, 140, 206, 218, 189, 0, 0, 0, 0, 0, 0, 0, 0, 0,
];

// Returns whether the first bytes of the log are whole with this byte in them.
fn is_whole_with(alloc: Global, len: usize, at: usize, byte: u8) -> Result<bool, Fail> {
    let size = PageSize::new(4096).ok_or("a page size")?;
    let mut bytes = LOG;
    if at < 41 {
        bytes[at] = byte;
    }
    let mut file = file_of(alloc, &bytes[..len.min(41)])?;
    Ok(is_whole(alloc, &mut file, size)?)
}

#[test]
fn a_log_without_a_commit(rt: HostRuntime) -> Result<(), Fail> {
    assert!(rt; is_whole_with(rt.alloc(), 41, 40, 0)?);
    assert!(rt; is_whole_with(rt.alloc(), 0, 40, 0)?);
    Ok(())
}

#[test]
fn a_log_that_is_being_emptied(rt: HostRuntime) -> Result<(), Fail> {
    assert!(rt; is_whole_with(rt.alloc(), 41, 0, 0)?);
    Ok(())
}

#[test]
fn a_log_that_was_changed(rt: HostRuntime) -> Result<(), Fail> {
    assert!(rt; !is_whole_with(rt.alloc(), 41, 40, 5)?, "an open gate");
    assert!(rt;
        !is_whole_with(rt.alloc(), 41, 40, 4)?,
        "a gate with a flipped bit"
    );
    assert!(rt; !is_whole_with(rt.alloc(), 40, 40, 0)?, "no gate");
    assert!(rt;
        !is_whole_with(rt.alloc(), 41, 20, 1)?,
        "another salt under the checksum"
    );
    Ok(())
}
