//! Files of agendas: opening them, and telling why one is refused.

ghost use Rattle.std.specs.Prelude.{OnOk, IsTrue};
ghost use Rattle.sqlite_wal.specs.Reads.{OnlyReads};
ghost use Rattle.log_check.specs.LogEnd.{IsWhole};

use crate::failure::Failure;
use crate::image::Image;
use job_table::{FileError, JOB_TABLE, open_rows};
use log_check::is_whole;
use sqlite_disk::{Disk, Wary};
use sqlite_std_file::FileFrom;
use sqlite_store::FileStore;
use sqlite_trees::store::Alter;
use sqlite_wal::{Error as LogError, PageSize, probe_frames};
use std::alloc::Global;
use std::fs::{File, TryLockError};
use std::hash::{BuildHasher, RandomState};
use std::io::{ErrorKind, Read};

/// The size of a page.
const PAGE: usize = 4096;

/// The version of the table: SQLite's user version.
const VERSION: u32 = 1;

/// The first bytes of a database.
const MAGIC: &[u8; 16] = b"SQLite format 3\0";

/// The rows of an agenda in a file.
pub type FileRows = FileStore<FileFrom<Wary>>;

/// The rows of an agenda in a file, and the lock that keeps readers out. The lock is let go last: closing any of a process's handles of a file
/// ends SQLite's locks on it too.
#[derive(Drop)]
pub struct Opened {
    pub rows: FileRows,
    pub lock: File,
}

/// Opens the rows of an agenda in a file, or makes them. Other programs that heed SQLite's locks find the file in use until the rows are
/// dropped, and so does `jobs --read-only` until the lock is.
///
/// # Errors
///
/// The file is unchanged, unless it was just made.
pub fn open(rt: &HostRuntime, path: &str) -> Result<Opened, Failure> {
    if is_foreign(rt, path)? {
        return Err(Failure::NotAnAgenda);
    }
    let early = locked(rt, path)?;
    let rows = match rows_of(rt, path) {
        Ok(rows) => with_version(rows)?,
        Err(failure) => return Err(explain(rt, path, failure)),
    };
    let lock = match early {
        Some(lock) => lock,
        None => locked(rt, path)?.ok_or(Failure::Device)?,
    };
    Ok(Opened { rows, lock })
}

// Locks a file against readers, if it is there.
fn locked(rt: &HostRuntime, path: &str) -> Result<Option<File>, Failure> {
    let file = match File::open(rt, path) {
        Ok(file) => file,
        Err(error) if error.kind() == ErrorKind::NotFound => return Ok(None),
        Err(error) => return Err(Failure::Path(error)),
    };
    match file.try_lock() {
        Ok(()) => Ok(Some(file)),
        Err(TryLockError::WouldBlock) => Err(Failure::InUse),
        Err(TryLockError::Error(error)) => Err(Failure::Path(error)),
    }
}

// Opens the rows of a file, unless its log is damaged.
fn rows_of(rt: &HostRuntime, path: &str) -> Result<FileRows, Failure> {
    let mut files = match sqlite_std_file::open(rt, path, Wary) {
        Ok(files) => files,
        Err(error) => return Err(Failure::from(FileError::from(error))),
    };
    check_log(rt.alloc(), &mut files.log)?;
    check_start(rt.alloc(), &mut files.log, &mut files.db)?;
    let seed = RandomState::new(rt)?.hash_one(&0u8);
    Ok(open_rows(rt.alloc(), files, seed)?)
}

/// Refuses a log that was changed since its last commit: recovery would pass over what it can't read.
pub fn check_log<D: Disk>(alloc: Global, log: &mut D) -> Result<(), Failure>
    requires { IsTrue (D.Disk.is_usable log.old) }
    ensures whole { OnOk result (IsTrue (D.Disk.is_clean log.new) → IsWhole 4096 (D.Disk.seen log.old)) }
    ensures same { OnlyReads D.Disk log.old log.new }
{
    let Some(size) = PageSize::new(PAGE) else {
        return Err(Failure::NotAnAgenda);
    };
    match is_whole(alloc, log, size) {
        Ok(true) => Ok(()),
        Ok(false) | Err(LogError::Corrupt) => Err(Failure::DamagedLog(0)),
        Err(LogError::OutOfMemory) => Err(Failure::Memory),
        Err(_) => Err(Failure::Device),
    }
}

/// Refuses a file that ends within the first bytes of a database, unless its log has what it lacks, or its first byte is 0, as that of a file that was
/// half made.
pub fn check_start<D: Disk>(alloc: Global, log: &mut D, db: &mut D) -> Result<(), Failure>
    requires log { IsTrue (D.Disk.is_usable log.old) }
    requires db { IsTrue (D.Disk.is_usable db.old) }
    ensures log { OnlyReads D.Disk log.old log.new }
    ensures db { OnlyReads D.Disk db.old db.new }
{
    let Ok(len) = db.len() else {
        return Err(Failure::Device);
    };
    if len == 0 || len >= MAGIC.len() {
        return Ok(());
    }
    let mut first = [0];
    if db.read_at(0, &mut first).is_err() {
        return Err(Failure::Device);
    }
    if first[0] == 0 {
        return Ok(());
    }
    let Some(size) = PageSize::new(PAGE) else {
        return Err(Failure::NotAnAgenda);
    };
    match probe_frames(alloc, log, size) {
        Ok(frames) if !frames.is_empty() => Ok(()),
        Ok(_) => Err(Failure::NotAnAgenda),
        Err(LogError::OutOfMemory) => Err(Failure::Memory),
        Err(_) => Err(Failure::Device),
    }
}

// Gives a file that was just made its version, which the first commit keeps, and refuses one of another version.
fn with_version<D: Disk + Drop>(mut rows: FileStore<D>) -> Result<FileStore<D>, Failure> {
    match rows.version() {
        VERSION => Ok(rows),
        0 => match rows.set_version(VERSION) {
            Ok(()) => Ok(rows),
            Err(_) => Err(Failure::Device),
        },
        other => Err(Failure::OtherVersion(other)),
    }
}

// Returns whether a file is no database, by its first bytes, so that no log is made beside it. A first byte of 0 is that of a file that was half made.
fn is_foreign(rt: &HostRuntime, path: &str) -> Result<bool, Failure> {
    let mut file = match File::open(rt, path) {
        Ok(file) => file,
        Err(error) if error.kind() == ErrorKind::NotFound => return Ok(false),
        Err(error) => return Err(Failure::Path(error)),
    };
    let mut head = [0; MAGIC.len()];
    match file.read_exact(&mut head) {
        Ok(()) => Ok(head[0] != 0 && head != *MAGIC),
        Err(error) if error.kind() == ErrorKind::UnexpectedEof => Ok(false),
        Err(error) => Err(Failure::Path(error)),
    }
}

// Tells damage from files that are no agendas, by what the file has. Reads it, and writes nothing.
fn explain(rt: &HostRuntime, path: &str, failure: Failure) -> Failure {
    match failure {
        Failure::NotAnAgenda => match Image::read_unlocked(rt, path) {
            Ok(image) => refusal_of(&image.db),
            Err(failure) => failure,
        },
        Failure::DamagedLog(_) => match Image::read_unlocked(rt, path) {
            Ok(image) => image.damage(rt.alloc()),
            Err(failure) => failure,
        },
        other => other,
    }
}

/// Returns why these bytes of a database file are refused: they are no database; or one of another version, or of other tables; or damaged.
pub fn refusal_of(db: &[u8]) -> Failure {
    if !db.starts_with(MAGIC) {
        return Failure::NotAnAgenda;
    }
    let has_table = db
        .windows(JOB_TABLE.len())
        .any(|part| part == JOB_TABLE.as_bytes());
    match version_of(db) {
        Some(1) if has_table => Failure::Damaged,
        Some(0) | None => Failure::NotAnAgenda,
        Some(version) => Failure::OtherVersion(version),
    }
}

// Returns the user version in the header of a database file.
fn version_of(db: &[u8]) -> Option<u32> {
    match db.get(60..64) {
        Some([a, b, c, d]) => Some(u32::from_be_bytes([*a, *b, *c, *d])),
        _ => None,
    }
}
