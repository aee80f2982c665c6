//! The bytes of an agenda's two files, read under a lock: for what only reads them.

ghost use Rattle.std.specs.Prelude.{IfOk, IsTrue};
ghost use Rattle.sqlite_disk.specs.Memory.{memory_is_usable};

use crate::failure::Failure;
use crate::files::{check_log, check_start, refusal_of};
use agenda_store::{Checkpoint, Store};
use job_table::{FileError, open_rows};
use sqlite_disk::{Disk, Files, Memory};
use sqlite_store::FileStore;
use std::alloc::Global;
use std::fs::{File, OpenOptions, TryLockError};
use std::io::{ErrorKind, Write};
use std::{fs, io};

/// The rows of an agenda over the bytes of its files. What is written stays in memory.
pub type ImageRows = FileStore<Memory>;

/// The bytes of a database file and of its log.
#[derive(Drop)]
pub struct Image {
    pub db: Vec<u8>,
    pub log: Vec<u8>,
}

impl Image {
    /// Reads the files of a path under a shared lock, so that no `jobs` writes them meanwhile. Nothing is written.
    pub fn read(rt: &HostRuntime, path: &str) -> Result<Image, Failure> {
        let file = File::open(rt, path)?;
        match file.try_lock_shared() {
            Ok(()) => Image::read_unlocked(rt, path),
            Err(TryLockError::WouldBlock) => Err(Failure::InUse),
            Err(TryLockError::Error(error)) => Err(Failure::Path(error)),
        }
    }

    /// Reads the files of a path, which the caller has locked. Nothing is written.
    pub fn read_unlocked(rt: &HostRuntime, path: &str) -> Result<Image, Failure> {
        let real = fs::canonicalize(rt, path)?;
        let db = fs::read(rt, real.as_str())?;
        let log = match fs::read(
            rt,
            format!(in rt.alloc(); "{}-wal", real.as_str())?.as_str(),
        ) {
            Ok(log) => log,
            Err(error) if error.kind() == ErrorKind::NotFound => Vec::new(rt.alloc()),
            Err(error) => return Err(Failure::Path(error)),
        };
        Ok(Image { db, log })
    }

    /// Opens the rows as far as the log can be read.
    pub fn open_readable(&self, alloc: Global) -> Result<ImageRows, Failure> {
        self.opened(open_rows(alloc, self.files(alloc)?, 0))
    }

    /// Opens the rows, unless the log is damaged.
    pub fn open(&self, alloc: Global) -> Result<ImageRows, Failure> {
        let mut files = self.files(alloc)?;
        check_start(alloc, &mut files.log, &mut files.db)?;
        match check_log(alloc, &mut files.log) {
            Ok(()) => self.opened(open_rows(alloc, files, 0)),
            Err(Failure::DamagedLog(_)) => Err(self.damage(alloc)),
            Err(failure) => Err(failure),
        }
    }

    // Returns files in memory with these bytes.
    fn files(&self, alloc: Global) -> io::Result<Files<Memory>>
        ensures log { IfOk result (λ files. IsTrue (memory_is_usable files.log)) }
        ensures db { IfOk result (λ files. IsTrue (memory_is_usable files.db)) }
    {
        Ok(Files {
            log: disk_of(alloc, &self.log)?,
            db: disk_of(alloc, &self.db)?,
        })
    }

    // Says why rows aren't opened.
    fn opened(&self, rows: Result<ImageRows, FileError>) -> Result<ImageRows, Failure> {
        match rows {
            Ok(rows) => Ok(rows),
            Err(FileError::NotAnAgenda) => Err(refusal_of(&self.db)),
            Err(error) => Err(Failure::from(error)),
        }
    }

    /// Returns how many jobs a damaged log leaves.
    pub fn damage(&self, alloc: Global) -> Failure {
        match self.open_readable(alloc) {
            Ok(rows) => damage_of(alloc, rows),
            Err(_) => Failure::Damaged,
        }
    }
}

// Returns how many jobs these rows have, which a damaged log leaves.
fn damage_of<S: Checkpoint + Drop>(alloc: Global, rows: S) -> Failure {
    match Store::open(alloc, rows) {
        Ok(store) => Failure::DamagedLog(store.len()),
        Err(_) => Failure::Damaged,
    }
}

// Copies the log of rows that hold an agenda into their database file, and returns how many jobs there are.
fn gather<S: Checkpoint + Drop>(alloc: Global, rows: S) -> Result<(usize, S), Failure> {
    let mut store = match Store::open(alloc, rows) {
        Ok(store) => store,
        Err((error, _)) => return Err(Failure::from(error)),
    };
    let jobs = store.len();
    store.checkpoint()?;
    Ok((jobs, store.into_rows()))
}

// Returns a file in memory of these bytes.
fn disk_of(alloc: Global, bytes: &[u8]) -> io::Result<Memory>
    ensures { IfOk result (λ disk. IsTrue (memory_is_usable disk)) }
{
    let mut disk = Memory::new(alloc);
    disk.write_at(0, bytes)?;
    disk.sync()?;
    Ok(disk)
}

/// What a damaged file has: its jobs from before the damage.
#[derive(Drop)]
pub struct Salvaged {
    /// How many jobs there are.
    pub jobs: usize,
    db: Memory,
}

impl Salvaged {
    /// Reads the jobs of a file from before a damage of its log. Nothing is written.
    pub fn read(rt: &HostRuntime, path: &str) -> Result<Salvaged, Failure> {
        let rows = Image::read(rt, path)?.open_readable(rt.alloc())?;
        let (jobs, rows) = gather(rt.alloc(), rows)?;
        let Files { log: _, db } = rows.close();
        Ok(Salvaged { jobs, db })
    }

    /// Writes the jobs into a new file.
    pub fn write(&self, rt: &HostRuntime, path: &str) -> Result<(), Failure> {
        let mut file = new_file(rt, path)?;
        file.write_all(self.db.bytes())?;
        file.sync_all()?;
        Ok(())
    }
}

/// Makes a file, which must not be there, nor its log.
pub fn new_file(rt: &HostRuntime, path: &str) -> Result<File, Failure> {
    if fs::exists(rt, format!(in rt.alloc(); "{path}-wal")?.as_str())? {
        return Err(Failure::Exists);
    }
    match OpenOptions::new()
        .read(true)
        .write(true)
        .create_new(true)
        .open(rt, path)
    {
        Ok(file) => Ok(file),
        Err(error) if error.kind() == ErrorKind::AlreadyExists => Err(Failure::Exists),
        Err(error) => Err(Failure::NotCreated(error)),
    }
}
