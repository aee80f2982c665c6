//! A table of jobs in a file.

ghost use Rattle.std.specs.Prelude.{◌≡◌, [], true, IfOk, IsTrue};
ghost use Rattle.sqlite_trees.specs.View.{IsClean};
ghost use Rattle.sqlite_wal.specs.Files.{seen_image, image_at};
ghost use Rattle.sqlite_wal.specs.PageSize.{bytes_of};
ghost use Rattle.sqlite_pool.specs.Stored.{used_size};
ghost use Rattle.sqlite_store.specs.Catalog.{Describes};
ghost use Rattle.sqlite_store.specs.Unopened.{files_of, state_of, wanted_by};
ghost use Rattle.sqlite_store.specs.FileStore.{view, IsReady};
ghost use Rattle.job_table.specs.File.{IsFoundIn, IsMadeIn};

use sqlite_disk::{Disk, Files, Start};
use sqlite_pager::{Options, Pager};
use sqlite_pool::probe_blank;
use sqlite_std_file::{FileFrom, OpenError as PathError, open};
use sqlite_store::{FileStore, OpenError, Unopened};
use sqlite_trees::schema::Object;
use sqlite_trees::store::Shape;
use sqlite_wal::PageSize;
use std::alloc::{AllocError, Global};
use std::hash::{BuildHasher, RandomState};
use std::io;
use thiserror::Error;

/// The text that makes the table.
pub const JOB_TABLE: &str =
    "CREATE TABLE job (id INTEGER PRIMARY KEY, deadline INTEGER, turn INTEGER, attempts INTEGER, payload BLOB) STRICT";

/// The object that the table is in its database.
pub const JOB_OBJECT: Object<'static> = Object {
    shape: Shape::Table,
    kind: "table",
    name: "job",
    table: "job",
    reals: 0,
    sql: Some(JOB_TABLE),
};

const PAGE: usize = 4096;

/// The log is copied into the file once it has this many pages.
const CHECKPOINT_FRAMES: usize = 16;

/// Why a file isn't opened. The file is unchanged, unless it was just made.
#[derive(Clone, Copy, Debug, Error)]
pub enum FileError {
    /// The path can't be opened.
    #[error("{0}")]
    Path(io::Error),
    /// Another process, or another handle of this one, has the file.
    #[error("the file is in use")]
    InUse,
    /// A rollback journal of SQLite lies beside the file.
    #[error("a rollback journal lies beside the file: open it with sqlite3 first")]
    HotJournal,
    /// It is no database with this table alone, or it is damaged.
    #[error("the file is no agenda, or it is damaged")]
    NotAnAgenda,
    /// The device failed.
    #[error("the device failed")]
    Device,
    /// The device has no room.
    #[error("the device is full")]
    NoRoom,
    /// No memory was left.
    #[error("out of memory")]
    OutOfMemory,
}

impl From<PathError> for FileError {
    fn from(error: PathError) -> Self {
        match error {
            PathError::Io(error) => FileError::Path(error),
            PathError::OutOfMemory => FileError::OutOfMemory,
            PathError::Busy => FileError::InUse,
            PathError::HotJournal => FileError::HotJournal,
        }
    }
}

impl From<OpenError> for FileError {
    fn from(error: OpenError) -> Self {
        match error {
            OpenError::Refused => FileError::NotAnAgenda,
            OpenError::Io => FileError::Device,
            OpenError::Full => FileError::NoRoom,
            OpenError::OutOfMemory => FileError::OutOfMemory,
        }
    }
}

impl From<io::Error> for FileError {
    fn from(error: io::Error) -> Self {
        FileError::Path(error)
    }
}

/// Opens the table of jobs of a file, or makes it. `S` stands for what the file and its log held: pass [`Wary`](sqlite_disk::Wary).
///
/// The file is locked until the store is dropped.
pub fn open_file<S: Start>(
    rt: &HostRuntime,
    path: &str,
    start: S,
) -> Result<FileStore<FileFrom<S>>, FileError>
    ensures ready { IfOk result IsReady }
    ensures found { IfOk result (λ it. IsClean (view it) → IsFoundIn (image_at S.Start) it) }
{
    let files = open(rt, path, start)?;
    let seed = RandomState::new(rt)?.hash_one(&0u8);
    open_rows(rt.alloc(), files, seed)
}

/// Opens the table of jobs of a database file and its log, or makes it. `seed` is to be drawn at random.
pub fn open_rows<D: Disk + Drop>(
    alloc: Global,
    mut files: Files<D>,
    seed: u64,
) -> Result<FileStore<D>, FileError>
    requires log { IsTrue (D.Disk.is_usable files.log) }
    requires db { IsTrue (D.Disk.is_usable files.db) }
    ensures ready { IfOk result IsReady }
    ensures found { IfOk result (λ it. IsClean (view it) → IsFoundIn (seen_image D.Disk files.log files.db) it) }
{
    let Some(size) = PageSize::new(PAGE) else {
        return Err(FileError::NotAnAgenda);
    };
    let objects = &[JOB_OBJECT];
    let mut options = Options::new(seed);
    options.checkpoint_frames = CHECKPOINT_FRAMES;
    let Ok(is_blank) = probe_blank(alloc, &mut files, size, true) else {
        return Err(FileError::Device);
    };
    if is_blank {
        return make(alloc, files, size, options, objects);
    }
    let fresh = unopened(alloc, files, size, options, objects)?;
    match fresh.open_numbered() {
        Ok(store) => Ok(store),
        // A file that was half made has no table yet. `create` refuses every other.
        Err((OpenError::Refused, left)) => make(alloc, left.close(), size, options, objects),
        Err((error, _)) => Err(error.into()),
    }
}

fn unopened<D: Disk + Drop>(
    alloc: Global,
    files: Files<D>,
    size: PageSize,
    options: Options,
    objects: &[Object<'_>],
) -> Result<Unopened<D>, FileError>
    ensures files { IfOk result (λ it. files_of it ≡ (files.log, files.db)) }
    ensures size { IfOk result (λ it. (state_of it).page_size ≡ used_size (bytes_of size) true) }
    ensures schema { IfOk result (λ it. Describes (wanted_by it) objects.now) }
{
    let Ok(pager) = Pager::new(alloc, files, size, options) else {
        return Err(FileError::OutOfMemory);
    };
    match Unopened::with_sums(alloc, pager, objects, true) {
        Ok(unopened) => Ok(unopened),
        Err(_) => Err(FileError::OutOfMemory),
    }
}

// Makes the table in a file that has none yet.
fn make<D: Disk + Drop>(
    alloc: Global,
    files: Files<D>,
    size: PageSize,
    options: Options,
    objects: &[Object<'_>],
) -> Result<FileStore<D>, FileError>
    ensures ready { IfOk result IsReady }
    ensures made { IfOk result (λ it. IsClean (view it) → IsMadeIn files.log files.db (used_size (bytes_of size) true) objects.now it) }
{
    if !files.log.may_be_used() || !files.db.may_be_used() {
        return Err(FileError::Device);
    }
    let fresh = unopened(alloc, files, size, options, objects)?;
    match fresh.create() {
        Ok(store) => Ok(store),
        Err((error, _)) => Err(error.into()),
    }
}
