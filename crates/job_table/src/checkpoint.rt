//! `Checkpoint`: rows whose log can be copied into their database file.

ghost use Rattle.std.specs.Prelude.{◌≡◌, IsTrue, IfErr, OnOk};
ghost use Rattle.sqlite_disk.specs.Disk.{MoreFaults};
ghost use Rattle.sqlite_trees.specs.View.{IsClean, IsQuiet, HasCause};

use sqlite_disk::Disk;
use sqlite_store::FileStore;
use sqlite_trees::error::StoreError as RowsError;
use sqlite_trees::memory::MemStore;
use sqlite_trees::store::Store as Rows;

/// Rows whose log can be copied into their database file, so that the log is short.
pub trait Checkpoint: Rows {
    /// Copies the log into the database file, if there is one. A failure that leaves the rows open changes nothing.
    fn checkpoint(&mut self) -> Result<(), RowsError>
        ensures open { OnOk result (IsClean (Self.Store.view self.new) → IsTrue (Self.Store.view self.new).is_open) }
        ensures same { IsTrue (Self.Store.view self.new).is_open → Self.Store.view self.new ≡ Self.Store.view self.old }
        ensures cause { IfErr result (λ e. IsClean (Self.Store.view self.new)
            → HasCause (Self.Store.view self.old) (MoreFaults (Self.Store.faults self.old) (Self.Store.faults self.new)) ⊥ e) }
        ensures quiet { IsQuiet Self.Store.view Self.Store.faults Self.Store.recovers Self.Store.is_shielded self.old self.new };
}

impl<D: Disk> Checkpoint for FileStore<D> {
    fn checkpoint(&mut self) -> Result<(), RowsError> {
        FileStore::checkpoint(self)
    }
}

impl Checkpoint for MemStore {
    fn checkpoint(&mut self) -> Result<(), RowsError> {
        Ok(())
    }
}
