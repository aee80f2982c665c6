//! `Table`: jobs in a table of a database, and the transaction over it.

ghost use Rattle.std.specs.Prelude.{⊤, ◌≡◌, ◌≢◌, Err, [], ◌∷◌, ◌<◌, ◌≤◌, ◌⊎◌, ◌^◌, ℕ, IsTrue, IsSome, Some, IfOk, IfErr, OnOk, OnErr, length, false};
ghost use Rattle.sqlite_trees.specs.Tree.{Trees};
ghost use Rattle.sqlite_trees.specs.View.{IsClean, IsQuiet};
ghost use Rattle.job_table.specs.Plan.{Plan, empty, scheduled, cancelled, replaced, job_at};
ghost use Rattle.job_table.specs.Table.{Holds, HasSameTrees, IsLeft, IsBegun, TreesStandFor, next_row};
ghost use Rattle.job_table.specs.Entries.{plan_of};
ghost use Rattle.job_table.specs.Causes.{HasFault, IsCause};

use crate::checkpoint::Checkpoint;
use crate::error::StoreError;
use crate::load::load;
use crate::rows::{Entry, JOBS, MAX_BYTES, MAX_DEADLINE, MAX_NUMBER, delete, put_job, put_next};
use sqlite_trees::store::{Direction, Reopen, Shape, Store as Rows};
use sqlite_value::row::Row;
use std::alloc::Global;

/// Jobs in a table. What a call changes lasts once `commit` has returned.
#[derive(Drop)]
pub struct Table<S: Rows> {
    pub(crate) rows: S,
    pub(crate) row: Row,
    pub(crate) next: u64,
    pub(crate) next_turn: u64,
    pub(crate) is_open: bool,
}

impl<S: Rows> Table<S> {
    /// Reads the jobs of a table that was just opened, and returns them in the order in which they leave. An error gives the rows back.
    ///
    /// It writes nothing, so a crash on the way leaves what it could leave before.
    pub fn open(alloc: Global, mut rows: S) -> Result<(Table<S>, Vec<Entry>), (StoreError, S)>
        ensures plan { IfOk result (λ r. IsClean (S.Store.view r.0.rows) → Holds S.Store r.0 (plan_of r.1.items r.0.next)) }
        ensures stands { IfOk result (λ r. IsClean (S.Store.view r.0.rows) → TreesStandFor (S.Store.view rows).trees (plan_of r.1.items r.0.next)) }
        ensures same { IfOk result (λ r. IsClean (S.Store.view r.0.rows) → HasSameTrees (S.Store.view rows) (S.Store.view r.0.rows)) }
        ensures crash { IfOk result (λ r. (trees : Trees) → S.Store.recovers r.0.rows trees → S.Store.recovers rows trees) }
        ensures crash_err { IfErr result (λ e. (trees : Trees) → S.Store.recovers e.1 trees → S.Store.recovers rows trees) }
    {
        match load(alloc, &mut rows) {
            Ok((entries, next, next_turn)) => Ok((
                Table {
                    rows,
                    row: Row::new(alloc),
                    next,
                    next_turn,
                    is_open: true,
                },
                entries,
            )),
            Err(error) => Err((error, rows)),
        }
    }

    /// Makes an empty table one of no jobs, whose numbers begin with 1. An error gives the rows back.
    pub fn create(alloc: Global, mut rows: S) -> Result<Table<S>, (StoreError, S)>
        ensures plan { IfOk result (λ table. IsClean (S.Store.view table.rows) → Holds S.Store table empty) }
        ensures was { IfOk result (λ table. IsClean (S.Store.view table.rows) → (S.Store.view rows).trees 0 ≡ []) }
        ensures crash { IfOk result (λ table. IsClean (S.Store.view table.rows) → (trees : Trees) → S.Store.recovers table.rows trees
            → TreesStandFor trees empty) }
        ensures clean { IfOk result (λ table. IsClean (S.Store.view table.rows) → IsClean (S.Store.view rows)) }
        ensures crash_err { IfErr result (λ e. IsClean (S.Store.view e.1) → (trees : Trees) → S.Store.recovers e.1 trees
            → TreesStandFor trees empty ⊎ S.Store.recovers rows trees) }
    {
        let mut row = Row::new(alloc);
        match begin(&mut rows, &mut row) {
            Ok(()) => Ok(Table {
                rows,
                row,
                next: 1,
                next_turn: 0,
                is_open: true,
            }),
            Err(error) => Err((error, rows)),
        }
    }

    /// Undoes what was not committed, and reads the jobs of the last commit, in the order in which they leave.
    pub fn rollback(&mut self, alloc: Global) -> Result<Vec<Entry>, StoreError>
        ensures plan { IfOk result (λ entries. IsClean (S.Store.view self.new.rows) → Holds S.Store self.new (plan_of entries.items self.new.next)) }
        ensures found { IfOk result (λ entries. IsClean (S.Store.view self.new.rows) → IsLeft S.Store self.old.rows (plan_of entries.items self.new.next)) }
        ensures settled { IfOk result (λ entries. IsClean (S.Store.view self.new.rows) → (trees : Trees) → S.Store.recovers self.new.rows trees
            → TreesStandFor trees (plan_of entries.items self.new.next)) }
        ensures was_open { OnOk result (IsClean (S.Store.view self.new.rows) → IsTrue (S.Store.view self.old.rows).is_open) }
        ensures closed { OnErr result (self.new.is_open ≡ false) }
        ensures clean { IsClean (S.Store.view self.new.rows) → IsClean (S.Store.view self.old.rows) }
        ensures crash { (trees : Trees) → S.Store.recovers self.new.rows trees → S.Store.recovers self.old.rows trees }
    {
        self.is_open = false;
        self.rows.rollback();
        let (entries, next, next_turn) = load(alloc, &mut self.rows)?;
        self.next = next;
        self.next_turn = next_turn;
        self.is_open = true;
        Ok(entries)
    }

    /// Returns the rows. What was not committed is lost.
    pub fn into_rows(self) -> S
        ensures { result ≡ self.rows }
    {
        self.rows
    }

    /// Returns the number that the next job gets.
    pub fn next_number(&self) -> u64
        ensures { result ≡ self.now.next }
    {
        self.next
    }

    /// Schedules a job, behind those that aren't due later, and returns its number.
    pub fn schedule(&mut self, deadline: u64, bytes: &[u8]) -> Result<u64, StoreError>
        ensures ok { OnOk result (IsClean (S.Store.view self.new.rows) → (plan : Plan) → Holds S.Store self.old plan
            → Holds S.Store self.new (scheduled deadline bytes.now plan)) }
        ensures id { IfOk result (λ id. (plan : Plan) → Holds S.Store self.old plan → id ≡ plan.next) }
        ensures cause { IfErr result (λ e. IsClean (S.Store.view self.new.rows) → (plan : Plan) → Holds S.Store self.old plan
            → IsCause (HasFault S.Store self.old.rows self.new.rows) ⊥ ⊤ (MAX_BYTES < length bytes.now) (MAX_DEADLINE < deadline) e) }
        ensures err { OnErr result ((self.new ≡ self.old) ⊎ (self.new.is_open ≡ false)) }
        ensures clean { IsClean (S.Store.view self.new.rows) → IsClean (S.Store.view self.old.rows) }
        ensures crash { (trees : Trees) → S.Store.recovers self.new.rows trees → S.Store.recovers self.old.rows trees }
    {
        if !self.is_open {
            return Err(StoreError::Closed);
        }
        if bytes.len() > MAX_BYTES {
            return Err(StoreError::TooLong);
        }
        if deadline > MAX_DEADLINE {
            return Err(StoreError::TooLate);
        }
        let (id, turn) = (self.next, self.next_turn);
        if id > MAX_NUMBER || turn > MAX_NUMBER {
            return Err(StoreError::Full);
        }
        self.is_open = false;
        put_job(&mut self.rows, &mut self.row, id, deadline, turn, 0, bytes)?;
        put_next(&mut self.rows, &mut self.row, id + 1)?;
        self.next = id + 1;
        self.next_turn = turn + 1;
        self.is_open = true;
        Ok(id)
    }

    /// Deletes the row of the job of a number, which the caller knows to be there.
    pub fn cancel(&mut self, id: u64) -> Result<(), StoreError>
        ensures ok { OnOk result (IsClean (S.Store.view self.new.rows) → (plan : Plan) → Holds S.Store self.old plan
            → IsSome (job_at id plan.jobs) → Holds S.Store self.new (cancelled id plan)) }
        ensures cause { IfErr result (λ e. IsClean (S.Store.view self.new.rows) → (plan : Plan) → Holds S.Store self.old plan
            → IsCause (HasFault S.Store self.old.rows self.new.rows) ⊥ (MAX_NUMBER < id) ⊥ ⊥ e) }
        ensures err { OnErr result ((self.new ≡ self.old) ⊎ (self.new.is_open ≡ false)) }
        ensures clean { IsClean (S.Store.view self.new.rows) → IsClean (S.Store.view self.old.rows) }
        ensures crash { (trees : Trees) → S.Store.recovers self.new.rows trees → S.Store.recovers self.old.rows trees }
    {
        if !self.is_open {
            return Err(StoreError::Closed);
        }
        if id > MAX_NUMBER {
            return Err(StoreError::Full);
        }
        self.is_open = false;
        delete(&mut self.rows, id)?;
        self.is_open = true;
        Ok(())
    }

    /// Puts a job in place of the one of its number, which the caller knows to be there. It goes behind all other jobs that aren't due later.
    pub fn replace(
        &mut self,
        id: u64,
        deadline: u64,
        attempts: u64,
        bytes: &[u8],
    ) -> Result<(), StoreError>
        ensures ok { OnOk result (IsClean (S.Store.view self.new.rows) → (plan : Plan) → Holds S.Store self.old plan
            → IsSome (job_at id plan.jobs)
            → Holds S.Store self.new (replaced (record { id = id; deadline = deadline; attempts = attempts; bytes = bytes.now }) plan)) }
        ensures cause { IfErr result (λ e. IsClean (S.Store.view self.new.rows) → (plan : Plan) → Holds S.Store self.old plan
            → IsCause (HasFault S.Store self.old.rows self.new.rows) ⊥ ⊤ (MAX_BYTES < length bytes.now) (MAX_DEADLINE < deadline) e) }
        ensures err { OnErr result ((self.new ≡ self.old) ⊎ (self.new.is_open ≡ false)) }
        ensures clean { IsClean (S.Store.view self.new.rows) → IsClean (S.Store.view self.old.rows) }
        ensures crash { (trees : Trees) → S.Store.recovers self.new.rows trees → S.Store.recovers self.old.rows trees }
    {
        if !self.is_open {
            return Err(StoreError::Closed);
        }
        if bytes.len() > MAX_BYTES {
            return Err(StoreError::TooLong);
        }
        if deadline > MAX_DEADLINE {
            return Err(StoreError::TooLate);
        }
        let turn = self.next_turn;
        if id > MAX_NUMBER || turn > MAX_NUMBER || attempts > MAX_NUMBER {
            return Err(StoreError::Full);
        }
        self.is_open = false;
        put_job(
            &mut self.rows,
            &mut self.row,
            id,
            deadline,
            turn,
            attempts,
            bytes,
        )?;
        self.next_turn = turn + 1;
        self.is_open = true;
        Ok(())
    }

    /// Makes what has changed last. After `Ok` every crash leaves it; a crash on the way leaves it whole, or not at all.
    pub fn commit(&mut self) -> Result<(), StoreError>
        ensures ok { OnOk result (IsClean (S.Store.view self.new.rows) → (plan : Plan) → Holds S.Store self.old plan
            → Holds S.Store self.new plan) }
        ensures durable { OnOk result (IsClean (S.Store.view self.new.rows) → (plan : Plan) → Holds S.Store self.old plan
            → (trees : Trees) → S.Store.recovers self.new.rows trees → TreesStandFor trees plan) }
        ensures cause { IfErr result (λ e. IsClean (S.Store.view self.new.rows) → (plan : Plan) → Holds S.Store self.old plan
            → IsCause (HasFault S.Store self.old.rows self.new.rows) ⊥ ⊥ ⊥ ⊥ e) }
        ensures err { OnErr result ((self.new ≡ self.old) ⊎ (self.new.is_open ≡ false)) }
        ensures undone { OnErr result (IsClean (S.Store.view self.new.rows) → IsTrue (S.Store.view self.new.rows).is_open → (trees : Trees)
            → S.Store.recovers self.new.rows trees → S.Store.recovers self.old.rows trees) }
        ensures clean { IsClean (S.Store.view self.new.rows) → IsClean (S.Store.view self.old.rows) }
        ensures crash { IsClean (S.Store.view self.new.rows) → (plan : Plan) → Holds S.Store self.old plan
            → (trees : Trees) → S.Store.recovers self.new.rows trees → TreesStandFor trees plan ⊎ S.Store.recovers self.old.rows trees }
    {
        if !self.is_open {
            return Err(StoreError::Closed);
        }
        self.is_open = false;
        self.rows.commit()?;
        self.is_open = true;
        Ok(())
    }
}

impl<S: Checkpoint> Table<S> {
    /// Copies the log of the rows into their database file.
    ///
    /// # Errors
    ///
    /// The table is closed; if the rows are still open, nothing else changed.
    pub fn checkpoint(&mut self) -> Result<(), StoreError>
        ensures ok { OnOk result (IsClean (S.Store.view self.new.rows) → (plan : Plan) → Holds S.Store self.old plan
            → Holds S.Store self.new plan) }
        ensures cause { IfErr result (λ e. IsClean (S.Store.view self.new.rows) → (plan : Plan) → Holds S.Store self.old plan
            → IsCause (HasFault S.Store self.old.rows self.new.rows) ⊥ ⊥ ⊥ ⊥ e) }
        ensures err { OnErr result ((self.new ≡ self.old) ⊎ (self.new.is_open ≡ false)) }
        ensures clean { IsClean (S.Store.view self.new.rows) → IsClean (S.Store.view self.old.rows) }
        ensures crash { (trees : Trees) → S.Store.recovers self.new.rows trees → S.Store.recovers self.old.rows trees }
    {
        if !self.is_open {
            return Err(StoreError::Closed);
        }
        self.is_open = false;
        self.rows.checkpoint()?;
        self.is_open = true;
        Ok(())
    }
}

impl<S: Reopen> Table<S> {
    /// Crashes, opens the rows again, and reads the jobs that are left, in the order in which they leave.
    pub fn reopen(&mut self, alloc: Global) -> Result<Vec<Entry>, StoreError>
        ensures plan { IfOk result (λ entries. IsClean (S.Store.view self.new.rows) → Holds S.Store self.new (plan_of entries.items self.new.next)) }
        ensures found { IfOk result (λ entries. IsClean (S.Store.view self.new.rows) → IsLeft S.Store self.old.rows (plan_of entries.items self.new.next)) }
        ensures settled { IfOk result (λ entries. IsClean (S.Store.view self.new.rows) → (trees : Trees) → S.Store.recovers self.new.rows trees
            → TreesStandFor trees (plan_of entries.items self.new.next)) }
        ensures clean { IsClean (S.Store.view self.new.rows) → IsClean (S.Store.view self.old.rows) }
    {
        self.is_open = false;
        self.rows.crash_and_reopen()?;
        let (entries, next, next_turn) = load(alloc, &mut self.rows)?;
        self.next = next;
        self.next_turn = next_turn;
        self.is_open = true;
        Ok(entries)
    }
}

// Writes the row of the first number into a table without a row, and commits it.
fn begin<S: Rows>(rows: &mut S, row: &mut Row) -> Result<(), StoreError>
    ensures ok { OnOk result (IsClean (S.Store.view rows.new) → IsBegun (S.Store.view rows.old) (S.Store.view rows.new)) }
    ensures crash { OnOk result (IsClean (S.Store.view rows.new) → (trees : Trees) → S.Store.recovers rows.new trees → trees 0 ≡ next_row 1 ∷ []) }
    ensures clean { IsClean (S.Store.view rows.new) → IsClean (S.Store.view rows.old) }
    ensures crash_err { IsClean (S.Store.view rows.new) → (trees : Trees) → S.Store.recovers rows.new trees
        → (trees 0 ≡ next_row 1 ∷ []) ⊎ S.Store.recovers rows.old trees }
{
    if rows.shape(JOBS) != Shape::Table {
        return Err(StoreError::NotAnAgenda);
    }
    row.clear();
    rows.seek(0, JOBS, row, Direction::Forward)?;
    if rows.next(0, row)? {
        return Err(StoreError::NotAnAgenda);
    }
    put_next(rows, row, 1)?;
    rows.commit()?;
    Ok(())
}

/// Returns whether a table has no row yet, as after a crash on the way to its first. It writes nothing.
pub fn is_unused<S: Rows>(alloc: Global, rows: &mut S) -> Result<bool, StoreError>
    ensures none { IfOk result (λ is. IsTrue is → IsClean (S.Store.view rows.new) → (S.Store.view rows.old).trees 0 ≡ []) }
    ensures same { OnOk result (IsClean (S.Store.view rows.new) → HasSameTrees (S.Store.view rows.old) (S.Store.view rows.new)) }
    ensures shape { result ≡ Err StoreError.NotAnAgenda → (S.Store.view rows.old).shape 0 ≢ Shape.Table }
    ensures quiet { IsQuiet S.Store.view S.Store.faults S.Store.recovers S.Store.is_shielded rows.old rows.new }
{
    if rows.shape(JOBS) != Shape::Table {
        return Err(StoreError::NotAnAgenda);
    }
    let mut row = Row::new(alloc);
    rows.seek(0, JOBS, &row, Direction::Forward)?;
    if rows.next(0, &mut row)? {
        return Ok(false);
    }
    Ok(true)
}
