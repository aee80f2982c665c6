//! `Store`: an agenda in a table.

ghost use Rattle.std.specs.Prelude.{⊤, ◌≡◌, ◌<◌, ◌⊎◌, IsTrue, IsSomeAnd, IfOk, IfErr, OnOk, OnErr, length, is_some};
ghost use Rattle.std.specs.Option.{option_map};
ghost use Rattle.sqlite_trees.specs.Tree.{Trees};
ghost use Rattle.sqlite_trees.specs.View.{IsClean};
ghost use Rattle.job_table.specs.Plan.{Plan, empty, scheduled, cancelled, moved, claimed, attempted, without_due, first_due, first_job, job_at, first_deadline, IsLawful};
ghost use Rattle.job_table.specs.Table.{IsLeft, TreesStandFor, rows_of};
ghost use Rattle.job_table.specs.Causes.{HasFault, IsCause};
ghost use Rattle.agenda_store.specs.Requests.{IsSettled};
ghost use Rattle.agenda_store.specs.Planner.{plan_of, IsLinked};
ghost use Rattle.job_table.specs.Entries.{plan_of as read_plan};
ghost use Rattle.agenda_store.specs.Store.{owned, lent, IsKept, IsClosed};

use crate::iter::Iter;
use crate::job::{Job, JobId, JobRef};
use crate::planner::Planner;
use job_table::{
    Checkpoint, Entry, MAX_BYTES, MAX_DEADLINE, MAX_NUMBER, StoreError, Table, is_unused,
};
use sqlite_trees::store::{Reopen, Store as Rows};
use std::alloc::Global;
use std::marker::Model;

/// A durable agenda: jobs by deadline, in a table of a database, with an index in memory.
///
/// A change lasts once [`commit`](Self::commit) has returned `Ok`. A call that fails midway closes the store: [`rollback`](Self::rollback) goes
/// back to the last commit, or the file has to be opened again. A refused request (`TooLong`, `TooLate`) changes nothing.
///
/// In the examples `store` is an open agenda without jobs, as [`open`](Self::open) returns it.
#[derive(Drop)]
pub struct Store<S: Rows> {
    pub(crate) alloc: Global,
    pub(crate) planner: Planner,
    pub(crate) table: Table<S>,
    pub(crate) is_open: bool,
}

impl<S: Rows> Model for Store<S> {
    ghost use Rattle.agenda_store.specs.Store.{Store};

    ghost Value = { Store S };

    ghost use Rattle.agenda_store.specs.StoreLayout.{store_of, IsStore};

    ghost view = { λ s. store_of s.planner s.table s.is_open };

    ghost invariant = { λ s. IsStore S.Store s.planner s.table s.is_open };
}

impl<S: Rows> Store<S> {
    /// Opens the agenda of a table that was just opened, and reads its jobs.
    ///
    /// A table without a row was just made, or a crash came while it was being made: the row of the first number is committed. Any other
    /// table is only read.
    ///
    /// ```
    /// let rows = MemStore::new(rt.alloc(), &[JOB_OBJECT])?;
    /// let store = Store::open(rt.alloc(), rows).map_err(|failed| failed.0)?;
    /// assert_eq!(rt; store.len(), 0);
    /// ```
    ///
    /// # Errors
    ///
    /// Returns the rows. `NotAnAgenda`: the rows are not those of an agenda.
    ///
    /// # Complexity
    ///
    /// O(n log n).
    pub fn open(alloc: Global, mut rows: S) -> Result<Store<S>, (StoreError, S)>
        ensures open { IfOk result (λ store. IsTrue store.is_open) }
        ensures stands { IfOk result (λ store. IsClean (S.Store.view (rows_of store.table)) → TreesStandFor (S.Store.view rows).trees store.plan) }
        ensures clean { IfOk result (λ store. IsClean (S.Store.view (rows_of store.table)) → IsClean (S.Store.view rows)) }
        ensures crash { IfOk result (λ store. IsClean (S.Store.view (rows_of store.table)) → (trees : Trees)
            → S.Store.recovers (rows_of store.table) trees → TreesStandFor trees store.plan ⊎ S.Store.recovers rows trees) }
        ensures crash_err { IfErr result (λ e. IsClean (S.Store.view e.1) → (trees : Trees)
            → S.Store.recovers e.1 trees → TreesStandFor trees empty ⊎ S.Store.recovers rows trees) }
    {
        match is_unused(alloc, &mut rows) {
            Ok(true) => Store::begin(alloc, rows),
            Ok(false) => Store::read(alloc, rows),
            Err(error) => Err((error, rows)),
        }
    }

    // Makes a table without a row that of an agenda without jobs.
    fn begin(alloc: Global, rows: S) -> Result<Store<S>, (StoreError, S)>
        ensures open { IfOk result (λ store. IsTrue store.is_open) }
        ensures plan { IfOk result (λ store. store.plan ≡ empty) }
        ensures clean { IfOk result (λ store. IsClean (S.Store.view (rows_of store.table)) → IsClean (S.Store.view rows)) }
        ensures crash { IfOk result (λ store. IsClean (S.Store.view (rows_of store.table)) → (trees : Trees)
            → S.Store.recovers (rows_of store.table) trees → TreesStandFor trees empty) }
        ensures crash_err { IfErr result (λ e. IsClean (S.Store.view e.1) → (trees : Trees)
            → S.Store.recovers e.1 trees → TreesStandFor trees empty ⊎ S.Store.recovers rows trees) }
    {
        match Table::create(alloc, rows) {
            Ok(table) => Ok(Store {
                alloc,
                planner: Planner::new(alloc),
                table,
                is_open: true,
            }),
            Err(failed) => Err(failed),
        }
    }

    // Reads the jobs of a table. It writes nothing.
    fn read(alloc: Global, rows: S) -> Result<Store<S>, (StoreError, S)>
        ensures open { IfOk result (λ store. IsTrue store.is_open) }
        ensures stands { IfOk result (λ store. IsClean (S.Store.view (rows_of store.table)) → TreesStandFor (S.Store.view rows).trees store.plan) }
        ensures clean { IfOk result (λ store. IsClean (S.Store.view (rows_of store.table)) → IsClean (S.Store.view rows)) }
        ensures crash { IfOk result (λ store. (trees : Trees) → S.Store.recovers (rows_of store.table) trees → S.Store.recovers rows trees) }
        ensures crash_err { IfErr result (λ e. (trees : Trees) → S.Store.recovers e.1 trees → S.Store.recovers rows trees) }
    {
        let (table, entries) = match Table::open(alloc, rows) {
            Ok(opened) => opened,
            Err(failed) => return Err(failed),
        };
        match build(alloc, &entries, table.next_number()) {
            Ok(planner) => Ok(Store {
                alloc,
                planner,
                table,
                is_open: true,
            }),
            Err(error) => Err((error, table.into_rows())),
        }
    }

    /// Returns whether the store is open: no failed call has closed it.
    pub fn is_open(&self) -> bool
        ensures { result ≡ self.now.is_open }
    {
        self.is_open
    }

    /// Returns the table, which holds the plan while the store is open and the disk clean.
    pub fn table(&self) -> &Table<S>
        ensures value { result.now ≡ self.now.table }
        ensures kept { IsKept S.Store self.now }
    {
        &self.table
    }

    /// Returns the number of jobs.
    pub fn len(&self) -> usize
        ensures { result ≡ length self.now.plan.jobs }
    {
        self.planner.len()
    }

    /// Returns an iterator over the jobs, in the order in which they leave.
    pub fn iter(&self) -> Iter<'_>
        ensures { result ≡ self.now.plan.jobs }
    {
        Iter {
            entries: self.planner.agenda.iter(),
        }
    }

    /// Schedules a job after every job with a deadline at most its own, and returns its number.
    ///
    /// ```
    /// let report = store.schedule(30, b"report")?;
    /// let tea = store.schedule(10, b"tea")?;
    /// store.commit()?;
    /// assert!(rt; report < tea);
    /// assert_eq!(rt; store.next_deadline(), Some(10));
    /// ```
    ///
    /// # Errors
    ///
    /// - `TooLong`: more than 65,536 bytes. `TooLate`: the deadline is above 2^63 - 1. `Closed`. The store is unchanged.
    /// - Any other: the store is unchanged, or closed.
    ///
    /// # Complexity
    ///
    /// O(log n), plus O(n) when the index grows (amortized O(1)).
    pub fn schedule(&mut self, deadline: u64, bytes: &[u8]) -> Result<JobId, StoreError>
        ensures plan { OnOk result (self.new.plan ≡ scheduled deadline bytes.now self.old.plan) }
        ensures open { OnOk result (IsTrue self.new.is_open) }
        ensures id { IfOk result (λ id. id.0 ≡ self.old.plan.next) }
        ensures cause { IfErr result (λ e. IsClean (S.Store.view (rows_of self.new.table))
            → IsCause (HasFault S.Store (rows_of self.old.table) (rows_of self.new.table)) (IsClosed self.old) ⊤ (MAX_BYTES < length bytes.now) (MAX_DEADLINE < deadline) e) }
        ensures err { OnErr result ((self.new ≡ self.old) ⊎ IsClosed self.new) }
        ensures clean { IsClean (S.Store.view (rows_of self.new.table)) → IsClean (S.Store.view (rows_of self.old.table)) }
        ensures crash { (trees : Trees) → S.Store.recovers (rows_of self.new.table) trees → S.Store.recovers (rows_of self.old.table) trees }
    {
        if !self.is_open {
            return Err(StoreError::Closed);
        }
        if bytes.len() > MAX_BYTES {
            return Err(StoreError::TooLong);
        }
        if deadline > MAX_DEADLINE {
            return Err(StoreError::TooLate);
        }
        let job = Vec::from_slice(self.alloc, bytes)?;
        self.is_open = false;
        self.table.schedule(deadline, bytes)?;
        let id = self.planner.schedule(deadline, job)?;
        self.is_open = true;
        Ok(JobId(id))
    }

    /// Removes the job of a number and returns it, in O(log n). If the number names no job, returns `None` and nothing changes.
    ///
    /// ```
    /// let tea = store.schedule(10, b"tea")?;
    /// assert_eq!(rt; store.cancel(tea)?.map(|job| job.deadline), Some(10));
    /// assert!(rt; store.cancel(tea)?.is_none());
    /// ```
    ///
    /// # Errors
    ///
    /// The store is unchanged, or closed.
    pub fn cancel(&mut self, id: JobId) -> Result<Option<Job>, StoreError>
        ensures plan { OnOk result (self.new.plan ≡ cancelled id.0 self.old.plan) }
        ensures open { OnOk result (IsTrue self.new.is_open) }
        ensures value { IfOk result (λ job. option_map owned job ≡ job_at id.0 self.old.plan.jobs) }
        ensures cause { IfErr result (λ e. IsClean (S.Store.view (rows_of self.new.table))
            → IsCause (HasFault S.Store (rows_of self.old.table) (rows_of self.new.table)) (IsClosed self.old) (MAX_NUMBER < id.0) ⊥ ⊥ e) }
        ensures err { OnErr result ((self.new ≡ self.old) ⊎ IsClosed self.new) }
        ensures clean { IsClean (S.Store.view (rows_of self.new.table)) → IsClean (S.Store.view (rows_of self.old.table)) }
        ensures crash { (trees : Trees) → S.Store.recovers (rows_of self.new.table) trees → S.Store.recovers (rows_of self.old.table) trees }
    {
        if !self.is_open {
            return Err(StoreError::Closed);
        }
        if !self.planner.has(id.0) {
            return Ok(None);
        }
        self.is_open = false;
        self.table.cancel(id.0)?;
        let job = self.planner.cancel(id.0);
        self.is_open = true;
        Ok(job)
    }

    /// Gives the job of a number another deadline and returns whether there is such a job, in O(log n). The number stays.
    ///
    /// The job goes behind all other jobs whose deadline is at most its own, also if its deadline doesn't change.
    ///
    /// ```
    /// let tea = store.schedule(10, b"tea")?;
    /// assert!(rt; store.reschedule(tea, 40)?);
    /// assert_eq!(rt; store.get(tea).map(|job| job.deadline), Some(40));
    /// ```
    ///
    /// # Errors
    ///
    /// - `TooLate`: the deadline is above 2^63 - 1. The store is unchanged.
    /// - Any other: the store is unchanged, or closed.
    pub fn reschedule(&mut self, id: JobId, deadline: u64) -> Result<bool, StoreError>
        ensures plan { OnOk result (self.new.plan ≡ moved id.0 deadline self.old.plan) }
        ensures value { IfOk result (λ is_found. is_found ≡ is_some (job_at id.0 self.old.plan.jobs)) }
        ensures open { OnOk result (IsTrue self.new.is_open) }
        ensures cause { IfErr result (λ e. IsClean (S.Store.view (rows_of self.new.table))
            → IsCause (HasFault S.Store (rows_of self.old.table) (rows_of self.new.table)) (IsClosed self.old) ⊤ ⊥ (MAX_DEADLINE < deadline) e) }
        ensures err { OnErr result ((self.new ≡ self.old) ⊎ IsClosed self.new) }
        ensures clean { IsClean (S.Store.view (rows_of self.new.table)) → IsClean (S.Store.view (rows_of self.old.table)) }
        ensures crash { (trees : Trees) → S.Store.recovers (rows_of self.new.table) trees → S.Store.recovers (rows_of self.old.table) trees }
    {
        if !self.is_open {
            return Err(StoreError::Closed);
        }
        if deadline > MAX_DEADLINE {
            return Err(StoreError::TooLate);
        }
        let Some(job) = self.planner.get(id.0) else {
            return Ok(false);
        };
        let attempts = job.attempts;
        let bytes = Vec::from_slice(self.alloc, job.bytes)?;
        self.is_open = false;
        self.table.replace(id.0, deadline, attempts, &bytes)?;
        let found = self.planner.reschedule(id.0, deadline);
        self.is_open = true;
        Ok(found)
    }

    /// Returns the deadline of the first job, in O(1).
    pub fn next_deadline(&self) -> Option<u64>
        ensures { result ≡ first_deadline self.now.plan.jobs }
    {
        self.planner.next_deadline()
    }

    /// Returns the job of a number, in O(log n). `None` if the number names no job, or the store is closed.
    pub fn get(&self, id: JobId) -> Option<JobRef<'_>>
        ensures { IsTrue self.now.is_open → option_map lent result ≡ job_at id.0 self.now.plan.jobs }
    {
        if !self.is_open {
            return None;
        }
        self.planner.get(id.0)
    }

    /// Returns the first job, in O(1).
    ///
    /// ```
    /// store.schedule(30, b"report")?;
    /// let tea = store.schedule(10, b"tea")?;
    /// assert_eq!(rt; store.peek().map(|job| job.id), Some(tea));
    /// ```
    pub fn peek(&self) -> Option<JobRef<'_>>
        ensures { option_map lent result ≡ first_job self.now.plan.jobs }
    {
        self.planner.first()
    }

    /// Removes the first job if its deadline is at most `now`, and returns it, in O(log n). If no job is due, returns `None`.
    ///
    /// A caller that fails before the work is done has lost the job: [`claim_due`](Self::claim_due) keeps it.
    ///
    /// ```
    /// let tea = store.schedule(10, b"tea")?;
    /// assert!(rt; store.pop_due(9)?.is_none());
    /// assert_eq!(rt; store.pop_due(10)?.map(|job| job.id), Some(tea));
    /// ```
    ///
    /// # Errors
    ///
    /// The store is unchanged, or closed.
    pub fn pop_due(&mut self, now: u64) -> Result<Option<Job>, StoreError>
        ensures plan { OnOk result (self.new.plan ≡ without_due now self.old.plan) }
        ensures value { IfOk result (λ job. option_map owned job ≡ first_due now self.old.plan.jobs) }
        ensures open { OnOk result (IsTrue self.new.is_open) }
        ensures cause { IfErr result (λ e. IsClean (S.Store.view (rows_of self.new.table))
            → IsCause (HasFault S.Store (rows_of self.old.table) (rows_of self.new.table)) (IsClosed self.old) (IsSomeAnd (first_due now self.old.plan.jobs) (λ job. MAX_NUMBER < job.id)) ⊥ ⊥ e) }
        ensures err { OnErr result ((self.new ≡ self.old) ⊎ IsClosed self.new) }
        ensures clean { IsClean (S.Store.view (rows_of self.new.table)) → IsClean (S.Store.view (rows_of self.old.table)) }
        ensures crash { (trees : Trees) → S.Store.recovers (rows_of self.new.table) trees → S.Store.recovers (rows_of self.old.table) trees }
    {
        if !self.is_open {
            return Err(StoreError::Closed);
        }
        let Some(first) = self.planner.due(now) else {
            return Ok(None);
        };
        let id = first.id;
        self.cancel(id)
    }

    /// Claims the first job if its deadline is at most `now`: counts one more attempt, makes it due again at `until`, and returns it.
    /// O(log n). If no job is due, returns `None`.
    ///
    /// A worker that fails before it has called [`cancel`](Self::cancel) leaves the job to be claimed again from `until` on, so each job is
    /// done at least once.
    ///
    /// ```
    /// let tea = store.schedule(10, b"tea")?;
    /// assert_eq!(rt; store.claim_due(20, 80)?.map(|job| job.id), Some(tea));
    /// assert_eq!(rt; store.get(tea).map(|job| (job.deadline, job.attempts)), Some((80, 1)));
    /// ```
    ///
    /// # Errors
    ///
    /// - `TooLate`: `until` is above 2^63 - 1. The store is unchanged.
    /// - Any other: the store is unchanged, or closed.
    pub fn claim_due(&mut self, now: u64, until: u64) -> Result<Option<Job>, StoreError>
        ensures plan { OnOk result (self.new.plan ≡ claimed now until self.old.plan) }
        ensures value { IfOk result (λ job. option_map owned job ≡ option_map (attempted until) (first_due now self.old.plan.jobs)) }
        ensures open { OnOk result (IsTrue self.new.is_open) }
        ensures cause { IfErr result (λ e. IsClean (S.Store.view (rows_of self.new.table))
            → IsCause (HasFault S.Store (rows_of self.old.table) (rows_of self.new.table)) (IsClosed self.old) ⊤ ⊥ (MAX_DEADLINE < until) e) }
        ensures err { OnErr result ((self.new ≡ self.old) ⊎ IsClosed self.new) }
        ensures clean { IsClean (S.Store.view (rows_of self.new.table)) → IsClean (S.Store.view (rows_of self.old.table)) }
        ensures crash { (trees : Trees) → S.Store.recovers (rows_of self.new.table) trees → S.Store.recovers (rows_of self.old.table) trees }
    {
        if !self.is_open {
            return Err(StoreError::Closed);
        }
        if until > MAX_DEADLINE {
            return Err(StoreError::TooLate);
        }
        let Some(first) = self.planner.due(now) else {
            return Ok(None);
        };
        if first.attempts >= MAX_NUMBER {
            return Err(StoreError::Full);
        }
        let job = Job {
            id: first.id,
            deadline: until,
            attempts: first.attempts + 1,
            bytes: Vec::from_slice(self.alloc, first.bytes)?,
        };
        self.is_open = false;
        self.table
            .replace(job.id.0, until, job.attempts, &job.bytes)?;
        self.planner.attempt(job.id.0, until)?;
        self.is_open = true;
        Ok(Some(job))
    }

    /// Goes back to the last commit. A store that a failed call has closed is open again.
    ///
    /// ```
    /// store.schedule(10, b"tea")?;
    /// store.commit()?;
    /// store.schedule(30, b"report")?;
    /// store.rollback()?;
    /// assert_eq!(rt; store.len(), 1);
    /// ```
    ///
    /// # Errors
    ///
    /// The store is closed. If the disk has shut the rows, no rollback succeeds: open the file again.
    ///
    /// # Complexity
    ///
    /// O(n log n): all jobs are read again.
    pub fn rollback(&mut self) -> Result<(), StoreError>
        ensures open { OnOk result (IsTrue self.new.is_open) }
        ensures found { OnOk result (IsClean (S.Store.view (rows_of self.new.table)) → IsLeft S.Store (rows_of self.old.table) self.new.plan) }
        ensures settled { OnOk result (IsClean (S.Store.view (rows_of self.new.table)) → IsSettled S.Store self.new) }
        ensures closed { OnErr result (IsClosed self.new) }
        ensures was_open { OnOk result (IsClean (S.Store.view (rows_of self.new.table)) → IsTrue (S.Store.view (rows_of self.old.table)).is_open) }
        ensures clean { IsClean (S.Store.view (rows_of self.new.table)) → IsClean (S.Store.view (rows_of self.old.table)) }
        ensures crash { (trees : Trees) → S.Store.recovers (rows_of self.new.table) trees → S.Store.recovers (rows_of self.old.table) trees }
    {
        self.is_open = false;
        let entries = self.table.rollback(self.alloc)?;
        self.planner = build(self.alloc, &entries, self.table.next_number())?;
        self.is_open = true;
        Ok(())
    }

    /// Returns the rows. What was not committed is lost.
    pub fn into_rows(self) -> S
        ensures { result ≡ rows_of self.table }
    {
        self.table.into_rows()
    }

    /// Makes all changes durable. After `Ok` every crash leaves the plan. A crash during the call leaves the plan, or what a crash could leave
    /// before.
    ///
    /// # Errors
    ///
    /// The store is closed. If the rows are still open, no crash leaves the changes, and [`rollback`](Self::rollback) goes back to the last
    /// commit.
    pub fn commit(&mut self) -> Result<(), StoreError>
        ensures plan { self.new.plan ≡ self.old.plan }
        ensures open { OnOk result (IsTrue self.new.is_open) }
        ensures durable { OnOk result (IsClean (S.Store.view (rows_of self.new.table)) → (trees : Trees)
            → S.Store.recovers (rows_of self.new.table) trees → TreesStandFor trees self.new.plan) }
        ensures cause { IfErr result (λ e. IsClean (S.Store.view (rows_of self.new.table))
            → IsCause (HasFault S.Store (rows_of self.old.table) (rows_of self.new.table)) (IsClosed self.old) ⊥ ⊥ ⊥ e) }
        ensures err { OnErr result ((self.new ≡ self.old) ⊎ IsClosed self.new) }
        ensures undone { OnErr result (IsClean (S.Store.view (rows_of self.new.table)) → IsTrue (S.Store.view (rows_of self.new.table)).is_open
            → (trees : Trees) → S.Store.recovers (rows_of self.new.table) trees → S.Store.recovers (rows_of self.old.table) trees) }
        ensures clean { IsClean (S.Store.view (rows_of self.new.table)) → IsClean (S.Store.view (rows_of self.old.table)) }
        ensures crash { IsClean (S.Store.view (rows_of self.new.table)) → (trees : Trees) → S.Store.recovers (rows_of self.new.table) trees
            → TreesStandFor trees self.old.plan ⊎ S.Store.recovers (rows_of self.old.table) trees }
    {
        if !self.is_open {
            return Err(StoreError::Closed);
        }
        self.is_open = false;
        self.table.commit()?;
        self.is_open = true;
        Ok(())
    }
}

impl<S: Checkpoint> Store<S> {
    /// Copies the log into the database file, so that the log is short. The plan stays.
    ///
    /// # Errors
    ///
    /// The store is closed. If the rows are still open, nothing else changed, and [`rollback`](Self::rollback) opens the store again.
    pub fn checkpoint(&mut self) -> Result<(), StoreError>
        ensures plan { self.new.plan ≡ self.old.plan }
        ensures open { OnOk result (IsTrue self.new.is_open) }
        ensures cause { IfErr result (λ e. IsClean (S.Store.view (rows_of self.new.table))
            → IsCause (HasFault S.Store (rows_of self.old.table) (rows_of self.new.table)) (IsClosed self.old) ⊥ ⊥ ⊥ e) }
        ensures err { OnErr result ((self.new ≡ self.old) ⊎ IsClosed self.new) }
        ensures clean { IsClean (S.Store.view (rows_of self.new.table)) → IsClean (S.Store.view (rows_of self.old.table)) }
        ensures crash { (trees : Trees) → S.Store.recovers (rows_of self.new.table) trees → S.Store.recovers (rows_of self.old.table) trees }
    {
        if !self.is_open {
            return Err(StoreError::Closed);
        }
        self.is_open = false;
        self.table.checkpoint()?;
        self.is_open = true;
        Ok(())
    }

    /// Copies the log into the database file and returns the rows. What was not committed is lost.
    ///
    /// # Errors
    ///
    /// Returns the rows as well. Every commit that succeeded lasts.
    pub fn close(mut self) -> Result<S, (StoreError, S)>
        ensures ok { IfOk result (λ rows. (trees : Trees) → S.Store.recovers rows trees → S.Store.recovers (rows_of self.table) trees) }
        ensures err { IfErr result (λ e. (trees : Trees) → S.Store.recovers e.1 trees → S.Store.recovers (rows_of self.table) trees) }
    {
        match self.checkpoint() {
            Ok(()) => Ok(self.into_rows()),
            Err(error) => Err((error, self.into_rows())),
        }
    }
}

impl<S: Reopen> Store<S> {
    /// Crashes, and opens the rows again. It finds a plan that a crash could leave.
    pub fn reopen(&mut self) -> Result<(), StoreError>
        ensures open { OnOk result (IsTrue self.new.is_open) }
        ensures found { OnOk result (IsClean (S.Store.view (rows_of self.new.table)) → IsLeft S.Store (rows_of self.old.table) self.new.plan) }
        ensures settled { OnOk result (IsClean (S.Store.view (rows_of self.new.table)) → IsSettled S.Store self.new) }
        ensures clean { IsClean (S.Store.view (rows_of self.new.table)) → IsClean (S.Store.view (rows_of self.old.table)) }
    {
        self.is_open = false;
        let entries = self.table.reopen(self.alloc)?;
        self.planner = build(self.alloc, &entries, self.table.next_number())?;
        self.is_open = true;
        Ok(())
    }
}

// Makes an agenda of jobs that were read in the order in which they leave.
fn build(alloc: Global, entries: &[Entry], next: u64) -> Result<Planner, StoreError>
    ensures linked { IfOk result IsLinked }
    ensures plan { IfOk result (λ planner. IsLawful (read_plan entries.now next) → plan_of planner ≡ read_plan entries.now next) }
{
    let mut planner = Planner::new(alloc);
    planner.count_from(next)?;
    for entry in entries {
        if entry.bytes.len() > MAX_BYTES {
            return Err(StoreError::NotAnAgenda);
        }
        let bytes = Vec::from_slice(alloc, &entry.bytes)?;
        planner.keep(entry.id, entry.deadline, entry.attempts, bytes)?;
    }
    Ok(planner)
}
