//! `Planner`: jobs in memory, each under a number of its own.

ghost use Rattle.std.specs.Prelude.{◌≡◌, ◌⊎◌, ◌<◌, ◌≤◌, ◌^◌, IfSome, IfOk, IfErr, OnOk, IsErrOf, length, is_some};
ghost use Rattle.std.specs.Option.{option_map};
ghost use Rattle.agenda.specs.Agenda.{IsDistinct};
ghost use Rattle.job_table.specs.Plan.{empty, scheduled, cancelled, moved, claimed_if, counted, kept, Admits};
ghost use Rattle.job_table.specs.Plan.{first_deadline, first_due, first_job, job_at};
ghost use Rattle.agenda_store.specs.Planner.{plan_of, ticket_at, IsLinked, HasPlan, Takes, CanReturn};
ghost use Rattle.agenda_store.specs.Store.{owned, lent};

use crate::job::{Job, JobId, JobRef};
use agenda::{Agenda, ReallocationError, Ticket};
use job_table::StoreError;
use std::alloc::Global;
use std::collections::BTreeMap;

/// What the agenda keeps for a job.
#[derive(Drop)]
pub(crate) struct Task {
    pub(crate) id: u64,
    pub(crate) attempts: u64,
    pub(crate) bytes: Vec<u8>,
}

/// Jobs by deadline, each under a number of its own. The agenda names them by tickets, which this type keeps inside.
#[derive(Drop)]
pub(crate) struct Planner {
    pub(crate) agenda: Agenda<Task>,
    pub(crate) tickets: BTreeMap<u64, Ticket>,
    pub(crate) next: u64,
}

impl Planner {
    pub(crate) fn new(alloc: Global) -> Planner
        ensures { HasPlan result empty }
    {
        Planner {
            agenda: Agenda::new(alloc),
            tickets: BTreeMap::new(alloc),
            next: 1,
        }
    }

    /// Returns the number of jobs.
    pub(crate) fn len(&self) -> usize
        ensures { result ≡ length (plan_of self.now).jobs }
    {
        self.agenda.len()
    }

    /// Returns the deadline of the first job.
    pub(crate) fn next_deadline(&self) -> Option<u64>
        ensures { result ≡ first_deadline (plan_of self.now).jobs }
    {
        self.agenda.next_deadline()
    }

    /// Returns the first job.
    pub(crate) fn first(&self) -> Option<JobRef<'_>>
        ensures { option_map lent result ≡ first_job (plan_of self.now).jobs }
    {
        match self.agenda.peek() {
            Some((_, deadline, task)) => Some(lend(deadline, task)),
            None => None,
        }
    }

    /// Returns the first job, if it is due.
    pub(crate) fn due(&self, now: u64) -> Option<JobRef<'_>>
        ensures { option_map lent result ≡ first_due now (plan_of self.now).jobs }
    {
        match self.first() {
            Some(job) if job.deadline <= now => Some(job),
            _ => None,
        }
    }

    // Returns the ticket of the job of a number.
    fn ticket_at(&self, id: u64) -> Option<Ticket>
        ensures value { result ≡ ticket_at self.now id }
        ensures distinct { IsDistinct self.now.agenda.entries }
    {
        // For the prover: the tickets are distinct.
        let _ = self.agenda.len();
        Some(*self.tickets.get(&id)?)
    }

    /// Returns whether a number names a job.
    pub(crate) fn has(&self, id: u64) -> bool
        requires { IsLinked self.now }
        ensures value { result ≡ is_some (job_at id (plan_of self.now).jobs) }
        // For the prover: a number has 64 bits.
        ensures range { id < 2 ^ 64 }
    {
        self.get(id).is_some()
    }

    /// Schedules a job, and returns its number.
    ///
    /// # Errors
    ///
    /// The planner is of no more use.
    pub(crate) fn schedule(&mut self, deadline: u64, bytes: Vec<u8>) -> Result<u64, StoreError>
        requires { Takes self.old bytes.items }
        ensures id { IfOk result (λ id. id ≡ (plan_of self.old).next) }
        ensures plan { OnOk result (HasPlan self.new (scheduled deadline bytes.items (plan_of self.old))) }
        ensures err { IfErr result (λ e. (e ≡ StoreError.Full) ⊎ (e ≡ StoreError.OutOfMemory)) }
    {
        let id = self.next;
        let Some(next) = id.checked_add(1) else {
            return Err(StoreError::Full);
        };
        self.next = next;
        self.put(id, deadline, 0, bytes)?;
        Ok(id)
    }

    // Puts a job under a number that was given and names no job.
    fn put(
        &mut self,
        id: u64,
        deadline: u64,
        attempts: u64,
        bytes: Vec<u8>,
    ) -> Result<(), StoreError>
        requires job { Takes self.old bytes.items }
        requires admitted { Admits (plan_of self.old) (record { id = id; deadline = deadline; attempts = attempts; bytes = bytes.items }) }
        ensures plan { OnOk result (HasPlan self.new
            (kept (record { id = id; deadline = deadline; attempts = attempts; bytes = bytes.items }) (plan_of self.old))) }
        ensures err { IfErr result (λ e. (e ≡ StoreError.Full) ⊎ (e ≡ StoreError.OutOfMemory)) }
    {
        let task = Task {
            id,
            attempts,
            bytes,
        };
        let ticket = match self.agenda.schedule(deadline, task) {
            Ok(ticket) => ticket,
            Err((_, ReallocationError::BeyondMaxCapacity)) => return Err(StoreError::Full),
            Err((_, ReallocationError::AllocError)) => return Err(StoreError::OutOfMemory),
        };
        self.tickets.insert(id, ticket)?;
        Ok(())
    }

    /// Lets numbers go on from `next`.
    ///
    /// # Errors
    ///
    /// `NotAnAgenda`: numbers would go back. Nothing changed.
    pub(crate) fn count_from(&mut self, next: u64) -> Result<(), StoreError>
        requires { IsLinked self.old }
        ensures linked { IsLinked self.new }
        ensures admitted { OnOk result ((plan_of self.old).next ≤ next) }
        ensures plan { OnOk result (plan_of self.new ≡ counted next (plan_of self.old)) }
        ensures err { IfErr result (λ e. (e ≡ StoreError.NotAnAgenda) × (next < (plan_of self.old).next)) }
    {
        if next < self.next {
            return Err(StoreError::NotAnAgenda);
        }
        self.next = next;
        Ok(())
    }

    /// Puts a job back under its number, behind those that aren't due later.
    ///
    /// # Errors
    ///
    /// The planner is of no more use. `NotAnAgenda`: the number was not given, or names a job.
    pub(crate) fn keep(
        &mut self,
        id: u64,
        deadline: u64,
        attempts: u64,
        bytes: Vec<u8>,
    ) -> Result<(), StoreError>
        requires { Takes self.old bytes.items }
        ensures admitted { OnOk result (Admits (plan_of self.old) (record { id = id; deadline = deadline; attempts = attempts; bytes = bytes.items })) }
        ensures plan { OnOk result (HasPlan self.new
            (kept (record { id = id; deadline = deadline; attempts = attempts; bytes = bytes.items }) (plan_of self.old))) }
        ensures refused { IsErrOf result StoreError.NotAnAgenda
            → Admits (plan_of self.old) (record { id = id; deadline = deadline; attempts = attempts; bytes = bytes.items }) → ⊥ }
    {
        if id >= self.next || self.has(id) {
            return Err(StoreError::NotAnAgenda);
        }
        self.put(id, deadline, attempts, bytes)
    }

    /// Removes the job of a number, and returns it.
    pub(crate) fn cancel(&mut self, id: u64) -> Option<Job>
        requires { IsLinked self.old }
        ensures value { option_map owned result ≡ job_at id (plan_of self.old).jobs }
        ensures plan { HasPlan self.new (cancelled id (plan_of self.old)) }
        ensures left { IfSome result (λ job. CanReturn self.new (owned job)) }
    {
        let ticket = self.ticket_at(id)?;
        let (deadline, task) = self.agenda.cancel(ticket)?;
        let _ = self.tickets.remove(&id);
        Some(Job {
            id: JobId(task.id),
            deadline,
            attempts: task.attempts,
            bytes: task.bytes,
        })
    }

    /// Counts one more attempt at the job of a number, which is due again at `until`, behind those that aren't due later.
    ///
    /// # Errors
    ///
    /// The planner is of no more use.
    pub(crate) fn attempt(&mut self, id: u64, until: u64) -> Result<(), StoreError>
        requires { IsLinked self.old }
        ensures plan { OnOk result (HasPlan self.new (claimed_if until (job_at id (plan_of self.old).jobs) (plan_of self.old))) }
        ensures err { IfErr result (λ e. (e ≡ StoreError.Full) ⊎ (e ≡ StoreError.OutOfMemory)) }
    {
        let Some(job) = self.cancel(id) else {
            return Ok(());
        };
        let Some(attempts) = job.attempts.checked_add(1) else {
            return Err(StoreError::Full);
        };
        self.put(job.id.0, until, attempts, job.bytes)
    }

    /// Gives the job of a number another deadline, and returns whether there is one.
    pub(crate) fn reschedule(&mut self, id: u64, deadline: u64) -> bool
        requires { IsLinked self.old }
        ensures value { result ≡ is_some (job_at id (plan_of self.old).jobs) }
        ensures plan { HasPlan self.new (moved id deadline (plan_of self.old)) }
    {
        match self.ticket_at(id) {
            Some(ticket) => self.agenda.reschedule(ticket, deadline),
            None => false,
        }
    }

    /// Returns the job of a number.
    pub(crate) fn get(&self, id: u64) -> Option<JobRef<'_>>
        requires { IsLinked self.now }
        ensures { option_map lent result ≡ job_at id (plan_of self.now).jobs }
    {
        let ticket = self.ticket_at(id)?;
        let (deadline, task) = self.agenda.get(ticket)?;
        Some(lend(deadline, task))
    }
}

/// Lends a job.
pub(crate) fn lend(deadline: u64, task: &Task) -> JobRef<'_>
    ensures { lent result ≡ record { id = task.now.id; deadline = deadline; attempts = task.now.attempts; bytes = task.now.bytes.items } }
{
    JobRef {
        id: JobId(task.id),
        deadline,
        attempts: task.attempts,
        bytes: &task.bytes,
    }
}
