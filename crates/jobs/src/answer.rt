//! What a line makes of the jobs, and how it is answered.

ghost use Rattle.std.specs.Prelude.{◌≡◌, ◌⊎◌, IfOk, OnOk, IsTrue, string_bytes};
ghost use Rattle.std.specs.Option.{option_map};
ghost use Rattle.sqlite_trees.specs.Tree.{Trees};
ghost use Rattle.sqlite_trees.specs.View.{IsClean};
ghost use Rattle.agenda_store.specs.Table.{rows_of};
ghost use Rattle.agenda_store.specs.Store.{lent, owned};
ghost use Rattle.jobs.specs.Answer.{Answers, IsComplaint, PopsAll, Shows, done_text as done_answer};

use crate::command::Command;
use crate::options::LINES;
use crate::shown::{
    Shown, blank_text, complaint_text, deadline_text, done_text, help_text, job_text, number_text,
};
use agenda_store::{Job, JobId, JobRef, Store, StoreError};
use line_service::Style;
use sqlite_trees::store::Store as Rows;
use std::alloc::{AllocError, Global};

/// Why a batch can't go on. What its lines have changed is not to be committed.
#[derive(Debug, Drop)]
pub enum Fault {
    /// A call has closed the store, or failed while a line was half done.
    Store(StoreError),
    /// No memory was left for an answer.
    Memory,
}

impl From<AllocError> for Fault {
    fn from(_: AllocError) -> Fault {
        Fault::Memory
    }
}

/// Does what a command says, and returns the answer. A command that is refused is answered by the number of its line and the reason, and
/// changes nothing.
///
/// # Errors
///
/// The batch can't go on.
pub fn obey<S: Rows>(
    alloc: Global,
    style: Style,
    store: &mut Store<S>,
    number: u64,
    command: Command<'_>,
) -> Result<String, Fault>
    ensures answer { IfOk result (λ text. Answers style command.entry store.old.plan store.new.plan (string_bytes text)) }
    ensures clean { IsClean (S.Store.view (rows_of store.new.table)) → IsClean (S.Store.view (rows_of store.old.table)) }
    ensures crash { (trees : Trees) → S.Store.recovers (rows_of store.new.table) trees → S.Store.recovers (rows_of store.old.table) trees }
{
    match command {
        Command::At(deadline, payload) => match store.schedule(deadline, payload) {
            Ok(id) => Ok(number_text(alloc, style, id.0)?),
            Err(error) => refuse(alloc, style, store, number, error),
        },
        Command::Cancel(id) => match store.cancel(JobId(id)) {
            Ok(job) => confirm(alloc, style, number, job.is_some()),
            Err(error) => refuse(alloc, style, store, number, error),
        },
        Command::Move(id, deadline) => match store.reschedule(JobId(id), deadline) {
            Ok(is_found) => confirm(alloc, style, number, is_found),
            Err(error) => refuse(alloc, style, store, number, error),
        },
        Command::Due(now) => pop_due(alloc, style, store, now),
        Command::Claim(now, until) => match store.claim_due(now, until) {
            Ok(job) => show_claimed(alloc, style, &job),
            Err(error) => refuse(alloc, style, store, number, error),
        },
        Command::Next => Ok(deadline_text(alloc, style, store.next_deadline())?),
        Command::List => list(alloc, style, store),
        Command::Compact => Ok(done_text(alloc, style)?),
        Command::Help => Ok(help_text(alloc, style, LINES)?),
        Command::Blank => Ok(blank_text(alloc, style)?),
    }
}

// Returns the answer to a line that the store refuses.
fn refuse<S: Rows>(
    alloc: Global,
    style: Style,
    store: &Store<S>,
    number: u64,
    error: StoreError,
) -> Result<String, Fault>
    ensures open { OnOk result (IsTrue store.now.is_open) }
    ensures text { IfOk result (λ text. IsComplaint style.is_json (string_bytes text)) }
{
    if !store.is_open() {
        return Err(Fault::Store(error));
    }
    Ok(complaint_text(alloc, style, number, error)?)
}

// Returns the answer that something was done to a job, unless there was no such job.
fn confirm(alloc: Global, style: Style, number: u64, is_found: bool) -> Result<String, Fault>
    ensures done { IsTrue is_found → IfOk result (λ text. string_bytes text ≡ done_answer style.is_json) }
    ensures missing { (IsTrue is_found → ⊥) → IfOk result (λ text. IsComplaint style.is_json (string_bytes text)) }
{
    if is_found {
        return Ok(done_text(alloc, style)?);
    }
    Ok(complaint_text(alloc, style, number, "no such job")?)
}

// Returns a job as it is lent.
fn lend(job: &Job) -> JobRef<'_>
    ensures { lent result ≡ owned job.now }
{
    JobRef {
        id: job.id,
        deadline: job.deadline,
        attempts: job.attempts,
        bytes: job.bytes.as_slice(),
    }
}

// Returns the answer to a claim.
fn show_claimed(alloc: Global, style: Style, job: &Option<Job>) -> Result<String, Fault>
    ensures { IfOk result (λ text. Shows style.is_json style.has_dates (option_map owned job.now) (string_bytes text)) }
{
    match job {
        Some(job) => Ok(job_text(alloc, style, Some(lend(job)))?),
        None => Ok(job_text(alloc, style, None)?),
    }
}

// Takes all jobs off that are due, and returns the answer that shows them.
fn pop_due<S: Rows>(
    alloc: Global,
    style: Style,
    store: &mut Store<S>,
    now: u64,
) -> Result<String, Fault>
    ensures pops { IfOk result (λ text. PopsAll style now store.old.plan store.new.plan (string_bytes text)) }
    ensures clean { IsClean (S.Store.view (rows_of store.new.table)) → IsClean (S.Store.view (rows_of store.old.table)) }
    ensures crash { (trees : Trees) → S.Store.recovers (rows_of store.new.table) trees → S.Store.recovers (rows_of store.old.table) trees }
{
    let mut shown = Shown::new(alloc);
    'jobs: for _ in 0..u64::MAX {
        match store.pop_due(now) {
            Ok(Some(job)) => shown.push(alloc, style, lend(&job))?,
            Ok(None) => return Ok(shown.text(alloc, style)?),
            Err(error) => return Err(Fault::Store(error)),
        }
    }
    Err(Fault::Memory)
}

/// Returns the answer that shows all jobs.
pub fn list<S: Rows>(alloc: Global, style: Style, store: &Store<S>) -> Result<String, Fault> {
    let mut shown = Shown::new(alloc);
    for job in store.iter() {
        shown.push(alloc, style, job)?;
    }
    Ok(shown.text(alloc, style)?)
}
