//! Jobs that are returned if their insertion fails, several jobs with the same deadline, and jobs next to a given job.

ghost use Rattle.std.specs.Prelude.{◌≡◌, ◌≢◌, [], ◌+◌, ◌<◌, ℕ, Some, None, IfOk, IfErr, OnErr, IsSome, if◌then◌else◌};
ghost use Rattle.triple_ord.specs.Arena.{item_of, count, FindSame, Updates};

use crate::scheduler::Jobs;
use std::cmp::Ordering;
use triple_ord::{BasePtr, Growth, OrdEntryKind, OrdInsertKind, OrdInsertionError, OrdPair, P0};

/// Adds a job behind those with the same deadline. On `Err` the job is returned.
pub fn add(
    jobs: &mut Jobs,
    job: OrdPair<u64, u64>,
) -> Result<P0, (OrdPair<u64, u64>, OrdInsertionError)>
    ensures finds { IfOk result (λ p. item_of jobs.new p ≡ Some job) }
    ensures others { IfOk result (λ p. (q : ℕ × ℕ) → q ≢ p
        → item_of jobs.new q ≡ item_of jobs.old q) }
    ensures back { IfErr result (λ e. e.0 ≡ job) }
    ensures refused { OnErr result (jobs.new ≡ jobs.old) }
{
    match jobs.entry_insert(OrdInsertKind::Nonhereditary(job.k())) {
        Ok(entry) => {
            let p = entry.ptr().any();
            let _ = entry.insert(job);
            Ok(p)
        }
        Err(refusal) => Err((job, refusal)),
    }
}

// Behind all jobs with the same or an earlier deadline, with a search that compares the last deadline first.
fn from_the_last<'k>(jobs: &Jobs, deadline: &'k u64) -> OrdInsertKind<P0, &'k u64> {
    match jobs.last() {
        Some(last) => OrdInsertKind::NonhereditaryLinear {
            p_init: last.inx(),
            num: 1,
            k: deadline,
        },
        None => OrdInsertKind::Nonhereditary(deadline),
    }
}

/// Adds a job as `add` does. Its place is found in O(1) if it is due last, else in O(log n).
pub fn append(
    jobs: &mut Jobs,
    job: OrdPair<u64, u64>,
) -> Result<P0, (OrdPair<u64, u64>, OrdInsertionError)>
    ensures finds { IfOk result (λ p. item_of jobs.new p ≡ Some job) }
    ensures others { IfOk result (λ p. (q : ℕ × ℕ) → q ≢ p
        → item_of jobs.new q ≡ item_of jobs.old q) }
    ensures back { IfErr result (λ e. e.0 ≡ job) }
    ensures refused { OnErr result (jobs.new ≡ jobs.old) }
{
    let kind = from_the_last(jobs, job.k());
    match jobs.entry_insert(kind) {
        Ok(entry) => {
            let p = entry.ptr().any();
            let _ = entry.insert(job);
            Ok(p)
        }
        Err(refusal) => Err((job, refusal)),
    }
}

/// Adds a job within the capacity, with a hint: the pointer of a job with a similar deadline.
pub fn add_near(
    jobs: &mut Jobs,
    hint: P0,
    job: OrdPair<u64, u64>,
) -> Result<(P0, Option<OrdPair<u64, u64>>), OrdInsertionError>
    ensures finds { IfOk result (λ a. item_of jobs.new a.0 ≡ Some job) }
    ensures others { IfOk result (λ a. (q : ℕ × ℕ) → q ≢ a.0
        → item_of jobs.new q ≡ item_of jobs.old q) }
    ensures before { IfOk result (λ a. a.1 ≡ item_of jobs.old a.0) }
    ensures refused { OnErr result (jobs.new ≡ jobs.old) }
{
    let entry = jobs.entry_insert_within_capacity(OrdInsertKind::Linear {
        p_init: hint.inx(),
        num: 8,
        k: job.k(),
    })?;
    let p = entry.ptr().any();
    Ok((p, entry.insert(job)))
}

/// Adds a job, and lets the arena grow for it only if `growth` allows it.
pub fn add_by_growth(
    jobs: &mut Jobs,
    growth: Growth,
    job: OrdPair<u64, u64>,
) -> Result<P0, OrdInsertionError>
    ensures updates { IfOk result (λ p. Updates jobs.old jobs.new p (Some job)) }
    ensures refused { OnErr result (jobs.new ≡ jobs.old) }
{
    let entry = jobs.entry_insert_by_growth(growth, OrdInsertKind::Nonhereditary(job.k()))?;
    let p = entry.ptr().any();
    let _ = entry.insert(job);
    Ok(p)
}

/// Adds a job within the capacity.
pub fn schedule_within(jobs: &mut Jobs, deadline: u64, job: u64) -> Result<P0, OrdInsertionError>
    ensures finds { IfOk result (λ p. item_of jobs.new p ≡ Some (deadline, job)) }
    ensures others { IfOk result (λ p. (q : ℕ × ℕ) → q ≢ p
        → item_of jobs.new q ≡ item_of jobs.old q) }
    ensures refused { OnErr result (jobs.new ≡ jobs.old) }
{
    let (p, _) = jobs.insert_within_capacity(OrdPair::new(deadline, job))?;
    Ok(p)
}

/// Returns whether a job with this deadline would replace one. Makes room for it; nothing else changes.
pub fn would_replace(jobs: &mut Jobs, deadline: u64) -> Result<bool, OrdInsertionError>
    ensures found { FindSame jobs.old jobs.new }
    ensures count { count jobs.new ≡ count jobs.old }
{
    let entry = jobs.entry_insert_reallocating(OrdInsertKind::Normal(&deadline))?;
    Ok(matches!(entry.ptr(), OrdEntryKind::Replacing(_)))
}

/// Puts a job directly behind another, whatever their deadlines, in a slot that was reserved. Returns its pointer.
pub fn put_reserved_behind(jobs: &mut Jobs, p: P0, job: OrdPair<u64, u64>) -> P0
    requires there { IsSome (item_of jobs.old p) }
    requires vacant { count jobs.old < jobs.old.list.capacity }
    ensures updates { Updates jobs.old jobs.new result (Some job) }
    ensures count { count jobs.new ≡ count jobs.old + 1 }
    ensures capacity { jobs.new.list.capacity ≡ jobs.old.list.capacity }
{
    jobs.insert_beside(p.inx(), Ordering::Greater, job)
}

/// Puts the first job, in a slot that was reserved. Returns its pointer.
pub fn put_reserved_first(jobs: &mut Jobs, job: OrdPair<u64, u64>) -> P0
    requires empty { jobs.old.list.entries ≡ [] }
    requires vacant { 0 < jobs.old.list.capacity }
    ensures updates { Updates jobs.old jobs.new result (Some job) }
    ensures count { count jobs.new ≡ 1 }
    ensures capacity { jobs.new.list.capacity ≡ jobs.old.list.capacity }
{
    jobs.insert_first(job)
}

/// Puts a job directly behind another, whatever their deadlines. Returns whether there is a job at the pointer's index.
pub fn put_behind(jobs: &mut Jobs, p: P0, job: OrdPair<u64, u64>) -> Result<bool, OrdInsertionError>
    ensures count { IfOk result
        (λ put. count jobs.new ≡ (if put then count jobs.old + 1 else count jobs.old)) }
    ensures refused { OnErr result (jobs.new ≡ jobs.old) }
{
    if !jobs.contains_inx(p.inx()) {
        return Ok(false);
    }
    let _ = jobs.insert_inx_manual_unwrap(p.inx(), Ordering::Greater, job)?;
    Ok(true)
}
