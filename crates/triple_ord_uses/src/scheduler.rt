//! A scheduler: jobs by deadline, each named by its pointer.

ghost use Rattle.std.specs.Prelude.{◌≡◌, ◌≢◌, ◌↔◌, true, false, ◌+◌, ◌<◌, ◌++◌, vec_len, ℕ, Some, None, IfOk, OnErr, IfSome, OnSome, IsSome, is_some, if◌then◌else◌};
ghost use Rattle.std.specs.Option.{option_map};
ghost use Rattle.triple_ord.specs.Arena.{item_of, items, count, Updates, FindsNothing};

use std::alloc::Global;
use triple_ord::{OrdInsertionError, OrdPair, P0, SimpleOrdArena};

/// Jobs by deadline; a job is a number.
pub type Jobs = SimpleOrdArena<P0, OrdPair<u64, u64>>;

/// Adds a job and returns its pointer.
pub fn schedule(jobs: &mut Jobs, deadline: u64, job: u64) -> Result<P0, OrdInsertionError>
    ensures finds { IfOk result (λ p. item_of jobs.new p ≡ Some (deadline, job)) }
    ensures others { IfOk result (λ p. (q : ℕ × ℕ) → q ≢ p
        → item_of jobs.new q ≡ item_of jobs.old q) }
    ensures refused { OnErr result (jobs.new ≡ jobs.old) }
{
    let (p, _) = jobs.insert(OrdPair::new(deadline, job))?;
    Ok(p)
}

/// Puts many jobs behind all others, without growing. Returns whether there was room; otherwise nothing changes.
pub fn schedule_behind(jobs: &mut Jobs, more: Vec<(u64, u64)>) -> bool
    ensures room { result ≡ false ↔ jobs.old.list.capacity < count jobs.old + vec_len more }
    ensures jobs { result ≡ true → items jobs.new ≡ items jobs.old ++ more.items }
    ensures count { result ≡ true → count jobs.new ≡ count jobs.old + vec_len more }
    ensures others { (q : ℕ × ℕ) → IsSome (item_of jobs.old q)
        → item_of jobs.new q ≡ item_of jobs.old q }
    ensures refused { result ≡ false → jobs.new ≡ jobs.old }
{
    jobs.append_pairs_within_capacity(more).is_ok()
}

/// Removes a job. Returns whether the pointer named one.
pub fn cancel(jobs: &mut Jobs, p: P0) -> bool
    ensures cancelled { result ≡ is_some (item_of jobs.old p) }
    ensures gone { item_of jobs.new p ≡ None }
    ensures others { (q : ℕ × ℕ) → q ≢ p → item_of jobs.new q ≡ item_of jobs.old q }
    ensures count { count jobs.old ≡ (if result then count jobs.new + 1 else count jobs.new) }
{
    jobs.remove(p).allow().is_some()
}

/// Replaces a job by another. Returns whether the pointer named one. The number of jobs stays.
#[tactic(auto, using(triple_ord::proofs::CallerLemmas::written))]
pub fn replace(jobs: &mut Jobs, p: P0, job: u64) -> bool
    ensures replaced { result ≡ is_some (item_of jobs.old p) }
    ensures finds { item_of jobs.new p
        ≡ option_map (λ pair. (pair.0, job)) (item_of jobs.old p) }
    ensures others { (q : ℕ × ℕ) → q ≢ p → item_of jobs.new q ≡ item_of jobs.old q }
    ensures count { count jobs.new ≡ count jobs.old }
{
    match jobs.get_mut(p) {
        Some(pair) => {
            *pair.v_mut() = job;
            true
        }
        None => false,
    }
}

/// Returns the first job with its pointer and its deadline.
pub fn next(jobs: &Jobs) -> Option<(P0, u64, u64)>
    ensures finds { IfSome result (λ n. item_of jobs.now n.0 ≡ Some (n.1, n.2)) }
    ensures none { is_some result ≡ false → count jobs.now ≡ 0 }
{
    let p = jobs.first()?;
    let pair = jobs.get(p)?;
    Some((p, *pair.k(), *pair.v()))
}

/// Removes the first job. Returns its pointer, its deadline and the job.
pub fn pop(jobs: &mut Jobs) -> Option<(P0, u64, u64)>
    ensures found { IfSome result (λ n. item_of jobs.old n.0 ≡ Some (n.1, n.2)) }
    ensures gone { IfSome result (λ n. Updates jobs.old jobs.new n.0 None) }
    ensures none { is_some result ≡ false → jobs.new ≡ jobs.old × count jobs.old ≡ 0 }
{
    let p = jobs.first()?;
    let pair = jobs.remove(p).allow()?;
    Some((p, *pair.k(), *pair.v()))
}

/// Removes all jobs.
pub fn cancel_all(jobs: &mut Jobs)
    ensures gone { FindsNothing jobs.new }
    ensures count { count jobs.new ≡ 0 }
{
    let _ = jobs.clear();
}
