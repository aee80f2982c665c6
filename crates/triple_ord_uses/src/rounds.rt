//! Walking through the jobs of a scheduler while they come and go, and removing them: in order, or by index.

ghost use Rattle.std.specs.Prelude.{◌≡◌, false, Some, None, IfSome, is_some};
ghost use Rattle.triple_ord.specs.Arena.{item_of, count, Updates, FindsNothing};

use crate::scheduler::Jobs;
use triple_ord::{Advancer, OrderedPtrAdvancer, P0, PtrAdvancer};

/// Returns a round over the jobs, starting at one of them, or `None` if the pointer names no job.
pub fn round_from(jobs: &Jobs, p: P0) -> Option<OrderedPtrAdvancer<P0>>
    ensures { is_some result ≡ is_some (item_of jobs.now p) }
{
    jobs.advancer_ordered(p, false)
}

/// Returns the job at the position of a round, with its pointer and its deadline. The round goes on to the job that comes next now.
pub fn next_of_round(round: &mut OrderedPtrAdvancer<P0>, jobs: &Jobs) -> Option<(P0, u64, u64)>
    ensures { IfSome result (λ n. item_of jobs.now n.0 ≡ Some (n.1, n.2)) }
{
    let p = round.advance(jobs)?;
    let pair = jobs.get(p)?;
    Some((p, *pair.k(), *pair.v()))
}

/// Returns the next job by index among the current ones, with its pointer and its deadline. If there is none, the walk stays where it is.
pub fn next_by_index(walk: &mut PtrAdvancer<P0>, jobs: &Jobs) -> Option<(P0, u64, u64)>
    ensures found { IfSome result (λ n. item_of jobs.now n.0 ≡ Some (n.1, n.2)) }
    ensures stays { is_some result ≡ false → walk.new ≡ walk.old }
{
    let p = walk.advance(jobs)?;
    let pair = jobs.get(p)?;
    Some((p, *pair.k(), *pair.v()))
}

/// Removes the first job by a drain; the others stay.
pub fn first_of_drain(jobs: &mut Jobs) -> Option<(P0, u64, u64)>
    ensures found { IfSome result (λ n. item_of jobs.old n.0 ≡ Some (n.1, n.2)) }
    ensures gone { IfSome result (λ n. Updates jobs.old jobs.new n.0 None) }
    ensures none { is_some result ≡ false → jobs.new ≡ jobs.old }
{
    let mut drain = jobs.drain_ordered();
    let taken = drain.next();
    drain.keep_rest();
    let (p, pair) = taken?.allow();
    Some((p, *pair.k(), *pair.v()))
}

/// Removes the first job and drops the others.
pub fn last_job(jobs: &mut Jobs) -> Option<(u64, u64)>
    ensures gone { FindsNothing jobs.new }
    ensures count { count jobs.new ≡ 0 }
{
    let mut drain = jobs.drain_ordered();
    let (_, pair) = drain.next()?.allow();
    Some((*pair.k(), *pair.v()))
}

/// Removes the job with the least index by a drain; the others stay.
pub fn least_of_drain(jobs: &mut Jobs) -> Option<(P0, u64, u64)>
    ensures found { IfSome result (λ n. item_of jobs.old n.0 ≡ Some (n.1, n.2)) }
    ensures gone { IfSome result (λ n. Updates jobs.old jobs.new n.0 None) }
    ensures none { is_some result ≡ false → jobs.new ≡ jobs.old }
    ensures empty { is_some result ≡ false → FindsNothing jobs.old }
{
    let mut drain = jobs.drain();
    let taken = drain.next();
    drain.keep_rest();
    let (p, pair) = taken?.allow();
    Some((p, *pair.k(), *pair.v()))
}

/// Removes the job with the least index and drops the others.
pub fn least_job(jobs: &mut Jobs) -> Option<(P0, u64, u64)>
    ensures found { IfSome result (λ n. item_of jobs.old n.0 ≡ Some (n.1, n.2)) }
    ensures gone { FindsNothing jobs.new }
    ensures count { count jobs.new ≡ 0 }
{
    let mut drain = jobs.drain();
    let (p, pair) = drain.next()?.allow();
    Some((p, *pair.k(), *pair.v()))
}
