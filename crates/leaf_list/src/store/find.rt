//! The search among the first entries of leaves.
ghost use Rattle.std.specs.Prelude.{◌≡◌, ◌+◌, ◌^◌, ◌≤◌, ◌<◌, ℕ, Bool, [], length, IfSome, IfNone};
ghost use Rattle.std.specs.Option.{option_map};
ghost use Rattle.std.specs.Ordering.{is_gt};
ghost use Rattle.leaf_list.specs.Before.{is_passed};
ghost use Rattle.leaf_list.specs.Parts.{chosen, LeadsTo, StopsBeside};

use super::LeafStore;
use std::alloc::Allocator;
use std::cmp::Ordering;
use triple_ord::BasePtr;

impl<K: Ord, P: BasePtr, A: Allocator> LeafStore<K, P, A> {
    /// Returns the leaf whose first entry is the last one with a key less than `k`, or at most it; or the first leaf and `true`. `None`
    /// only if there are no leaves. Also returns how many keys it compared. O(log n).
    ///
    /// No branch depends on a key but those of the search in the index.
    #[inline(always)]
    pub(crate) fn find(&self, k: &K, with_equals: bool) -> (Option<(P::Inx, bool)>, u128)
        ensures empty { IfNone result.0 (self.now.leaves ≡ []) }
        ensures leads { IfSome result.0 (λ f. LeadsTo
            (λ key. is_passed with_equals (K.cmp k.now key)) self.now.leaves
            (P.Inx.number f.0) f.1) }
        ensures visits { 0 < length self.now.leaves
            → 2 ^ (result.1 + 1) ≤ (length self.now.leaves + 1) ^ 2 }
        ensures none { length self.now.leaves ≡ 0 → result.1 ≡ 0 }
        ensures few { result.1 < 128 }
    {
        // For the prover: no two leaves have the same number.
        let _ = self.room();
        let (found, visits) = self.nearest(k, with_equals);
        let Some(end) = found else {
            return (None, visits);
        };
        let before = self.before(end.0);
        (Some(lead_from(end.0, end.1, before)), visits)
    }

    // The leaf where a search of the index ends, and whether its first entry is passed.
    #[inline(always)]
    fn nearest(&self, k: &K, with_equals: bool) -> (Option<(P::Inx, bool)>, u128)
        ensures empty { IfNone result.0 (self.now.leaves ≡ []) }
        ensures stops { IfSome result.0 (λ f. StopsBeside
            (λ key. is_passed with_equals (K.cmp k.now key)) self.now.leaves
            (P.Inx.number f.0) f.1) }
        ensures visits { 0 < length self.now.leaves
            → 2 ^ (result.1 + 1) ≤ (length self.now.leaves + 1) ^ 2 }
        ensures none { length self.now.leaves ≡ 0 → result.1 ≡ 0 }
        ensures few { result.1 < 128 }
    {
        // For the prover: the index is sound.
        let _ = self.index.len();
        if with_equals {
            let (found, visits) = self.index.find_behind_key_counted(k);
            (end_of::<P>(found), visits.count())
        } else {
            let (found, visits) = self.index.find_similar_key_counted(k);
            (end_of::<P>(found), visits.count())
        }
    }
}

// The leaf that a search of the index found, and whether the key is greater than that of its first entry.
#[inline(always)]
fn end_of<P: BasePtr>(found: Option<(P, Ordering)>) -> Option<(P::Inx, bool)>
    ensures { option_map {U = ℕ × Bool} (λ f. (P.Inx.number f.0, f.1)) result
        ≡ option_map {U = ℕ × Bool} (λ a. ((P.numbers a.0).0, is_gt a.1)) found }
{
    let (p, order) = found?;
    Some((p.inx(), order.is_gt()))
}

// The leaf where a search leads that ended at `leaf`, which is passed or has a neighbour before it, if it isn't the first.
#[inline(always)]
fn lead_from<I: Copy>(leaf: I, is_before: bool, before: Option<I>) -> (I, bool)
    ensures { result ≡ chosen leaf is_before before }
{
    let is_behind = !is_before && before.is_none();
    let before = before.unwrap_or(leaf);
    (if is_before { leaf } else { before }, is_behind)
}
