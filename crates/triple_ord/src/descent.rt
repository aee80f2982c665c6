//! The descent from the root.
ghost use Rattle.std.specs.Prelude.{◌≡◌, ℕ, true, Some, None, ◌^◌, ◌<◌, ◌≤◌};
ghost use Rattle.std.specs.Option.{option_map};
ghost use Rattle.ord_tree.specs.Shape.{height};
ghost use Rattle.triple_ord.specs.ClosureSearch.{Asks, FindsSimilarWith};
ghost use Rattle.triple_ord.specs.Descent.{found_where_ended, met_next, side_of, CanShow, IsCompared, ShowsEntry, HasDescendedByKey, HasEndedByKey};
ghost use Rattle.triple_ord.specs.Search.{FindsSimilar};
ghost use Rattle.triple_ord.specs.Ties.{taken};
ghost use Rattle.triple_ord.specs.VisitBounds.{IsBoundedDescent, VisitsLaw};

use crate::item::SimpleOrdItem;
use crate::probe::Probe;
use crate::ties::Ties;
use arena_base::BasePtr;
use ord_tree::laws::{height_law, rank_square_law, rebuilt_height_law, tight_rank_law};
use std::alloc::Allocator;
use std::cmp::Ordering;

/// Descends from the root by the closure's answers. Returns the entry shown last, with its answer.
pub(crate) fn descend<P: BasePtr, T, F: FnMut(P, &T) -> Ordering, A: Allocator>(
    probe: &mut Probe<'_, P, T, A>,
    f: &mut F,
) -> Option<(P, Ordering)>
    requires room { probe.old.visits < 2 ^ 64 }
    requires callable { F.IsAlwaysCallable f.old }
    ensures descends { IsBoundedDescent probe.old.tree.now probe.old.visits probe.new.visits
        (FindsSimilarWith (Asks P.numbers F.step)
        probe.old.tree.now.list.entries f.old f.new
        (option_map (λ a. (P.numbers a.0, a.1)) result)) }
    ensures callable { F.IsAlwaysCallable f.new }
{
    visits_law();
    let mut last = None;
    let mut at = probe.root();
    while let Some(i) = at {
        let (generation, node) = probe.show(i);
        let p = P::_from_raw(i, generation);
        let order = f(p, &node.t);
        last = Some((p, order));
        if order.is_eq() {
            return last;
        }
        let (next, is_end) = side_or_end::<P>(order, node.p_tree0.get(), node.p_tree1.get());
        if is_end {
            return last;
        }
        at = next;
    }
    last
}

/// Descends from the root by a key. At an equal key that is sought it takes the lesser side, so the entry after the final gap is the
/// first of its group. If that entry is equal, it is the result; otherwise the entry shown last is.
#[inline(always)]
pub(crate) fn descend_by_key<P: BasePtr, T: SimpleOrdItem, A: Allocator>(
    probe: &mut Probe<'_, P, T, A>,
    ties: Ties,
    k: &T::Key,
) -> Option<(P, Ordering)>
    requires { probe.old.visits < 2 ^ 64 }
    ensures { IsBoundedDescent probe.old.tree.now probe.old.visits probe.new.visits
        (FindsSimilar T.key_of (taken ties T.Key.cmp)
        probe.old.tree.now.list.entries k.now
        (option_map (λ a. (P.numbers a.0, a.1)) result)) }
{
    visits_law();
    let mut last = None;
    let mut at = probe.root();
    while let Some(i) = at {
        let (p, order, next, is_end) = compare(probe, ties, k, i);
        if order.is_eq() {
            return descend_in_group(probe, ties, k, p, next);
        }
        last = Some((p, order));
        if is_end {
            return last;
        }
        at = next;
    }
    last
}

// Goes on to the lesser side of an equal entry, for the first of its group.
#[inline(always)]
fn descend_in_group<P: BasePtr, T: SimpleOrdItem, A: Allocator>(
    probe: &mut Probe<'_, P, T, A>,
    ties: Ties,
    k: &T::Key,
    p: P,
    lesser: Option<P::Inx>,
) -> Option<(P, Ordering)>
    requires descended { (before : ℕ) × HasDescendedByKey T.key_of (taken ties T.Key.cmp)
        probe.old.tree.now.list.entries probe.old.tree.now.shape k.now before
        (option_map P.Inx.number lesser) probe.old.visits
        (Some (P.numbers p, Ordering.Equal)) (Some (P.numbers p)) }
    requires few { height probe.old.tree.now.shape < 2 ^ 64 }
    requires room { probe.old.visits < 2 ^ 65 }
    ensures ended { (before : ℕ) → HasDescendedByKey T.key_of (taken ties T.Key.cmp)
        probe.old.tree.now.list.entries probe.old.tree.now.shape k.now before
        (option_map P.Inx.number lesser) probe.old.visits
        (Some (P.numbers p, Ordering.Equal)) (Some (P.numbers p))
        → HasEndedByKey T.key_of (taken ties T.Key.cmp) probe.old.tree.now k.now before
        (option_map (λ a. (P.numbers a.0, a.1)) result) probe.new.visits }
    ensures counted { probe.old.visits ≤ probe.new.visits }
{
    let mut last = Some((p, Ordering::Equal));
    // The entry after everything that is left, if it is equal.
    let mut met = Some(p);
    let mut at = lesser;
    while let Some(i) = at {
        let (p, order, next, is_end) = compare(probe, ties, k, i);
        last = Some((p, order));
        met = met_behind(met, p, order);
        if is_end {
            return found_at_end(met, last);
        }
        at = next;
    }
    found_at_end(met, last)
}

// Compares a key with that of the entry at an index. Returns the entry's pointer, the order of the key, where the search goes on, and
// whether both sides of the entry are empty.
#[inline(always)]
fn compare<P: BasePtr, T: SimpleOrdItem, A: Allocator>(
    probe: &mut Probe<'_, P, T, A>,
    ties: Ties,
    k: &T::Key,
    i: P::Inx,
) -> (P, Ordering, Option<P::Inx>, bool)
    requires { CanShow probe.old.tree.now probe.old.visits (P.Inx.number i) }
    ensures end { result.3 ≡ true → option_map P.Inx.number result.2 ≡ None }
    ensures shows { ShowsEntry probe.old.tree.now probe.new.tree.now probe.old.visits probe.new.visits
        (IsCompared T.key_of (taken ties T.Key.cmp) probe.old.tree.now
        (P.Inx.number i) k.now (P.numbers result.0) result.1
        (option_map P.Inx.number result.2)) }
{
    let (generation, node) = probe.show(i);
    let order = ties.order(k, node.t.key());
    let (next, is_end) = side_or_end::<P>(order, node.p_tree0.get(), node.p_tree1.get());
    (P::_from_raw(i, generation), order, next, is_end)
}

// The side on which the search goes on, and whether both sides are empty: the greater side of an entry that was answered `Greater`, else the
// lesser one.
//
// Both links of a node are read before one is chosen, so the choice is a conditional move and not a branch. At an entry without links a
// search ends by a branch of its own, which is foreseen; by the chosen link it would end only after the keys were compared.
#[inline(always)]
pub(crate) fn side_or_end<P: BasePtr>(
    order: Ordering,
    lesser: Option<P::Inx>,
    greater: Option<P::Inx>,
) -> (Option<P::Inx>, bool)
    ensures side { option_map P.Inx.number result.0
        ≡ side_of order (option_map P.Inx.number lesser) (option_map P.Inx.number greater) }
    ensures end { result.1 ≡ true → option_map P.Inx.number result.0 ≡ None }
{
    let is_end = lesser.is_none() && greater.is_none();
    let next = if order.is_gt() { greater } else { lesser };
    (next, is_end)
}

// The equal entry after everything that is left, if any, after one more step. `Greater` keeps it: the shown entry is before what is left.
fn met_behind<P: Copy>(met: Option<P>, p: P, order: Ordering) -> Option<P>
    ensures { result ≡ met_next met p order }
{
    match order {
        Ordering::Less => None,
        Ordering::Equal => Some(p),
        Ordering::Greater => met,
    }
}

// What a search by key answers where it ends: the equal entry after everything that is left, else the entry shown last.
fn found_at_end<P: Copy>(met: Option<P>, last: Option<(P, Ordering)>) -> Option<(P, Ordering)>
    ensures { result ≡ found_where_ended met last }
{
    match met {
        Some(p) => Some((p, Ordering::Equal)),
        None => last,
    }
}

// The laws of balance bound a search by the longest path down. The function does nothing; its contract is the law.
pub(crate) fn visits_law()
    ensures { VisitsLaw }
{
    height_law();
    rank_square_law();
    tight_rank_law();
    rebuilt_height_law();
}
