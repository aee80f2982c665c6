//! The descent to the place of a key, past an entry that is about to move.
//!
//! The tree still holds that entry, but its key says nothing about its place: it may be the old key, or one written over it. So the
//! entry's predecessor answers for it. If the predecessor is before the place of the key, so is the whole lesser side; otherwise the
//! place isn't on the greater side.
ghost use Rattle.std.specs.Prelude.{◌≡◌, ◌-◌, ◌^◌, ◌<◌, true, None};
ghost use Rattle.std.specs.Option.{option_map, option_copied};
ghost use Rattle.triple_ord.specs.Descent.{CanShow, ShowsEntry};
ghost use Rattle.triple_ord.specs.Around.{order_behind, FindsAround, IsAnsweredAround};
ghost use Rattle.triple_ord.specs.VisitBounds.{IsBoundedSearch};

use crate::descent::{side_or_end, visits_law};
use crate::item::SimpleOrdItem;
use crate::probe::Probe;
use crate::ties::Ties;
use arena_base::BasePtr;
use std::alloc::Allocator;
use std::cmp::Ordering;

/// Descends from the root to the place behind all entries whose key is at most `k`, as if the entry at the index `passed` weren't there.
/// Returns the entry shown last and the side of it on which the place is.
pub(crate) fn descend_around<P: BasePtr, T: SimpleOrdItem, A: Allocator>(
    probe: &mut Probe<'_, P, T, A>,
    passed: P::Inx,
    k: &T::Key,
) -> Option<(P, Ordering)>
    requires { probe.old.visits < 2 ^ 64 }
    ensures { IsBoundedSearch probe.old.tree.now (probe.new.visits - probe.old.visits)
        (FindsAround T.key_of T.Key.cmp probe.old.tree.now.list.entries
        (P.Inx.number passed) k.now (option_map (λ a. (P.numbers a.0, a.1)) result)
        (probe.new.visits - probe.old.visits)) }
{
    visits_law();
    let mut last = None;
    let mut at = probe.root();
    while let Some(i) = at {
        let (p, order, next, is_end) = compare_around(probe, passed, k, i);
        last = Some((p, order));
        if is_end {
            return last;
        }
        at = next;
    }
    last
}

// Compares a key with that of the entry at an index, or with its predecessor's if that entry is passed over. Returns the entry's pointer,
// the order of the key, where the search goes on, and whether both sides of the entry are empty.
#[inline(always)]
fn compare_around<P: BasePtr, T: SimpleOrdItem, A: Allocator>(
    probe: &mut Probe<'_, P, T, A>,
    passed: P::Inx,
    k: &T::Key,
    i: P::Inx,
) -> (P, Ordering, Option<P::Inx>, bool)
    requires { CanShow probe.old.tree.now probe.old.visits (P.Inx.number i) }
    ensures end { result.3 ≡ true → option_map P.Inx.number result.2 ≡ None }
    ensures shows { ShowsEntry probe.old.tree.now probe.new.tree.now probe.old.visits probe.new.visits
        (IsAnsweredAround T.key_of T.Key.cmp probe.old.tree.now
        (P.Inx.number passed) k.now (P.Inx.number i) (P.numbers result.0) result.1
        (option_map P.Inx.number result.2)) }
{
    if i == passed {
        let (generation, node, previous) = probe.show_previous(i);
        let order = lies_behind(k, previous);
        let (next, is_end) = side_or_end::<P>(order, node.p_tree0.get(), node.p_tree1.get());
        return (P::_from_raw(i, generation), order, next, is_end);
    }
    let (generation, node) = probe.show(i);
    let order = Ties::Passed.order(k, node.t.key());
    let (next, is_end) = side_or_end::<P>(order, node.p_tree0.get(), node.p_tree1.get());
    (P::_from_raw(i, generation), order, next, is_end)
}

// The order of a key to the item before it, if any. An equal key counts as smaller.
fn lies_behind<T: SimpleOrdItem>(k: &T::Key, previous: Option<&T>) -> Ordering
    ensures { result ≡ order_behind T.key_of T.Key.cmp k.now (option_copied previous.entry) }
{
    match previous {
        Some(item) => Ties::Passed.order(k, item.key()),
        None => Ordering::Greater,
    }
}
