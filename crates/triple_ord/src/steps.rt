//! Steps along the list from a hint.
ghost use Rattle.std.specs.Prelude.{◌≡◌, ◌≤◌, IsSome, length};
ghost use Rattle.std.specs.Option.{option_map};
ghost use Rattle.ord_tree.specs.Chain.{entry_at};
ghost use Rattle.triple_ord.specs.Steps.{neighbour_towards, Settles, IsNear, EndsNear};
ghost use Rattle.triple_ord.specs.Ties.{taken};

use crate::item::SimpleOrdItem;
use crate::probe::Probe;
use crate::ties::Ties;
use arena_base::BasePtr;
use chain_base::LinkNoGen;
use std::alloc::Allocator;
use std::cmp::Ordering;

/// Steps along the list from the entry at an index to the place of the key. Returns what a search for a similar key does, or `None` if
/// the steps leave the result open.
///
/// Each step compares the key with that of an entry: `Less` leads to the previous entry, `Greater` to the next. The steps end with a
/// result where the order turns, and at an end of the list. They end without one after `num` comparisons, and at an equal key that is
/// sought, since it may not be the first of its group.
// Inlined, so that an insertion with the hint `num: 1` has no loop.
#[inline(always)]
pub(crate) fn step_along<P: BasePtr, T: SimpleOrdItem, A: Allocator>(
    probe: &mut Probe<'_, P, T, A>,
    ties: Ties,
    p_init: P::Inx,
    num: usize,
    k: &T::Key,
) -> Option<(P, Ordering)>
    requires fresh { probe.old.visits ≡ 0 }
    requires occupied { IsSome (entry_at probe.old.tree.now.list.entries (P.Inx.number p_init)) }
    ensures settled { Settles T.key_of (taken ties T.Key.cmp) probe.old.tree.now.list.entries k.now
        (option_map (λ a. (P.numbers a.0, a.1)) result) probe.new.visits }
    ensures few { probe.new.visits ≤ num }
    ensures within { probe.new.visits ≤ length probe.old.tree.now.list.entries }
    ensures near { IsNear T.key_of T.Key.cmp probe.old.tree.now.list.entries k.now
        (P.Inx.number p_init) num result probe.new.visits }
    ensures ends { EndsNear T.key_of T.Key.cmp probe.old.tree.now.list.entries k.now
        (P.Inx.number p_init) (option_map (λ a. (P.numbers a.0, a.1)) result) }
    ensures tree { probe.new.tree.now ≡ probe.old.tree.now }
{
    let mut at = p_init;
    // The order at the previous entry, `Equal` at the start.
    let mut came = Ordering::Equal;
    for _step in 0..num {
        let (generation, link) = probe.show_link(at);
        let node = &link.t;
        let order = ties.order(k, node.t.key());
        if order.is_eq() {
            return None;
        }
        match towards(link, order) {
            Some(next) if order != came.reverse() => at = next,
            _ => return Some((P::_from_raw(at, generation), order)),
        }
        came = order;
    }
    None
}

// The entry's neighbour towards the key. There is none beyond an end of the list, and none for an equal key.
#[inline(always)]
fn towards<P: BasePtr, T>(link: &LinkNoGen<P, T>, order: Ordering) -> Option<P::Inx>
    ensures { option_map P.Inx.number result ≡ neighbour_towards link.now order }
{
    match order {
        Ordering::Less => link.prev(),
        Ordering::Equal => None,
        Ordering::Greater => link.next(),
    }
}
