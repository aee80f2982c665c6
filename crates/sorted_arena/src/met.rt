//! Searches of an ordered arena by a closure.

ghost use Rattle.std.specs.Prelude.{◌≡◌, IsSome, IfSome};
ghost use Rattle.std.specs.Option.{option_map};
ghost use Rattle.std.specs.Ordering.{is_ge, is_gt, is_le, is_lt, ordering_index};
ghost use Rattle.std.specs.declared.cmp.Ordering.{Ordering};
ghost use Rattle.listing.specs.Chain.{IsDistinct};
ghost use Rattle.sorted_arena.specs.Compare.{ComparesBy};
ghost use Rattle.sorted_arena.specs.Layout.{sorted_of};
ghost use Rattle.sorted_arena.specs.Met.{from_met, AnswersBy, Rises};
ghost use Rattle.sorted_arena.specs.Sorted.{get, key_of, first_where, IsSound};

use crate::pairs::{Pairs, next_in};
use std::alloc::Allocator;
use std::cmp::Ordering;
use triple_ord::{BasePtr, OrdPair};

// The pointer of the entry that a search by a closure met last, if it is behind the place that was sought, or else of the entry after it.
fn behind_met<K: Ord, V, P: BasePtr, A: Allocator>(
    pairs: &Pairs<K, V, P, A>,
    met: Option<(P, Ordering)>,
) -> Option<P>
    ensures { IsDistinct pairs.now.list.entries → option_map P.numbers result
        ≡ from_met pairs.now.list.entries (option_map (λ a. (P.numbers a.0, a.1)) met) }
{
    let (p, order) = met?;
    match order {
        Ordering::Less => Some(p),
        _ => next_in(pairs, p),
    }
}

/// The pointer of the first entry for whose key `f` doesn't answer `Less`.
pub(crate) fn first_from_in<K: Ord, V, P: BasePtr, A: Allocator, F: Fn(&K) -> Ordering>(
    pairs: &Pairs<K, V, P, A>,
    f: &F,
) -> Option<P>
    requires { F.IsAlwaysCallable f.now }
    ensures named { IsSound K.cmp P.Inx.most (sorted_of pairs.now)
        → IfSome result (λ p. IsSome (get (sorted_of pairs.now) (P.numbers p))) }
    ensures first { (order : K → Ordering) → ComparesBy F.Fn f.now order
        → IsDistinct pairs.now.list.entries
        → Rises (λ e. ordering_index (order (key_of e))) pairs.now.list.entries
        → option_map P.numbers result
        ≡ first_where (λ e. is_ge (order (key_of e))) pairs.now.list.entries }
{
    let met = pairs.find_similar_with(
        |_p: P, pair: &OrdPair<K, V>| -> Ordering
            requires { F.IsAlwaysCallable f.now }
            ensures { AnswersBy F.Fn f.entry.now pair.now.0 is_lt result }
        {
            if f(pair.k()).is_lt() {
                Ordering::Greater
            } else {
                Ordering::Less
            }
        },
    );
    behind_met(pairs, met)
}

/// The pointer of the first entry for whose key `f` answers `Greater`.
pub(crate) fn first_behind_in<K: Ord, V, P: BasePtr, A: Allocator, F: Fn(&K) -> Ordering>(
    pairs: &Pairs<K, V, P, A>,
    f: &F,
) -> Option<P>
    requires { F.IsAlwaysCallable f.now }
    ensures named { IsSound K.cmp P.Inx.most (sorted_of pairs.now)
        → IfSome result (λ p. IsSome (get (sorted_of pairs.now) (P.numbers p))) }
    ensures first { (order : K → Ordering) → ComparesBy F.Fn f.now order
        → IsDistinct pairs.now.list.entries
        → Rises (λ e. ordering_index (order (key_of e))) pairs.now.list.entries
        → option_map P.numbers result
        ≡ first_where (λ e. is_gt (order (key_of e))) pairs.now.list.entries }
{
    let met = pairs.find_similar_with(
        |_p: P, pair: &OrdPair<K, V>| -> Ordering
            requires { F.IsAlwaysCallable f.now }
            ensures { AnswersBy F.Fn f.entry.now pair.now.0 is_le result }
        {
            if f(pair.k()).is_le() {
                Ordering::Greater
            } else {
                Ordering::Less
            }
        },
    );
    behind_met(pairs, met)
}
