//! The ordered arena of a sorted one.

ghost use Rattle.std.specs.Prelude.{◌≡◌, ◌++◌, ℕ, true, List, Some, None, length};
ghost use Rattle.std.specs.Option.{option_map};
ghost use Rattle.std.specs.Ordering.{is_le, is_lt};
ghost use Rattle.listing.specs.Chain.{Entry, last_pointer, IsDistinct};
ghost use Rattle.listing.specs.Gap.{last_of};
ghost use Rattle.listing.specs.{PastEquals.order_past_equals, Search.FindsSimilar};
ghost use Rattle.sorted_arena.specs.Find.{IsCountedSearch};
ghost use Rattle.sorted_arena.specs.Layout.{item_key, pointer_among, sorted_of};
ghost use Rattle.sorted_arena.specs.Stretch.{first_index};
ghost use Rattle.sorted_arena.specs.Sorted.{key_of, first_where, next_of, prev_of, IsSound};

use std::alloc::Allocator;
use std::cmp::Ordering;
use triple_ord::{BasePtr, OrdPair, SimpleOrdArena, Visits};

/// Pairs by their keys.
pub(crate) type Pairs<K, V, P, A> = SimpleOrdArena<P, OrdPair<K, V>, A>;

/// Whether the entry at `p` is the last one.
pub(crate) fn is_last_in<K: Ord, V, P: BasePtr, A: Allocator>(
    pairs: &Pairs<K, V, P, A>,
    p: P,
) -> bool
    ensures { result ≡ true → option_map (λ q. q.0) (last_pointer pairs.now.list.entries)
        ≡ Some (P.numbers p).0 }
{
    match pairs.last() {
        Some(last) => last.inx() == p.inx(),
        None => false,
    }
}

// The pointer of the entry at an index.
fn pointer_at<K: Ord, V, P: BasePtr, A: Allocator>(
    pairs: &Pairs<K, V, P, A>,
    i: Option<P::Inx>,
) -> Option<P>
    ensures { option_map P.numbers result
        ≡ pointer_among pairs.now.list.entries (option_map P.Inx.number i) }
{
    let i = i?;
    let (generation, _) = pairs.get_inx(i)?;
    Some(P::_from_raw(i, generation))
}

/// The pointer of the successor of the entry at `p`.
pub(crate) fn next_in<K: Ord, V, P: BasePtr, A: Allocator>(
    pairs: &Pairs<K, V, P, A>,
    p: P,
) -> Option<P>
    ensures { IsDistinct pairs.now.list.entries → option_map P.numbers result
        ≡ next_of pairs.now.list.entries (P.numbers p) }
{
    if !pairs.contains(p) {
        return None;
    }
    let (_, link) = pairs.get_inx_link_no_gen(p.inx())?;
    pointer_at(pairs, link.next())
}

/// The pointer of the predecessor of the entry at `p`.
pub(crate) fn prev_in<K: Ord, V, P: BasePtr, A: Allocator>(
    pairs: &Pairs<K, V, P, A>,
    p: P,
) -> Option<P>
    ensures { IsDistinct pairs.now.list.entries → option_map P.numbers result
        ≡ prev_of pairs.now.list.entries (P.numbers p) }
{
    if !pairs.contains(p) {
        return None;
    }
    let (_, link) = pairs.get_inx_link_no_gen(p.inx())?;
    pointer_at(pairs, link.prev())
}

// The pointer of the first entry whose key is at least a key, by the entry that a search for it met.
#[inline(always)]
fn lower_bound_by<K: Ord, V, P: BasePtr, A: Allocator>(
    pairs: &Pairs<K, V, P, A>,
    met: Option<(P, Ordering)>,
) -> Option<P>
    ensures { (k : K) (visits : ℕ) → IsSound K.cmp P.Inx.most (sorted_of pairs.now)
        → FindsSimilar item_key K.cmp pairs.now.list.entries k
        (option_map (λ a. (P.numbers a.0, a.1)) met) visits → option_map P.numbers result
        ≡ first_where (λ e. is_le (K.cmp k (key_of e))) pairs.now.list.entries }
{
    let (p, order) = met?;
    match order {
        Ordering::Greater => next_in(pairs, p),
        _ => Some(p),
    }
}

/// The pointer of the first entry whose key is at least `k`, and how many entries the search visited.
#[inline(always)]
pub(crate) fn lower_bound_in<K: Ord, V, P: BasePtr, A: Allocator>(
    pairs: &Pairs<K, V, P, A>,
    k: &K,
) -> (Option<P>, Visits)
    ensures { IsCountedSearch (length pairs.now.list.entries) result.1
        (IsSound K.cmp P.Inx.most (sorted_of pairs.now) → option_map P.numbers result.0
        ≡ first_where (λ e. is_le (K.cmp k.now (key_of e))) pairs.now.list.entries) }
{
    let met = pairs.find_similar_key_counted(k);
    (lower_bound_by(pairs, met.0), met.1)
}

// The pointer of the first entry whose key is greater than a key, by the entry that a search for it met.
#[inline(always)]
fn upper_bound_by<K: Ord, V, P: BasePtr, A: Allocator>(
    pairs: &Pairs<K, V, P, A>,
    met: Option<(P, Ordering)>,
) -> Option<P>
    ensures { (k : K) (visits : ℕ) → IsSound K.cmp P.Inx.most (sorted_of pairs.now)
        → FindsSimilar item_key (order_past_equals K.cmp) pairs.now.list.entries k
        (option_map (λ a. (P.numbers a.0, a.1)) met) visits → option_map P.numbers result
        ≡ first_where (λ e. is_lt (K.cmp k (key_of e))) pairs.now.list.entries }
{
    let (p, order) = met?;
    match order {
        Ordering::Less => Some(p),
        _ => next_in(pairs, p),
    }
}

/// The pointer of the first entry whose key is greater than `k`, and how many entries the search visited.
#[inline(always)]
pub(crate) fn upper_bound_in<K: Ord, V, P: BasePtr, A: Allocator>(
    pairs: &Pairs<K, V, P, A>,
    k: &K,
) -> (Option<P>, Visits)
    ensures { IsCountedSearch (length pairs.now.list.entries) result.1
        (IsSound K.cmp P.Inx.most (sorted_of pairs.now) → option_map P.numbers result.0
        ≡ first_where (λ e. is_lt (K.cmp k.now (key_of e))) pairs.now.list.entries) }
{
    let met = pairs.find_behind_key_counted(k);
    (upper_bound_by(pairs, met.0), met.1)
}

/// The index of the last entry before the one at `end`; of the last entry of all, if that is `None`.
pub(crate) fn last_before<K: Ord, V, P: BasePtr, A: Allocator>(
    pairs: &Pairs<K, V, P, A>,
    end: Option<P::Inx>,
) -> Option<P::Inx>
    ensures { IsDistinct pairs.now.list.entries
        → (front back : List (Entry (K × V))) → pairs.now.list.entries ≡ front ++ back
        → first_index back ≡ option_map P.Inx.number end
        → option_map (λ e. e.index) (last_of None front) ≡ option_map P.Inx.number result }
{
    match end {
        Some(i) => {
            let (_, link) = pairs.get_inx_link_no_gen(i)?;
            link.prev()
        }
        None => {
            let last = pairs.last()?;
            Some(last.inx())
        }
    }
}
