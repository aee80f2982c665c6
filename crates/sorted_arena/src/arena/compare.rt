//! Comparisons of sorted arenas by their keys and values, in order. Pointers play no part.

ghost use Rattle.std.specs.Prelude.{◌&&◌, ◌++◌, map};
ghost use Rattle.std.specs.Hash as fed;
ghost use Rattle.std.specs.Cmp.Lexicographic.{pointwise, slice_cmp, slice_partial_cmp, lists_equiv, lists_agrees, lists_total, lists_ties, lists_per, lists_po};
ghost use Rattle.std.specs.Ordering.{ordering_then, partial_ordering_then};
ghost use Rattle.std.specs.Cmp.{on_equiv, and_equiv, then_agrees, on_total, then_total, both_tied, on_per, and_per, on_po, then_po};
ghost use Rattle.std.specs.Hash.{on_Alike, and-Alike, items_Alike};
ghost use Rattle.sorted_arena.specs.Sorted.{pair_of};

use super::SortedArena;
use std::alloc::Allocator;
use std::cmp::Ordering;
use std::hash::{Hash, Hasher};
use triple_ord::BasePtr;

/// Equal keys and equal values, in order.
impl<K: Ord, V: PartialEq, P: BasePtr, A: Allocator> PartialEq for SortedArena<K, V, P, A> {
    ghost eq = { λ a b. pointwise (λ p q. K.eq p.0 q.0 && V.eq p.1 q.1)
        (map pair_of a.entries) (map pair_of b.entries) };

    ghost laws = { on_per (λ a. map pair_of a.entries)
        (lists_per (and_per (on_per (λ p. p.0) K.PartialEq.laws) (on_per (λ p. p.1) V.laws))) };

    fn eq(&self, other: &SortedArena<K, V, P, A>) -> bool {
        self.pairs.canonical_eq(&other.pairs)
    }
}

impl<K: Ord, V: Eq, P: BasePtr, A: Allocator> Eq for SortedArena<K, V, P, A> {
    ghost laws = { on_equiv (λ a. map pair_of a.entries)
        (lists_equiv (and_equiv (on_equiv (λ p. p.0) K.Eq.laws) (on_equiv (λ p. p.1) V.Eq.laws))) };
}

/// As words are ordered by their letters: by the first pairs that differ, each first by its key.
impl<K: Ord, V: PartialOrd, P: BasePtr, A: Allocator> PartialOrd for SortedArena<K, V, P, A> {
    ghost partial_cmp = { λ a b. slice_partial_cmp
        (λ p q. partial_ordering_then (K.partial_cmp p.0 q.0) (V.partial_cmp p.1 q.1))
        (map pair_of a.entries) (map pair_of b.entries) };

    ghost laws = { on_po (λ a. map pair_of a.entries) (lists_po (then_po
        (on_po (λ p. p.0) K.PartialOrd.laws) (on_po (λ p. p.1) V.PartialOrd.laws))) };

    fn partial_cmp(&self, other: &SortedArena<K, V, P, A>) -> Option<Ordering> {
        self.pairs.canonical_partial_cmp(&other.pairs)
    }
}

impl<K: Ord, V: Ord, P: BasePtr, A: Allocator> Ord for SortedArena<K, V, P, A> {
    ghost cmp = { λ a b. slice_cmp (λ p q. ordering_then (K.cmp p.0 q.0) (V.cmp p.1 q.1))
        (map pair_of a.entries) (map pair_of b.entries) };

    ghost total = { on_total (λ a. map pair_of a.entries)
        (lists_total (then_total (on_total (λ p. p.0) K.total) (on_total (λ p. p.1) V.total))) };

    ghost matches_partial_cmp = { λ a b. lists_agrees (then_agrees
        (λ p q. K.matches_partial_cmp p.0 q.0) (λ p q. V.matches_partial_cmp p.1 q.1))
        (map pair_of a.entries) (map pair_of b.entries) };

    ghost matches_eq = { λ a b.
        let K' = K.cmp in
        let V' = V.cmp in
        lists_ties (λ p q. ordering_then (K' p.0 q.0) (V' p.1 q.1))
        (λ p q. both_tied _ _ (K' p.0 q.0) (V' p.1 q.1) (K.matches_eq p.0 q.0)
        (V.matches_eq p.1 q.1)) (map pair_of a.entries) (map pair_of b.entries) };

    fn cmp(&self, other: &SortedArena<K, V, P, A>) -> Ordering {
        self.pairs.canonical_cmp(&other.pairs)
    }
}

impl<K: Ord + Hash, V: Hash, P: BasePtr, A: Allocator> Hash for SortedArena<K, V, P, A> {
    ghost hash_input = { λ a. fed.slice (λ p. K.hash_input p.0 ++ V.hash_input p.1)
        (map pair_of a.entries) };

    ghost respects_eq = { (on_Alike (λ a. map pair_of a.entries) (items_Alike (and-Alike
        (on_Alike (λ p. p.0) (record { fed = K.respects_eq }))
        (on_Alike (λ p. p.1) (record { fed = V.respects_eq }))))).fed };

    fn hash<H: Hasher>(&self, state: &mut H) {
        state.write_usize(self.len());
        let mut items = self.iter().items();
        while let Some((k, v)) = items.next() {
            k.hash(state);
            v.hash(state);
        }
    }
}
