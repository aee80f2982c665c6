//! Entries by their pointers.

ghost use Rattle.std.specs.Prelude.{◌≡◌, Some, IsSome, is_some};
ghost use Rattle.std.specs.Option.{option_copied, option_copied_mut, option_map};
ghost use Rattle.std.specs.Borrow.{sem, LendsIf};
ghost use Rattle.sorted_arena.specs.Sorted.{get, with_value};

use super::SortedArena;
use std::alloc::Allocator;
use std::mem;
use std::ops::Index;
use triple_ord::BasePtr;

impl<K: Ord, V, P: BasePtr, A: Allocator> SortedArena<K, V, P, A> {
    /// Returns whether `p` names an entry, in O(1).
    pub fn contains(&self, p: P) -> bool
        ensures { result ≡ is_some (get self.now (P.numbers p)) }
    {
        self.pairs.contains(p)
    }

    /// Returns the key and the value of the entry at `p`, in O(1). `None` if `p` is stale.
    pub fn get(&self, p: P) -> Option<(&K, &V)>
        ensures { option_map (λ e. (e.0.now, e.1.now)) result ≡ get self.now (P.numbers p) }
    {
        let pair = self.pairs.get(p)?;
        Some(pair.k_v())
    }

    /// Returns the key of the entry at `p`, in O(1). `None` if `p` is stale.
    pub fn key(&self, p: P) -> Option<&K>
        ensures { option_copied result
            ≡ option_map (λ e. e.0) (get self.now (P.numbers p)) }
    {
        let pair = self.pairs.get(p)?;
        Some(pair.k())
    }

    ghost use Rattle.sorted_arena.specs.contracts.arena.SortedArena.{the_row};

    /// Returns the value of the entry at `p`, to be written, in O(1). `None` if `p` is stale.
    ///
    /// ```
    /// let ada = scores.insert("Ada", 3).map_err(|refused| refused.1)?;
    /// if let Some(score) = scores.value_mut(ada) {
    ///     *score = 5;
    /// }
    /// assert_eq!(rt; scores.get(ada), Some((&"Ada", &5)));
    /// ```
    pub fn value_mut(&mut self, p: P) -> Option<&mut V>
        ensures* writes_back { sem 𝓛 (LendsIf (the_row K.row V.row P.row A.row P.Inx.row P.Gen.row
            K.Ord.own K.PartialEq K.PartialOrd.own
            P.BasePtr.own P.PartialEq P.Inx.BasePtrInx.own P.Inx.PartialEq
            P.Gen.BasePtrGen.own P.Gen.PartialEq A.Allocator)
            V.row self.entry result
            (with_value self.old (P.numbers p) (get self.old (P.numbers p))) self.old) }
        ensures value { option_copied_mut result
            ≡ option_map (λ e. e.1) (get self.old (P.numbers p)) }
    {
        let pair = self.pairs.get_mut(p)?;
        Some(pair.v_mut())
    }
}

impl<K: Ord + Drop, V: Drop, P: BasePtr, A: Allocator> SortedArena<K, V, P, A> {
    /// Replaces the value of the entry at `p` and returns the old one, in O(1). If `p` is stale, `v` is dropped and nothing changes.
    pub fn set_value(&mut self, p: P, v: V) -> Option<V>
        ensures value { result ≡ option_map (λ e. e.1) (get self.old (P.numbers p)) }
        ensures after { self.new
            ≡ with_value self.old (P.numbers p) (get self.old (P.numbers p)) v }
    {
        let value = self.value_mut(p)?;
        Some(mem::replace(value, v))
    }
}

/// `arena[p]` is the value of the entry at `p`.
impl<K: Ord, V, P: BasePtr, A: Allocator> Index<P> for SortedArena<K, V, P, A> {
    type Output = V;

    ghost can_index = { λ a p. IsSome (get a (P.numbers p)) };

    ghost index_gives = { λ a p v. option_map (λ e. e.1) (get a (P.numbers p)) ≡ Some v };

    fn index(&self, p: P) -> &V {
        self.pairs.get(p).unwrap().v()
    }
}
