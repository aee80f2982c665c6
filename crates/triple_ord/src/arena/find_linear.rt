//! Searches by key from a hint, which is an entry near which the key may be.
ghost use Rattle.std.specs.Prelude.{◌≡◌, length, IfNone};
ghost use Rattle.std.specs.Option.{option_map};
ghost use Rattle.ord_tree.specs.Chain.{item_of};
ghost use Rattle.triple_ord.specs.Hint.{AnswersNear, SearchesNear};
ghost use Rattle.triple_ord.specs.Arena.{FindsEqual, FindsNearest};
ghost use Rattle.triple_ord.specs.Search.{FindsKey};
ghost use Rattle.triple_ord.specs.Ties.{taken};
ghost use Rattle.triple_ord.specs.VisitBounds.{IsWithinBounds, IsWithinHintedBounds};

use super::SimpleOrdArena;
use super::find::equal_alone;
use crate::descent::descend_by_key;
use crate::item::SimpleOrdItem;
use crate::probe::Probe;
use crate::steps::step_along;
use crate::ties::Ties;
use crate::visits::Visits;
use arena_base::BasePtr;
use std::alloc::Allocator;
use std::cmp::Ordering;

impl<P: BasePtr, T: SimpleOrdItem, A: Allocator> SimpleOrdArena<P, T, A> {
    /// `find_key`, after at most `num` steps along the list from the entry that `p_init` names.
    ///
    /// Each step compares `k` with an entry's key: `Less` leads to the previous entry, `Greater` to the next. The steps end at an equal
    /// key, where the order turns, at an end of the list, and after `num` comparisons. Then a whole search follows, since an equal entry
    /// met by steps needn't be the first of its group. It follows at once if `p_init` names no entry. So a hint saves nothing here, and
    /// the result doesn't depend on it; with near keys, `find_similar_key_linear` gains.
    pub fn find_key_linear(&self, p_init: P, num: usize, k: &T::Key) -> Option<P>
        ensures { FindsEqual T.key_of T.Key.cmp P.numbers self.now k.now result }
    {
        // For the prover: the list is sound.
        prove!(self.len() <= usize::MAX);
        self.find_key_linear_counted(p_init, num, k).0
    }

    /// `find_key_linear`, with the number of entries that its steps and its whole search visited. The steps add at most the lesser of
    /// `num` and the number of entries to the bounds of a whole search. A pointer that names no entry adds none.
    pub fn find_key_linear_counted(&self, p_init: P, num: usize, k: &T::Key) -> (Option<P>, Visits)
        ensures found { FindsKey T.key_of T.Key.cmp self.now.list.entries k.now
            (option_map P.numbers result.0) result.1 }
        ensures visits { IsWithinHintedBounds
            (length self.now.list.entries) self.now.shape num result.1 }
        ensures unhinted { IfNone (item_of self.now.list.entries (P.numbers p_init))
            (IsWithinBounds (length self.now.list.entries) self.now.shape result.1) }
    {
        if !self.contains(p_init) {
            return self.find_key_counted(k);
        }
        let mut probe = Probe::new(&self.tree);
        let _near = step_along(&mut probe, Ties::Sought, p_init.inx(), num, k);
        let found = descend_by_key(&mut probe, Ties::Sought, k);
        (equal_alone(found), probe.visits())
    }

    /// `find_similar_key`, after at most `num` steps along the list from the entry at the index, whatever its generation.
    ///
    /// The steps are those of `find_key_linear`. The result is the entry at which the order turns, or the one at the end of the list that
    /// was reached. After an equal key, and after `num` comparisons, a whole search follows. It follows at once if there is no entry at
    /// the index.
    ///
    /// So on a list in the order of its keys, without an equal key, a near hint determines which neighbour of the gap is the result: the
    /// far one, as seen from the hint.
    pub fn find_similar_key_linear(
        &self,
        p_init: P::Inx,
        num: usize,
        k: &T::Key,
    ) -> Option<(P, Ordering)>
        ensures finds { FindsNearest T.key_of T.Key.cmp P.numbers self.now k.now result }
        ensures answers { AnswersNear T.key_of T.Key.cmp self.now.list.entries k.now
            (P.Inx.number p_init) num (option_map (λ a. (P.numbers a.0, a.1)) result) }
    {
        self.find_similar_key_linear_counted(p_init, num, k).0
    }

    /// `find_similar_key_linear`, with the number of entries that its steps and its whole search visited, within the bounds of
    /// `find_key_linear_counted`.
    ///
    /// On a list in the order of its keys, without an equal key, count the entries from the hint to the far neighbour of the gap where
    /// `k` belongs, or to the end of the list if the gap has none. If they are at most `num`, the visits are no more.
    pub fn find_similar_key_linear_counted(
        &self,
        p_init: P::Inx,
        num: usize,
        k: &T::Key,
    ) -> (Option<(P, Ordering)>, Visits)
        ensures { SearchesNear T.key_of T.Key.cmp T.Key.cmp self.now k.now
            (P.Inx.number p_init) num
            (option_map (λ a. (P.numbers a.0, a.1)) result.0) result.1 }
    {
        self.search_from(Ties::Sought, p_init, num, k)
    }

    // A search from a hint, which treats equal keys by `ties`.
    #[inline(always)]
    pub(super) fn search_from(
        &self,
        ties: Ties,
        p_init: P::Inx,
        num: usize,
        k: &T::Key,
    ) -> (Option<(P, Ordering)>, Visits)
        ensures { SearchesNear T.key_of T.Key.cmp (taken ties T.Key.cmp) self.now k.now
            (P.Inx.number p_init) num
            (option_map (λ a. (P.numbers a.0, a.1)) result.0) result.1 }
    {
        if !self.tree.contains_inx(p_init) {
            return self.search(ties, k);
        }
        let mut probe = Probe::new(&self.tree);
        let near = step_along(&mut probe, ties, p_init, num, k);
        if near.is_some() {
            return (near, probe.visits());
        }
        let found = descend_by_key(&mut probe, ties, k);
        (found, probe.visits())
    }
}
