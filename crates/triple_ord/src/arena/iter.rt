//! Iterating over an arena in list order.
ghost use Rattle.std.specs.Prelude.{◌≡◌};
ghost use Rattle.std.specs.Iterator.{YieldsFirstBy, item_count};
ghost use Rattle.triple_ord.specs.Walk.{IsExactHint};

use super::SimpleOrdArena;
use arena_base::BasePtr;
use std::alloc::{Allocator, Global};
use std::marker::Model;

/// Returns the pointers and the items of an arena in list order.
#[derive(Drop)]
pub struct Iter<'a, P: BasePtr, T, A: Allocator = Global> {
    arena: &'a SimpleOrdArena<P, T, A>,
    // The index of the next entry.
    at: Option<P::Inx>,
    // The number of entries left.
    left: usize,
}

impl<'a, P: BasePtr, T, A: Allocator> Model for Iter<'a, P, T, A> {
    ghost use Rattle.std.specs.Prelude.{List};
    ghost use Rattle.std.specs.Option.{option_map};
    ghost use Rattle.std.specs.Coded.{coded_list};
    ghost use Rattle.ord_tree.specs.Chain.{Entry};
    ghost use Rattle.ord_tree.specs.Tree.{entry_code};

    ghost Value = { List (Entry T) };

    ghost coded = { coded_list (entry_code T.code) };

    ghost use Rattle.triple_ord.specs.Walk.{entries_left, IsWalking};

    ghost view = { λ i. entries_left i.arena.now.list.entries (option_map P.Inx.number i.at) };

    ghost invariant = { λ i. IsWalking i.arena.now.list.entries
        (option_map P.Inx.number i.at) i.left };
}

impl<P: BasePtr, T, A: Allocator> SimpleOrdArena<P, T, A> {
    /// Returns an iterator over the entries in list order, each as its pointer and its item. O(1) a step.
    pub fn iter_ordered(&self) -> Iter<'_, P, T, A>
        ensures { result ≡ self.now.list.entries }
    {
        // For the prover: the list is sound.
        let left = self.len();
        let at = match self.first() {
            Some(p) => Some(p.inx()),
            None => None,
        };
        Iter {
            arena: self,
            at,
            left,
        }
    }
}

impl<'a, P: BasePtr, T, A: Allocator> Iterator for Iter<'a, P, T, A> {
    type Item = (P, &'a T);

    ghost next_gives = { YieldsFirstBy
        (λ x. record { index = (P.numbers x.0).0; generation = (P.numbers x.0).1; item = x.1.now })
        (λ left. left) };

    ghost remaining = { item_count (λ left. left) };

    fn next(&mut self) -> Option<(P, &'a T)> {
        let i = self.at?;
        let entry = self.arena.get_inx_link_no_gen(i)?;
        let link = entry.1;
        self.at = link.next();
        self.left -= 1;
        Some((P::_from_raw(i, entry.0), link.t))
    }

    fn size_hint(&self) -> (usize, Option<usize>)
        ensures { IsExactHint self.now result }
    {
        (self.left, Some(self.left))
    }
}

impl<'a, P: BasePtr, T, A: Allocator> ExactSizeIterator for Iter<'a, P, T, A> {
    fn len(&self) -> usize {
        self.left
    }
}

impl<'a, P: BasePtr, T, A: Allocator> IntoIterator for &'a SimpleOrdArena<P, T, A> {
    type Item = (P, &'a T);

    type IntoIter = Iter<'a, P, T, A>;

    ghost into_iter_gives = { λ a i. i ≡ a.now.list.entries };

    fn into_iter(self) -> Iter<'a, P, T, A> {
        self.iter_ordered()
    }
}
