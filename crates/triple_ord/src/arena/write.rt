//! Writing items in place. Each entry keeps its pointer and its place, and the shape stays.
ghost use Rattle.std.specs.Prelude.{◌≡◌, Some, IsSome};
ghost use Rattle.std.specs.Option.{option_copied_mut};
ghost use Rattle.std.specs.Borrow.{sem, Lends, LendsIf};
ghost use Rattle.ord_tree.specs.Tree.{with_item};
ghost use Rattle.triple_ord.specs.Arena.{item_of, entry_at, Reads};

use super::SimpleOrdArena;
use arena_base::{BasePtr, ItemsMut};
use std::alloc::Allocator;
use std::ops::IndexMut;

/// Writes by index take O(1). The note on keys at `get_mut` holds here too.
impl<P: BasePtr, T, A: Allocator> ItemsMut<P, T> for SimpleOrdArena<P, T, A> {
    ghost entry_at = { entry_at };

    ghost written = { with_item };

    fn contains_inx(&self, i: P::Inx) -> bool {
        self.contains_inx(i)
    }

    fn pair_mut(&mut self, i: P::Inx) -> (P::Gen, &mut T) {
        self.tree.pair_mut(i)
    }
}

impl<P: BasePtr, T, A: Allocator> SimpleOrdArena<P, T, A> {
    ghost use Rattle.triple_ord.specs.contracts.arena.SimpleOrdArena.{the_row};

    /// Returns the item that the pointer names, for writing. O(1).
    ///
    /// If its key is written too, the entry stays in its place. Later searches may then miss it or others, but nothing else is harmed.
    pub fn get_mut(&mut self, p: P) -> Option<&mut T>
        ensures* writes_back { sem 𝓛 (LendsIf (the_row P.row T.row A.row P.Inx.row P.Gen.row
            P.BasePtr.own P.PartialEq P.Inx.BasePtrInx.own P.Inx.PartialEq
            P.Gen.BasePtrGen.own P.Gen.PartialEq A.Allocator)
            T.row self.entry result (with_item self.old (P.numbers p).0) self.old) }
        ensures value { Reads P.Inx.most P.Gen.greatest self.old
            (option_copied_mut result ≡ item_of self.old (P.numbers p)) }
    {
        if self.contains(p) {
            self.tree.item_at_mut(p.inx())
        } else {
            None
        }
    }
}

impl<P: BasePtr, T, A: Allocator> IndexMut<P> for SimpleOrdArena<P, T, A> {
    ghost use Rattle.triple_ord.specs.contracts.arena.SimpleOrdArena.{the_row};

    fn index_mut(&mut self, p: P) -> &mut T
        requires { IsSome (item_of self.old (P.numbers p)) }
        ensures* writes_back { sem 𝓛 (Lends (the_row P.row T.row A.row P.Inx.row P.Gen.row
            P.BasePtr.own P.PartialEq P.Inx.BasePtrInx.own P.Inx.PartialEq
            P.Gen.BasePtrGen.own P.Gen.PartialEq A.Allocator)
            T.row self.entry result (with_item self.old (P.numbers p).0)) }
        ensures value { item_of self.old (P.numbers p) ≡ Some result.now }
    {
        self.tree.pair_mut(p.inx()).1
    }
}
