//! Indexing by valid pointers, and printing.
ghost use Rattle.std.specs.Prelude.{◌≡◌, Some, IsSome};
ghost use Rattle.std.specs.Borrow.{sem, Lends};
ghost use Rattle.arena_base.specs.Arena.{item_of, with_item};

use super::Arena;
use super::get::pointer;
use crate::items_mut::ItemsMut;
use crate::ptr::BasePtr;
use std::alloc::Allocator;
use std::fmt;
use std::ops::{Index, IndexMut};

impl<P: BasePtr, T, A: Allocator> Index<P> for Arena<P, T, A> {
    type Output = T;

    ghost can_index = { λ a p. IsSome (item_of a (P.numbers p)) };

    ghost index_gives = { λ a p item. item_of a (P.numbers p) ≡ Some item };

    fn index(&self, p: P) -> &T {
        self.get(p).unwrap()
    }
}

impl<P: BasePtr, T, A: Allocator> IndexMut<P> for Arena<P, T, A> {
    ghost use Rattle.arena_base.specs.contracts.arena.Arena.{the_row};

    fn index_mut(&mut self, p: P) -> &mut T
        requires { IsSome (item_of self.old (P.numbers p)) }
        ensures* writes_back { sem 𝓛 (Lends (the_row P.row T.row A.row P.Inx.row P.Gen.row
            P.BasePtr.own P.PartialEq P.Inx.BasePtrInx.own P.Inx.PartialEq
            P.Gen.BasePtrGen.own P.Gen.PartialEq A.Allocator)
            T.row self.entry result (with_item self.old (P.numbers p).0)) }
        ensures value { item_of self.old (P.numbers p) ≡ Some result.now }
    {
        self.pair_mut(p.inx()).1
    }
}

impl<P: BasePtr + fmt::Debug, T: fmt::Debug, A: Allocator> fmt::Debug for Arena<P, T, A> {
    fn fmt<W: fmt::Write>(&self, f: &mut fmt::Formatter<W>) -> fmt::Result {
        let mut out = f.debug_map();
        for position in 0..self.capacity() {
            if let Some(generation) = self.generation_at(position) {
                let p: P = pointer(position, generation);
                if let Some(item) = self.get(p) {
                    out.entry(&p, item);
                }
            }
        }
        out.finish()
    }
}
