//! Writing items in place.
ghost use Rattle.std.specs.Prelude.{◌≡◌, ℕ, Option, Some, IsSome};
ghost use Rattle.std.specs.Borrow.{sem, Lends};
ghost use Rattle.arena_base.specs.Arena.{slot};
ghost use Rattle.chain_base.specs.Chain.{entry_at, with_item};
ghost use Rattle.chain_base.specs.Layout.{entry_in, rewritten};

use super::ChainArena;
use crate::link::LinkNoGen;
use arena_base::{Arena, BasePtr, ItemsMut};
use std::alloc::Allocator;

impl<P: BasePtr, T, A: Allocator> ItemsMut<P, T> for ChainArena<P, T, A> {
    ghost entry_at = { λ c. entry_at c.entries };

    ghost written = { with_item };

    fn contains_inx(&self, i: P::Inx) -> bool {
        self.contains_inx(i)
    }

    fn pair_mut(&mut self, i: P::Inx) -> (P::Gen, &mut T) {
        self.arena.link_item_mut(i)
    }
}

// An arena of links that lets their items be written.
trait LinkItemsMut<P: BasePtr, T> {
    // Generation and item of the link at an index.
    ghost item_at: { Self → ℕ → Option (ℕ × T) };

    // The links with another item in the one at an index.
    ghost written: { Self → ℕ → T → Self };

    // Generation and item of the link at an occupied index. The item may be written.
    fn link_item_mut(&mut self, i: P::Inx) -> (P::Gen, &mut T)
        requires { IsSome (item_at self.old (P.Inx.number i)) }
        ensures* writes_back { sem 𝓛
            (Lends Self.row T.row self.entry result.1 (written self.old (P.Inx.number i))) }
        ensures value { item_at self.old (P.Inx.number i)
            ≡ Some (P.Gen.number result.0, result.1.now) };
}

impl<P: BasePtr, T, A: Allocator> LinkItemsMut<P, T> for Arena<P, LinkNoGen<P, T>, A> {
    ghost item_at = { λ links i. entry_in (slot links i) };

    ghost written = { rewritten };

    fn link_item_mut(&mut self, i: P::Inx) -> (P::Gen, &mut T) {
        let pair = self.pair_mut(i);
        let link = pair.1;
        (pair.0, &mut link.t)
    }
}
