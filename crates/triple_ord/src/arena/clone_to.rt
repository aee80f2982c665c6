//! Clones of an arena into arenas of other kinds, with items made by a closure.
ghost use Rattle.std.specs.Prelude.{◌≡◌, ◌<◌, ◌↔◌, OnOk, OnErr};
ghost use Rattle.ord_tree.specs.PlainArena.{HoldsSame, arena_capacity, arena_limit, greatest_occupied};
ghost use Rattle.ord_tree.specs.ArenaClone.{IsClone, IsShown};
ghost use Rattle.ord_tree.specs.Chain.{chain_limit, greatest_index};
ghost use Rattle.ord_tree.specs.ChainClone.{IsClone as IsClonedList};
ghost use Rattle.ord_tree.specs.Clone.{ShowsItem};
ghost use Rattle.triple_ord.specs.Content.{content_of};

use super::SimpleOrdArena;
use arena_base::{ArenaCloneFromWith, BasePtr, ReallocationError};
use chain_base::ChainArena;
use std::alloc::Allocator;

impl<P: BasePtr, T: Drop, A: Allocator + Copy> SimpleOrdArena<P, T, A> {
    /// Makes `arena` a clone of this one with items made by `map`. It gets this arena's pointers and generation, but not the order; its
    /// own entries are dropped.
    ///
    /// Calls `map` for each entry, by rising index, with its pointer and a reference to its item. If the other arena's capacity is less
    /// than the greatest index with an entry, it first grows to that index; its maximum stays. O(capacity), of both.
    ///
    /// # Errors
    ///
    /// The content of the other arena is unchanged, and `map` isn't called.
    /// - `BeyondMaxCapacity`: that index is beyond the other arena's limit.
    /// - `AllocError`: growing failed.
    pub fn clone_to_arena<U: Drop, C: ArenaCloneFromWith<P, U>, F: FnMut(P, &T) -> U + Drop>(
        &self,
        arena: &mut C,
        map: F,
    ) -> Result<(), ReallocationError>
        requires { F.IsAlwaysCallable map }
        ensures ok { OnOk result ((last : F) × IsClone P.numbers (IsShown F.step) map
            (content_of self.now) (C.content arena.old) (C.content arena.new) last) }
        ensures beyond { (result ≡ Err ReallocationError.BeyondMaxCapacity)
            ↔ (arena_limit P.Inx.most (C.content arena.old)
            < greatest_occupied (content_of self.now).slots) }
        ensures memory { result ≡ Err ReallocationError.AllocError
            → arena_capacity (C.content arena.old) < greatest_occupied (content_of self.now).slots }
        ensures err { OnErr result (HoldsSame (C.content arena.new) (C.content arena.old)) }
    {
        arena.clone_from_with(self, map)
    }

    /// Makes `chain` a clone of this arena's list with items made by `map`. It gets this arena's pointers, order and generation; its own
    /// entries are dropped.
    ///
    /// Calls `map` for each entry, by rising index, with its pointer and a reference to its item. If the chain's capacity is less than
    /// the greatest index with an entry, it first grows to that index. The chain's maximum stays, and its free list is ascending, as if
    /// no slot had been used. O(capacity), of both.
    ///
    /// # Errors
    ///
    /// The chain is unchanged, and `map` isn't called.
    /// - `BeyondMaxCapacity`: that index is beyond the chain's limit.
    /// - `AllocError`: growing failed.
    pub fn clone_to_chain_arena<U: Drop, B: Allocator, F: FnMut(P, &T) -> U + Drop>(
        &self,
        chain: &mut ChainArena<P, U, B>,
        map: F,
    ) -> Result<(), ReallocationError>
        requires { F.IsAlwaysCallable map }
        ensures ok { OnOk result ((last : F) × IsClonedList P.numbers (ShowsItem F.step) map
            self.now.list chain.old chain.new last) }
        ensures beyond { (result ≡ Err ReallocationError.BeyondMaxCapacity)
            ↔ (chain_limit P.Inx.most chain.old < greatest_index self.now.list.entries) }
        ensures memory { result ≡ Err ReallocationError.AllocError
            → chain.old.capacity < greatest_index self.now.list.entries }
        ensures err { OnErr result (chain.new ≡ chain.old) }
    {
        self.tree.clone_to_chain_arena(chain, map)
    }
}
