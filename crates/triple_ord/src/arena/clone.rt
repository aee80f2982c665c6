//! Clones of an arena: the same pointers, in the same order and in a tree of the same shape.
ghost use Rattle.std.specs.Prelude.{◌≡◌, IfOk, IsOk, OnOk};
ghost use Rattle.ord_tree.specs.Chain.{new_chain, chain_limit, greatest_index};
ghost use Rattle.ord_tree.specs.Room.{ClonesOrFails};
ghost use Rattle.ord_tree.specs.Shape.{missing};
ghost use Rattle.triple_ord.specs.Arena.{count, FindSame};
ghost use Rattle.triple_ord.specs.Clone.{cloned, refused_clone, FindsFallible};

use super::SimpleOrdArena;
use arena_base::{BasePtr, ReallocationError};
use std::alloc::{AllocError, Allocator};

impl<P: BasePtr, T: Clone + Drop, A: Allocator + Copy> SimpleOrdArena<P, T, A> {
    /// Makes this arena a clone of `source`: it gets the source's pointers, order, shape and generation, with clones of its items. Its
    /// own entries are dropped. A clone of an item must equal the item.
    ///
    /// If the capacity is less than the source's greatest index with an entry, it first grows to that index. The maximum stays, and the
    /// free list is ascending, as if no slot had been used. O(capacity), of both arenas.
    ///
    /// # Errors
    ///
    /// - `BeyondMaxCapacity`: that index is beyond the maximum or the greatest index of the pointers. The arena is unchanged.
    /// - `AllocError`: growing failed, and the arena is unchanged; or cloning an item failed, which ends the call. Then the arena is
    ///   empty, with the source's generation and the capacity of a clone. This never happens if the clone of each item is infallible, as
    ///   that of a number is.
    pub fn clone_from_arena(&mut self, source: &Self) -> Result<(), ReallocationError>
        requires clones { (x y : T) → T.is_clone x y → y ≡ x }
        ensures found { OnOk result (FindSame source.now self.new) }
        ensures count { OnOk result (count self.new ≡ count source.now) }
        ensures clones { ClonesOrFails (chain_limit P.Inx.most self.old.list)
            self.old.list.capacity (greatest_index source.now.list.entries) result
            (self.new ≡ cloned source.now self.old)
            (self.new ≡ self.old)
            (FindsFallible T.is_infallible source.now
            × (self.new ≡ refused_clone source.now self.old)) }
    {
        // For the prover: the list is sound.
        let _ = source.len();
        self.tree
            .try_clone_from_with(&source.tree, |_p, item| item.clone())
    }

    /// Returns a clone of this arena on the same allocator: the same pointers, order, shape and generation, with clones of its items. Its
    /// capacity is the greatest index with an entry, and it has no maximum. A clone of an item must equal the item.
    ///
    /// Fails if there is no memory for the entries or for the clone of an item.
    pub fn clone(&self) -> Result<Self, AllocError>
        requires clones { (x y : T) → T.is_clone x y → y ≡ x }
        ensures found { IfOk result (λ a. FindSame self.now a) }
        ensures count { IfOk result (λ a. count a ≡ count self.now) }
        ensures ok { IfOk result
            (λ a. a ≡ cloned self.now
            (record { list = new_chain P.Gen.greatest; shape = missing })) }
        ensures none { count self.now ≡ 0 → IsOk result }
    {
        let mut clone = SimpleOrdArena::new(self.tree.chain().alloc());
        match clone.clone_from_arena(self) {
            Ok(()) => Ok(clone),
            Err(_) => Err(AllocError),
        }
    }
}
