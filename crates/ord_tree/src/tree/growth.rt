//! Creating a tree, and changing its capacity.

ghost use Rattle.std.specs.Prelude.{◌≡◌, Some, max, length};
ghost use Rattle.chain_base.specs.Chain.{new_chain, chain_limit, with_capacity, with_room, greatest_index};
ghost use Rattle.chain_base.specs.Room.{Allocates, Reallocates, LimitsCapacity, FailsOnlyIfFull};
ghost use Rattle.ord_tree.specs.Shape.{missing};
ghost use Rattle.ord_tree.specs.Tree.{MakesRoom};

use super::OrdTree;
use arena_base::{BasePtr, InsertionError, MaxCapacityReductionError, ReallocationError};
use chain_base::ChainArena;
use std::alloc::{AllocError, Allocator};

impl<P: BasePtr, T, A: Allocator> OrdTree<P, T, A> {
    /// Creates an empty tree with capacity 0 and no maximum. It takes no memory until it grows.
    pub fn new(alloc: A) -> Self
    where
        A: Copy,
        ensures { result ≡ record { list = new_chain P.Gen.greatest; shape = missing } }
    {
        OrdTree {
            chain: ChainArena::new(alloc),
            root: None,
        }
    }

    /// Creates an empty tree with room for `n` entries. Fails if there is no memory, or if the pointers' indexes can't name so many.
    pub fn with_min_capacity(alloc: A, n: usize) -> Result<Self, AllocError>
    where
        A: Copy,
        ensures { Allocates P.Inx.most n result
            (λ t. t ≡ record {
              list = with_capacity
                  (new_chain P.Gen.greatest) n;
              shape = missing;
            }) }
    {
        Ok(OrdTree {
            chain: ChainArena::with_min_capacity(alloc, n)?,
            root: None,
        })
    }

    /// Makes the capacity the greater of `n` and the greatest index with an entry. The free list is then ascending, as if no slot had
    /// been used.
    ///
    /// # Errors
    ///
    /// The tree is unchanged.
    /// - `BeyondMaxCapacity`: `n` is beyond the maximum or the greatest index.
    /// - `AllocError`: growing failed.
    pub fn reallocate_min_capacity(&mut self, n: usize) -> Result<(), ReallocationError>
        ensures { Reallocates (chain_limit P.Inx.most self.old.list) self.old.list.capacity n result
            (self.new ≡ record self.old {
              list = with_capacity self.old.list (max n (greatest_index self.old.list.entries));
            }) (self.new ≡ self.old) }
    {
        self.chain.reallocate_min_capacity(n)
    }

    /// Makes room for one more entry: if no slot is vacant, the tree grows. The next insertion then takes no memory, and takes the slot
    /// that it would have taken after growing by itself.
    ///
    /// Growing doubles the capacity, to at least 4 and at most the limit, in O(capacity).
    ///
    /// # Errors
    ///
    /// The tree is unchanged.
    /// - `BeyondMaxCapacity`: no slot is vacant, and the capacity is at the limit.
    /// - `AllocError`: no slot is vacant, and growing failed.
    #[inline(always)]
    pub fn make_room(&mut self) -> Result<(), InsertionError>
        ensures { MakesRoom self.old self.new result
            (self.new ≡ record self.old { list = with_room P.Inx.most self.old.list })
            (FailsOnlyIfFull (length self.old.list.entries) self.old.list.capacity
            (chain_limit P.Inx.most self.old.list) result (self.new ≡ self.old)) }
    {
        self.chain.make_room()
    }

    /// Sets a maximum for the capacity. On `Err` the capacity is already greater, and the tree is unchanged.
    pub fn set_max_capacity(&mut self, n: usize) -> Result<(), MaxCapacityReductionError>
        ensures { LimitsCapacity self.old.list.capacity n result
            (self.new ≡ record self.old { list = record self.old.list { maximum = Some n } })
            (self.new ≡ self.old) }
    {
        self.chain.set_max_capacity(n)
    }
}
