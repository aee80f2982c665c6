//! Creating an arena, and changing its capacity.
ghost use Rattle.std.specs.Prelude.{◌≡◌, ◌+◌, ◌≤◌, Some, max, OnOk};
ghost use Rattle.ord_tree.specs.PlainArena.{capacity_for};
ghost use Rattle.ord_tree.specs.Chain.{new_chain, with_capacity, greatest_index, chain_limit};
ghost use Rattle.ord_tree.specs.Room.{Allocates, Reallocates, LimitsCapacity};
ghost use Rattle.ord_tree.specs.Shape.{missing};
ghost use Rattle.triple_ord.specs.Arena.{count, with_room_for, KeepsEntries};

use super::SimpleOrdArena;
use arena_base::{BasePtr, MaxCapacityReductionError, ReallocationError, doubled_capacity};
use ord_tree::OrdTree;
use std::alloc::{AllocError, Allocator};

impl<P: BasePtr, T, A: Allocator> SimpleOrdArena<P, T, A> {
    /// Creates an empty arena with capacity 0 and no maximum. It takes no memory until it grows.
    pub fn new(alloc: A) -> Self
    where
        A: Copy,
        ensures { result ≡ record { list = new_chain P.Gen.greatest; shape = missing } }
    {
        SimpleOrdArena {
            tree: OrdTree::new(alloc),
        }
    }

    /// Creates an empty arena with room for `n` entries, in O(n). Fails if there is no memory, or if the pointers' indexes can't name so
    /// many.
    pub fn with_min_capacity(alloc: A, n: usize) -> Result<Self, AllocError>
    where
        A: Copy,
        ensures { Allocates P.Inx.most n result
            (λ a. a ≡ record {
              list = with_capacity (new_chain P.Gen.greatest) n;
              shape = missing;
            }) }
    {
        Ok(SimpleOrdArena {
            tree: OrdTree::with_min_capacity(alloc, n)?,
        })
    }

    /// Makes the capacity the greater of `n` and the greatest index with an entry, in O(capacity). Entries keep their pointers. The free
    /// list is then ascending, as if no slot had been used.
    ///
    /// # Errors
    ///
    /// The arena is unchanged.
    /// - `BeyondMaxCapacity`: `n` is beyond the maximum or the greatest index of the pointers.
    /// - `AllocError`: growing failed.
    pub fn reallocate_min_capacity(&mut self, n: usize) -> Result<(), ReallocationError>
        ensures kept { KeepsEntries self.old self.new }
        ensures reallocates { Reallocates (chain_limit P.Inx.most self.old.list)
            self.old.list.capacity n result
            (self.new ≡ record self.old {
              list = with_capacity self.old.list (max n (greatest_index self.old.list.entries));
            }) (self.new ≡ self.old) }
    {
        self.tree.reallocate_min_capacity(n)
    }

    /// Makes room for `additional` more entries. If the arena grows, it grows at least as far as an insertion grows it.
    ///
    /// O(capacity) if the arena grows, else O(1). So a `reserve(1)` before each insertion is amortized O(1).
    ///
    /// # Errors
    ///
    /// The arena is unchanged.
    /// - `BeyondMaxCapacity`: there would be more entries than the maximum, or than pointers have indexes.
    /// - `AllocError`: growing failed.
    pub fn reserve(&mut self, additional: usize) -> Result<(), ReallocationError>
        ensures kept { KeepsEntries self.old self.new }
        ensures reallocates { Reallocates (chain_limit P.Inx.most self.old.list)
            self.old.list.capacity (count self.old + additional) result
            (self.new ≡ record self.old {
              list = with_room_for P.Inx.most self.old.list (count self.old + additional);
            }) (self.new ≡ self.old) }
        ensures entries { self.new.list.entries ≡ self.old.list.entries }
        ensures generation { self.new.list.generation ≡ self.old.list.generation }
        ensures maximum { self.new.list.maximum ≡ self.old.list.maximum }
        ensures shape { self.new.shape ≡ self.old.shape }
        ensures room { OnOk result (count self.old + additional ≤ self.new.list.capacity) }
        ensures capacity { OnOk result (self.new.list.capacity
            ≡ capacity_for (chain_limit P.Inx.most self.old.list) self.old.list.capacity
            (count self.old + additional)) }
    {
        // For the prover: the list is sound.
        let Some(needed) = self.len().checked_add(additional) else {
            return Err(ReallocationError::BeyondMaxCapacity);
        };
        let capacity = self.capacity();
        if needed <= capacity {
            return Ok(());
        }
        let limit = self.tree.chain().limit();
        self.reallocate_min_capacity(needed.max(doubled_capacity(limit, capacity)))
    }

    /// Sets a maximum for the capacity, in O(1). On `Err` the capacity is already greater, and the arena is unchanged.
    pub fn set_max_capacity(&mut self, n: usize) -> Result<(), MaxCapacityReductionError>
        ensures kept { KeepsEntries self.old self.new }
        ensures sets { LimitsCapacity self.old.list.capacity n result
            (self.new ≡ record self.old { list = record self.old.list { maximum = Some n } })
            (self.new ≡ self.old) }
    {
        self.tree.set_max_capacity(n)
    }
}
