//! `ArenaTrait`: every arena as a finite map from pointers to items, with at most one pointer for an index.
ghost use Rattle.std.specs.Prelude.{◌≡◌, ◌==◌, ◌≤◌, ◌↔◌, ℕ, Some, max, is_some, IsNone, OnOk, IfSome};
ghost use Rattle.std.specs.Option.{option_copied, option_copied_mut, option_map};
ghost use Rattle.std.specs.Borrow.{sem, LendsIf};
ghost use Rattle.arena_base.specs.Arena.{Arena as Content, HoldsSame, slot, item_of, arena_len, arena_capacity, arena_limit, new_arena, with_capacity, with_item, removed, renewed, cleared, greatest_occupied, IsLawful, IsFirstEntry, IsLastEntry};
ghost use Rattle.arena_base.specs.Clone.{HasSamePointers, IsClone, IsShown};
ghost use Rattle.arena_base.specs.Compression.{compressed, items_rising, IsCompression, Restarts};
ghost use Rattle.arena_base.specs.Invalidation.{valid_value, IsRemoval, IsRenewal, Raises};
ghost use Rattle.arena_base.specs.Room.{Allocates, Reallocates, LimitsCapacity};

use crate::error::{MaxCapacityReductionError, ReallocationError};
use crate::invalidation::{InvalidationOption, InvalidationResult};
use crate::items_mut::ItemsMut;
use crate::ptr::{BasePtr, BasePtrGen, BasePtrInx};
use std::alloc::{AllocError, Allocator};

/// The calls that every arena has.
pub trait ArenaTrait<P: BasePtr, T>: ItemsMut<P, T> {
    /// The allocator handle for the arena's memory.
    type Alloc: Allocator + Copy;

    // The content of the arena. It says nothing about the order of the free list.
    ghost content: { Self → Content T };

    /// Creates an empty arena, which takes no memory until it grows.
    fn new(alloc: Self::Alloc) -> Self
        ensures { HoldsSame (content result) (new_arena P.Gen.greatest) };

    /// Creates an empty arena with room for `n` entries.
    fn with_min_capacity(alloc: Self::Alloc, n: usize) -> Result<Self, AllocError>
    where
        Self: Sized,
        ensures { Allocates P.Inx.most n result
            (λ a. HoldsSame (content a) (with_capacity (new_arena P.Gen.greatest) n)) };

    /// Returns how many entries the arena holds without growing.
    fn capacity(&self) -> usize
        ensures value { result ≡ arena_capacity (content self.now) }
        ensures lawful { IsLawful P.Inx.most P.Gen.greatest (content self.now) }
        ensures limit { arena_capacity (content self.now) ≤ P.Inx.most };

    /// Returns the maximum of the capacity, if one is set.
    fn max_capacity(&self) -> Option<usize>
        ensures { result ≡ (content self.now).maximum };

    /// Returns the number of entries.
    fn len(&self) -> usize
        ensures value { result ≡ arena_len (content self.now) }
        ensures lawful { IsLawful P.Inx.most P.Gen.greatest (content self.now) };

    /// Returns whether there are no entries.
    fn is_empty(&self) -> bool
        ensures { result ≡ (arena_len (content self.now) == 0) };

    /// Sets the capacity to the greater of `n` and the greatest occupied index.
    ///
    /// # Errors
    ///
    /// The arena is unchanged.
    /// - `BeyondMaxCapacity`: `n` is beyond the maximum or the greatest index of an entry.
    /// - `AllocError`: growing failed.
    fn reallocate_min_capacity(&mut self, n: usize) -> Result<(), ReallocationError>
        ensures { Reallocates (arena_limit P.Inx.most (content self.old))
            (arena_capacity (content self.old)) n result
            (HoldsSame (content self.new) (with_capacity (content self.old)
            (max n (greatest_occupied (content self.old).slots))))
            (HoldsSame (content self.new) (content self.old)) };

    /// Returns whether `p` names an entry.
    fn contains(&self, p: P) -> bool
        ensures value { result ≡ is_some (item_of (content self.now) (P.numbers p)) }
        ensures entries { (i : ℕ) → Self.entry_at self.now i ≡ slot (content self.now) i };

    /// Returns the generation that the next entry gets; never `None`.
    fn singular_generation(&self) -> Option<P::Gen>
        ensures { option_map P.Gen.number result ≡ Some (content self.now).generation };

    /// Returns the item of `p`; `None` if `p` is stale.
    fn get(&self, p: P) -> Option<&T>
        ensures { option_copied result ≡ item_of (content self.now) (P.numbers p) };

    /// Returns the item of `p` for writing; `None` if `p` is stale.
    fn get_mut(&mut self, p: P) -> Option<&mut T>
        ensures* writes_back { sem 𝓛
            (LendsIf Self.row T.row self.entry result
            (Self.written self.old (P.numbers p).0) self.old) }
        ensures value { option_copied_mut result ≡ item_of (content self.old) (P.numbers p) };

    /// Returns the generation and the item of the entry at index `i`; `None` if there is none.
    fn get_inx(&self, i: P::Inx) -> Option<(P::Gen, &T)>
        ensures { option_map (λ e. (P.Gen.number e.0, e.1.now)) result
            ≡ slot (content self.now) (P.Inx.number i) };

    /// Returns the pointer of the entry with the least index; `None` if the arena is empty.
    fn find_first_inx_ptr(&self) -> Option<P>
        ensures first { IfSome result
            (λ p. IsFirstEntry (content self.now) (P.numbers p).0 (P.numbers p).1) }
        ensures empty { IsNone result ↔ (arena_len (content self.now) ≡ 0) };

    /// Returns the pointer of the entry with the greatest index; `None` if the arena is empty.
    fn find_last_inx_ptr(&self) -> Option<P>
        ensures last { IfSome result
            (λ p. IsLastEntry (content self.now) (P.numbers p).0 (P.numbers p).1) }
        ensures empty { IsNone result ↔ (arena_len (content self.now) ≡ 0) };

    /// Gives the entry of `p` a new pointer, with the same index and the raised generation, and returns it.
    ///
    /// If `p` is stale, returns `InvalidPtr` and nothing changes.
    fn invalidate(&mut self, p: P) -> InvalidationResult<P>
        ensures { IsRenewal P.numbers P.Gen.greatest (content self.old).generation result
            (P.numbers p).0 (is_some (item_of (content self.old) (P.numbers p)))
            (HoldsSame (content self.new) (renewed P.Gen.greatest (content self.old) (P.numbers p).0))
            (HoldsSame (content self.new) (content self.old)) };

    /// Removes the entry of `p`, returns its item, and raises the generation.
    ///
    /// If `p` is stale, returns `InvalidPtr` and nothing changes.
    fn remove(&mut self, p: P) -> InvalidationResult<T>
        ensures { IsRemoval P.Gen.greatest (content self.old).generation result
            (valid_value result) (item_of (content self.old) (P.numbers p))
            (HoldsSame (content self.new) (removed P.Gen.greatest (content self.old) (P.numbers p).0))
            (HoldsSame (content self.new) (content self.old)) };

    /// Removes the entry at index `i`, returns its generation and item, and raises the arena's generation.
    ///
    /// If the index has no entry, returns `InvalidPtr` and nothing changes.
    fn remove_inx(&mut self, i: P::Inx) -> InvalidationResult<(P::Gen, T)>
        ensures { IsRemoval P.Gen.greatest (content self.old).generation result
            (option_map (λ e. (P.Gen.number e.0, e.1)) (valid_value result))
            (slot (content self.old) (P.Inx.number i))
            (HoldsSame (content self.new) (removed P.Gen.greatest (content self.old) (P.Inx.number i)))
            (HoldsSame (content self.new) (content self.old)) };

    /// Drops all entries and raises the generation once.
    fn clear(&mut self) -> InvalidationOption<()>
    where
        T: Drop,
        ensures { Raises P.Gen.greatest (content self.old).generation result
            (HoldsSame (content self.new) (cleared P.Gen.greatest (content self.old))) };

    /// Moves all entries to the indexes from 1 on, in index order, and gives them one generation, which becomes the arena's: the first if
    /// `reset` is true, else the next.
    ///
    /// `f` is called for each entry, in index order, with its old pointer, its item and its new pointer. It returns the entry's new item.
    /// The capacity stays.
    fn compress_with<F: FnMut(P, T, P) -> T + Drop>(
        &mut self,
        reset: bool,
        f: F,
    ) -> InvalidationOption<()>
        requires { F.IsAlwaysCallable f }
        ensures { Restarts P.Gen.greatest reset (content self.old).generation result
            (λ g. IsCompression P.numbers F.step g f (content self.old) (content self.new)) };

    /// Moves all entries to the indexes from 1 on, as `compress_with` does. Each keeps its item.
    fn compress(&mut self, reset: bool) -> InvalidationOption<()>
        ensures { Restarts P.Gen.greatest reset (content self.old).generation result
            (λ g. HoldsSame (content self.new)
            (compressed (content self.old) g (items_rising (content self.old)))) }
    {
        self.compress_with(reset, |_old, item, _new| item)
    }

    // Writing an item changes the content by `with_item`.
    ghost written_content: { (s : Self) (i : ℕ) (item : T)
        → content (Self.written s i item) ≡ with_item (content s) i item };
}

/// Marks arenas that store each entry in the slot of its index.
pub trait CompactArenaTrait {}

/// Arenas whose capacity can be given a maximum.
pub trait SetMaxCapacity<P: BasePtr, T>: ArenaTrait<P, T> {
    /// Sets the maximum of the capacity.
    ///
    /// # Errors
    ///
    /// The arena is unchanged: its capacity is already greater than `n`.
    fn set_max_capacity(&mut self, n: usize) -> Result<(), MaxCapacityReductionError>
        ensures { LimitsCapacity (arena_capacity (Self.content self.old)) n result
            (HoldsSame (Self.content self.new) (record (Self.content self.old) { maximum = Some n }))
            (HoldsSame (Self.content self.new) (Self.content self.old)) };
}

/// Arenas that can become a clone of another arena.
pub trait ArenaCloneFromWith<P: BasePtr, T>: ArenaTrait<P, T> {
    /// Makes this arena a clone of `source`: it has the source's pointers and generation, and items made by `map`. Its own entries are
    /// dropped.
    ///
    /// `map` is called for each entry of the source, in index order, with its pointer and a reference to its item. If the capacity is
    /// less than the source's greatest occupied index, it grows to that first. The maximum stays.
    ///
    /// # Errors
    ///
    /// The arena is unchanged, and `map` isn't called.
    /// - `BeyondMaxCapacity`: the source's greatest occupied index is beyond this arena's limit.
    /// - `AllocError`: growing failed.
    fn clone_from_with<U, S: ArenaTrait<P, U>, F: FnMut(P, &U) -> T + Drop>(
        &mut self,
        source: &S,
        map: F,
    ) -> Result<(), ReallocationError>
    where
        T: Drop,
        requires { F.IsAlwaysCallable map }
        ensures clones { Reallocates (arena_limit P.Inx.most (Self.content self.old))
            (arena_capacity (Self.content self.old))
            (greatest_occupied (S.content source.now).slots) result
            ((last : F) × IsClone P.numbers (IsShown F.step) map
            (S.content source.now) (Self.content self.old) (Self.content self.new) last)
            (HoldsSame (Self.content self.new) (Self.content self.old)) }
        ensures pointers { OnOk result
            (HasSamePointers (Self.content self.new) (S.content source.now)) };
}
