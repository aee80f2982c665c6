//! New arenas, and changes of the capacity.
ghost use Rattle.std.specs.Prelude.{◌≡◌, ◌≢◌, ◌-◌, ◌<◌, ◌≤◌, ◌++◌, ◌⊎◌, ℕ, Some, map, max, reverse, take, replicate, length, vec_len, vec_capacity, slice_index_or, is_none, IsErr, OnOk, OnErr};
ghost use Rattle.arena_base.specs.Arena.{doubled_capacity, IsOccupied, arena_capacity, arena_limit, new_arena, with_capacity, cleared, emptied, greatest_occupied};
ghost use Rattle.arena_base.specs.Invalidation.{Raises};
ghost use Rattle.arena_base.specs.Room.{Allocates, Reallocates, LimitsCapacity};
ghost use Rattle.arena_base.specs.Slot.{vacant_slots, slot_entry, AllVacantFrom};

use super::Arena;
use super::get::inx_at;
use crate::error::{MaxCapacityReductionError, ReallocationError};
use crate::invalidation::InvalidationOption;
use crate::ptr::{BasePtr, BasePtrGen, BasePtrInx};
use crate::slot::Slot;
use std::alloc::{AllocError, Allocator};

/// Returns the capacity after a growth within a limit: twice as much, but at least 4.
pub fn doubled_capacity(limit: usize, capacity: usize) -> usize
    ensures { result ≡ doubled_capacity limit capacity }
{
    limit.min(capacity.saturating_mul(2).max(4))
}

impl<P: BasePtr, T, A: Allocator> Arena<P, T, A> {
    /// Creates an empty arena with capacity 0 and no maximum. It takes no memory until it grows.
    pub fn new(alloc: A) -> Self
    where
        A: Copy,
        ensures { result ≡ new_arena P.Gen.greatest }
    {
        Arena {
            slots: Vec::new(alloc),
            vacant: Vec::new(alloc),
            generation: P::Gen::two(),
            maximum: None,
        }
    }

    /// Creates an empty arena with room for `n` entries.
    ///
    /// # Errors
    ///
    /// `AllocError`: memory is refused, or `n` is beyond the greatest index of an entry.
    pub fn with_min_capacity(alloc: A, n: usize) -> Result<Self, AllocError>
    where
        A: Copy,
        ensures { Allocates P.Inx.most n result
            (λ a. a ≡ with_capacity (new_arena P.Gen.greatest) n) }
    {
        if n > P::Inx::limit() {
            return Err(AllocError);
        }
        // The slots come last: if they are refused, nothing exists yet that could hold an item.
        let mut vacant = Vec::with_capacity(alloc, n)?;
        let mut slots = Vec::with_capacity(alloc, n)?;
        fill_up(&mut slots, &mut vacant, n);
        let generation = P::Gen::two();
        Ok(Arena {
            slots,
            vacant,
            generation,
            maximum: None,
        })
    }

    /// Sets the capacity to the greater of `n` and the greatest occupied index. The free list is ascending then, as if no slot had been
    /// used.
    ///
    /// # Errors
    ///
    /// The arena is unchanged.
    /// - `BeyondMaxCapacity`: `n` is beyond the maximum or the greatest index of an entry.
    /// - `AllocError`: growing failed.
    #[cold]
    #[inline(never)]
    pub fn reallocate_min_capacity(&mut self, n: usize) -> Result<(), ReallocationError>
        ensures { Reallocates (arena_limit P.Inx.most self.old) (arena_capacity self.old) n result
            (self.new ≡ with_capacity self.old (max n (greatest_occupied self.old.slots)))
            (self.new ≡ self.old) }
    {
        if n > self.limit() {
            return Err(ReallocationError::BeyondMaxCapacity);
        }
        let needed = self.greatest_occupied();
        match self.set_capacity(n.max(needed)) {
            Ok(()) => {
                self.release();
                Ok(())
            }
            Err(_) => Err(ReallocationError::AllocError),
        }
    }

    /// Sets the maximum of the capacity.
    ///
    /// # Errors
    ///
    /// The arena is unchanged: its capacity is already greater than `n`.
    pub fn set_max_capacity(&mut self, n: usize) -> Result<(), MaxCapacityReductionError>
        ensures { LimitsCapacity (arena_capacity self.old) n result
            (self.new ≡ record self.old { maximum = Some n }) (self.new ≡ self.old) }
    {
        if n < self.capacity() {
            return Err(MaxCapacityReductionError);
        }
        self.maximum = Some(n);
        Ok(())
    }

    /// Drops all entries and raises the generation once, even if there are no entries. The capacity stays, and the free list is
    /// ascending, as if no slot had been used.
    pub fn clear(&mut self) -> InvalidationOption<()>
    where
        T: Drop,
        ensures { Raises P.Gen.greatest self.old.generation result
            (self.new ≡ cleared P.Gen.greatest self.old) }
    {
        self.vacate();
        self.inc_generation()
    }

    // Drops all entries. The free list is ascending then.
    fn vacate(&mut self)
    where
        T: Drop,
        ensures { self.new ≡ emptied self.old }
    {
        let n = self.slots.len();
        self.slots.clear();
        fill_up(&mut self.slots, &mut self.vacant, n);
    }

    // Releases the memory that no slot needs.
    fn release(&mut self)
        ensures { self.new ≡ self.old }
    {
        let n = self.slots.len();
        self.slots.shrink_to(n);
        self.vacant.shrink_to(n);
    }

    // The greatest occupied index, or 0.
    fn greatest_occupied(&self) -> usize
        ensures value { result ≡ greatest_occupied self.now.slots }
        ensures within { result ≤ arena_capacity self.now }
    {
        match self.find_last_inx_ptr() {
            Some(p) => p.inx().try_into_usize().unwrap_or(0),
            None => 0,
        }
    }

    // How many slots from the first on are known to be occupied without a look at them: all if none is vacant, else none.
    fn full_positions(&self) -> usize
        ensures { (i : ℕ) → 0 < i → i ≤ result → IsOccupied self.now i }
    {
        if self.vacant.is_empty() {
            self.slots.len()
        } else {
            0
        }
    }

    // Sets the capacity to `n`. No entry is lost, and the free list is ascending then.
    pub(super) fn set_capacity(&mut self, n: usize) -> Result<(), AllocError>
        requires limit { n ≤ arena_limit P.Inx.most self.old }
        requires entries { greatest_occupied self.old.slots ≤ n }
        ensures ok { OnOk result (self.new ≡ with_capacity self.old n) }
        ensures memory { IsErr result → arena_capacity self.old < n }
        ensures err { OnErr result (self.new ≡ self.old) }
    {
        let full = self.full_positions();
        let fresh = self.slots.len();
        reserve(&mut self.slots, &mut self.vacant, n)?;
        add_vacant(&mut self.slots, n);
        cut_vacant(&mut self.slots, n);
        list_vacant(self.slots.as_slice(), full, fresh, &mut self.vacant);
        Ok(())
    }
}

// Reserves memory for `n` slots in all, and for as many vacant indexes.
fn reserve<S, I, A: Allocator>(
    slots: &mut Vec<S, A>,
    vacant: &mut Vec<I, A>,
    n: usize,
) -> Result<(), AllocError>
    ensures slots { slots.new.items ≡ slots.old.items }
    ensures vacant { vacant.new.items ≡ vacant.old.items }
    ensures grown { vec_capacity vacant.old ≤ vec_capacity vacant.new }
    ensures room { OnOk result
        ((n ≤ vec_capacity slots.new) × (n ≤ vec_capacity vacant.new)) }
    ensures memory { OnErr result
        ((vec_capacity slots.old < n) ⊎ (vec_capacity vacant.old < n)) }
{
    slots.reserve_exact(n.saturating_sub(slots.len()))?;
    vacant.reserve_exact(n.saturating_sub(vacant.len()))
}

// Adds vacant slots until there are `n`, and lists all vacant indexes.
pub(super) fn fill_up<T, G, I: BasePtrInx, A: Allocator>(
    slots: &mut Vec<Slot<T, G>, A>,
    vacant: &mut Vec<I, A>,
    n: usize,
)
    requires room { n ≤ vec_capacity slots.old }
    requires listed { n ≤ vec_capacity vacant.old }
    requires named { n ≤ I.most }
    requires fits { vec_len slots.old ≤ n }
    ensures items { slots.new.items
        ≡ slots.old.items ++ replicate (n - vec_len slots.old) Slot.Vacant }
    ensures vacant { map I.number vacant.new.items
        ≡ reverse (vacant_slots 1 slots.new.items) }
    ensures capacity { vec_capacity vacant.new ≡ vec_capacity vacant.old }
{
    let fresh = slots.len();
    add_vacant(slots, n);
    list_vacant(slots.as_slice(), 0, fresh, vacant);
}

// Adds vacant slots until there are `n`.
fn add_vacant<T, G, A: Allocator>(slots: &mut Vec<Slot<T, G>, A>, n: usize)
    requires { n ≤ vec_capacity slots.old }
    ensures items { slots.new.items
        ≡ slots.old.items ++ replicate (n - vec_len slots.old) Slot.Vacant }
    ensures capacity { vec_capacity slots.new ≡ vec_capacity slots.old }
{
    while slots.len() < n {
        slots.push_reserved(Slot::Vacant);
    }
}

// Cuts off vacant slots from the end until at most `n` slots are left.
fn cut_vacant<T, G: Copy, A: Allocator>(slots: &mut Vec<Slot<T, G>, A>, n: usize)
    requires { AllVacantFrom n slots.old.items }
    ensures items { slots.new.items ≡ take n slots.old.items }
    ensures capacity { vec_capacity slots.new ≡ vec_capacity slots.old }
{
    while slots.len() > n {
        match slots.take_last() {
            Slot::Vacant => {}
            Slot::Occupied(_, _) => unreachable!(),
        }
    }
}

// Lists the vacant indexes from the last to the first. Only the slots from position `full` up to `fresh` are looked at: those before are
// occupied, and those behind are vacant.
pub(super) fn list_vacant<T, G, I: BasePtrInx, A: Allocator>(
    slots: &[Slot<T, G>],
    full: usize,
    fresh: usize,
    vacant: &mut Vec<I, A>,
)
    requires room { length slots.now ≤ vec_capacity vacant.old }
    requires named { length slots.now ≤ I.most }
    requires full { (k : ℕ) → k < full → slice_index_or slots.now k Slot.Vacant ≢ Slot.Vacant }
    requires fresh { AllVacantFrom fresh slots.now }
    ensures items { map I.number vacant.new.items ≡ reverse (vacant_slots 1 slots.now) }
    ensures capacity { vec_capacity vacant.new ≡ vec_capacity vacant.old }
{
    vacant.clear();
    for position in (full..slots.len()).rev() {
        if is_vacant_at(slots, fresh, position) {
            vacant.push_reserved(inx_at(position));
        }
    }
}

// Whether the slot at a position is vacant. Those from `fresh` on are, and aren't looked at.
fn is_vacant_at<T, G>(slots: &[Slot<T, G>], fresh: usize, position: usize) -> bool
    requires within { position < length slots.now }
    requires fresh { AllVacantFrom fresh slots.now }
    ensures { result ≡ is_none (slot_entry (slice_index_or slots.now position Slot.Vacant)) }
{
    fresh <= position || slots[position].is_vacant()
}
