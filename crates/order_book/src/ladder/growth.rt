//! Room for more orders, and for as many levels.

ghost use Rattle.std.specs.Prelude.{◌≡◌, ◌≢◌, ◌↔◌, ◌+◌, ◌≤◌, ◌<◌, Err, OnOk, OnErr, length};
ghost use Rattle.sorted_arena.specs.PlainArena.{capacity_for};
ghost use Rattle.order_book.specs.Queue.{most_entries};
ghost use Rattle.order_book.specs.Ladder.{rows_of, IsLadder, KeepsRows};

use super::Ladder;
use arena_base::doubled_capacity;
use sorted_arena::{BasePtrInx, ReallocationError};
use std::alloc::Allocator;

impl<T: Copy, A: Allocator> Ladder<T, A> {
    /// Makes room for `additional` more orders. If the ladder grows, it grows at least as far as for one more.
    pub(crate) fn reserve(&mut self, additional: usize) -> Result<(), ReallocationError>
        requires { IsLadder self.old.orders self.old.levels }
        ensures ladder { IsLadder self.new.orders self.new.levels }
        ensures entries { self.new.orders.entries ≡ self.old.orders.entries }
        ensures generation { self.new.orders.generation ≡ self.old.orders.generation }
        ensures capacity { OnOk result (self.new.orders.capacity ≡ capacity_for most_entries
            self.old.orders.capacity (length self.old.orders.entries + additional)) }
        ensures full { (result ≡ Err ReallocationError.BeyondMaxCapacity)
            ↔ (most_entries < length self.old.orders.entries + additional) }
        ensures memory { result ≡ Err ReallocationError.AllocError
            → self.old.orders.capacity < length self.old.orders.entries + additional }
        ensures err { OnErr result (KeepsRows self.old.orders self.new.orders) }
    {
        let Some(needed) = self.len().checked_add(additional) else {
            return Err(ReallocationError::BeyondMaxCapacity);
        };
        let capacity = self.orders.capacity();
        if needed <= capacity {
            return Ok(());
        }
        let limit = u32::limit();
        if needed > limit {
            return Err(ReallocationError::BeyondMaxCapacity);
        }
        self.grow(needed.max(doubled_capacity(limit, capacity)))
    }

    // Grows to this capacity, first the room for levels.
    fn grow(&mut self, capacity: usize) -> Result<(), ReallocationError>
        requires ladder { IsLadder self.old.orders self.old.levels }
        requires more { self.old.orders.capacity ≤ capacity }
        requires limited { capacity ≤ most_entries }
        ensures ladder { IsLadder self.new.orders self.new.levels }
        ensures entries { self.new.orders.entries ≡ self.old.orders.entries }
        ensures generation { self.new.orders.generation ≡ self.old.orders.generation }
        ensures capacity { OnOk result (self.new.orders.capacity ≡ capacity) }
        ensures err { OnErr result (KeepsRows self.old.orders self.new.orders) }
        ensures within { result ≢ Err ReallocationError.BeyondMaxCapacity }
    {
        // For the prover: there are no more levels than orders, which all fit.
        let _ = self.len();
        let _orders = self.orders.len();
        let levels = self.levels.len();
        self.levels.reserve(capacity - levels)?;
        self.orders.reallocate_min_capacity(capacity)
    }
}
