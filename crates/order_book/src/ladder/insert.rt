//! Orders that come to rest.

ghost use Rattle.std.specs.Prelude.{◌≡◌, ◌↔◌, ◌<◌, Some, Err, IfOk, IfSome, OnOk, OnErr, length, nat_lt, if◌then◌else◌};
ghost use Rattle.std.specs.Option.{option_map};
ghost use Rattle.sorted_arena.specs.PlainArena.{doubled_capacity};
ghost use Rattle.sorted_arena.specs.Sorted.{get};
ghost use Rattle.order_book.specs.Queue.{most_entries};
ghost use Rattle.order_book.specs.QueueLayout.{IsLawful};
ghost use Rattle.order_book.specs.Ladder.{rows_of, IsBetween, IsLadder, IsPut, KeepsRows};

use super::place::place_behind;
use super::{Ladder, Resting, Totals};
use crate::order::Lot;
use sorted_arena::{BasePtr, P0, ReallocationError};
use std::alloc::Allocator;

impl<T: Copy, A: Allocator> Ladder<T, A> {
    /// Puts an order behind every order whose rank is at most its own, and returns its pointer.
    pub(crate) fn insert(&mut self, rank: u64, lot: Lot<T>) -> Result<P0, ReallocationError>
        requires ladder { IsLadder self.old.orders self.old.levels }
        requires lawful { IsLawful (rank, lot) }
        ensures ladder { IsLadder self.new.orders self.new.levels }
        ensures ok { IfOk result
            (λ p. IsPut (rows_of self.old.orders) p rank lot (rows_of self.new.orders)) }
        ensures capacity { OnOk result (self.new.orders.capacity
            ≡ (if nat_lt (length self.old.orders.entries) self.old.orders.capacity
            then self.old.orders.capacity
            else doubled_capacity most_entries self.old.orders.capacity)) }
        ensures full { (result ≡ Err ReallocationError.BeyondMaxCapacity)
            ↔ (length self.old.orders.entries ≡ most_entries) }
        ensures memory { result ≡ Err ReallocationError.AllocError
            → length self.old.orders.entries ≡ self.old.orders.capacity }
        ensures err { OnErr result (KeepsRows self.old.orders self.new.orders) }
    {
        // For the prover: what holds of every ladder.
        let _ = self.len();
        match self.reserve(1) {
            Ok(()) => Ok(self.put(rank, lot)),
            Err(refusal) => Err(refusal),
        }
    }

    // The same where there is room.
    fn put(&mut self, rank: u64, lot: Lot<T>) -> P0
        requires ladder { IsLadder self.old.orders self.old.levels }
        requires lawful { IsLawful (rank, lot) }
        requires room { length self.old.orders.entries < self.old.orders.capacity }
        ensures ladder { IsLadder self.new.orders self.new.levels }
        ensures put { IsPut (rows_of self.old.orders) result rank lot (rows_of self.new.orders) }
        ensures capacity { self.new.orders.capacity ≡ self.old.orders.capacity }
    {
        // For the prover: what holds of the levels.
        let _ = self.levels.len();
        if let Some(level) = self.recent_of(rank) {
            return self.join_level(level, rank, lot);
        }
        let Some(level) = self.level_until(rank) else {
            return self.begin_level(None, rank, lot);
        };
        let (key, totals) = self.levels.get(level).unwrap();
        if *key == rank {
            self.recent = Some(level);
            return self.join_level(level, rank, lot);
        }
        let last = totals.last;
        self.begin_level(Some(last), rank, lot)
    }

    // The level that an order joined last, if it has this rank.
    fn recent_of(&self, rank: u64) -> Option<P0>
        ensures { IfSome result
            (λ level. option_map (λ l. l.0) (get self.now.levels level) ≡ Some rank) }
    {
        let level = self.recent?;
        let (key, _) = self.levels.get(level)?;
        if *key == rank { Some(level) } else { None }
    }

    // Puts an order behind the last one of its level.
    fn join_level(&mut self, level: P0, rank: u64, lot: Lot<T>) -> P0
        requires ladder { IsLadder self.old.orders self.old.levels }
        requires lawful { IsLawful (rank, lot) }
        requires room { length self.old.orders.entries < self.old.orders.capacity }
        requires named { option_map (λ l. l.0) (get self.old.levels level) ≡ Some rank }
        ensures ladder { IsLadder self.new.orders self.new.levels }
        ensures put { IsPut (rows_of self.old.orders) result rank lot (rows_of self.new.orders) }
        ensures capacity { self.new.orders.capacity ≡ self.old.orders.capacity }
    {
        // For the prover: what holds of every ladder, and of its levels.
        let _ = self.len();
        let _ = self.levels.len();
        let (_, totals) = self.levels.get(level).unwrap();
        let before = *totals;
        let order = Resting { rank, lot, level };
        let kind = place_behind(&self.orders, Some(before.last));
        let pointer = self.orders.insert_reserved(kind, order);
        let after = Totals {
            quantity: before.quantity + u128::from(lot.quantity),
            count: before.count + 1,
            last: pointer.inx(),
        };
        let _ = self.levels.set_value(level, after);
        pointer
    }

    // Puts an order directly behind the one at an index, as the only one of a new level.
    fn begin_level(&mut self, index: Option<u32>, rank: u64, lot: Lot<T>) -> P0
        requires ladder { IsLadder self.old.orders self.old.levels }
        requires lawful { IsLawful (rank, lot) }
        requires room { length self.old.orders.entries < self.old.orders.capacity }
        requires between { IsBetween rank self.old.levels.entries self.old.orders.entries index }
        ensures ladder { IsLadder self.new.orders self.new.levels }
        ensures put { IsPut (rows_of self.old.orders) result rank lot (rows_of self.new.orders) }
        ensures capacity { self.new.orders.capacity ≡ self.old.orders.capacity }
    {
        // For the prover: what holds of every ladder, of its list and of its levels.
        let _ = self.len();
        let _ = self.orders.len();
        let _ = self.levels.len();
        let next = self.orders.arena().next_insertion_ptr().unwrap();
        let totals = Totals {
            quantity: u128::from(lot.quantity),
            count: 1,
            last: next.inx(),
        };
        let level = match self.levels.insert(rank, totals) {
            Ok(level) => level,
            // there is room for as many levels as for orders
            Err(_) => unreachable!(),
        };
        let order = Resting { rank, lot, level };
        let kind = place_behind(&self.orders, index);
        self.orders.insert_reserved(kind, order)
    }
}
