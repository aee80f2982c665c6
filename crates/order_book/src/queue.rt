//! `OrderQueue`: the resting orders of one side.

ghost use Rattle.std.specs.Prelude.{◌≡◌, ◌↔◌, ◌+◌, ◌-◌, ◌≤◌, ◌<◌, [], ◌++◌, ℕ, Err, Some, None, length, vec_capacity};
ghost use Rattle.std.specs.Prelude.{IfOk, OnOk, OnErr, OnSome, IfSome, IsOk};
ghost use Rattle.std.specs.Option.{option_map};
ghost use Rattle.sorted_arena.specs.PlainArena.{capacity_for};
ghost use Rattle.order_book.specs.Queue.{most_entries, first_of, order_of, resting, within, traded, trades_of_first, taken, with_left, with_rest, reduced, reduced_order, left_of, executed};
ghost use Rattle.order_book.specs.Ladder.{rows_of, IsLadder};
ghost use Rattle.order_book.specs.QueueLayout.{queue_of};
ghost use Rattle.order_book.specs.Queue.{ChangesOrder, HasRoomFor, IsSound, Rests, Updates};

mod append;
mod auction;
mod compare;
mod debug;
mod remove_where;
mod try_clone;

use crate::ladder::Ladder;
use crate::order::{Lot, Order, Trade, order_at};
use crate::side::{Side, ranked};
use sorted_arena::{BasePtrInx, P0, ReallocationError};
use std::alloc::{AllocError, Allocator, Global};
use std::marker::Model;

/// The resting orders of one side of a book, in the order in which they trade: by price, and at equal prices by age.
///
/// In contracts a queue is its side, the list of its orders, the generation of the next pointer, and the capacity.
/// [`len`](Self::len) promises what holds of every queue: the list is in order, no pointer names two orders, of each something is left, and
/// all fit in the capacity.
///
/// In the docs n is the number of orders, and m that of price levels.
#[derive(Drop)]
pub struct OrderQueue<T: Copy = u64, A: Allocator = Global> {
    side: Side,
    // what is left of each order and its tag, by the rank of its price, and the levels
    ladder: Ladder<T, A>,
}

impl<T: Copy, A: Allocator> Model for OrderQueue<T, A> {
    ghost use Rattle.order_book.specs.Queue.{Queue};

    ghost Value = { Queue T };

    ghost use Rattle.order_book.specs.QueueLayout.{queue_of};
    ghost use Rattle.order_book.specs.Ladder.{rows_of, IsLadder};

    ghost view = { λ q. queue_of q.side (rows_of q.ladder.orders) };

    ghost invariant = { λ q. IsLadder q.ladder.orders q.ladder.levels };
}

impl<T: Copy, A: Allocator> OrderQueue<T, A> {
    /// Creates a side without orders. It takes no memory until an order is put into it.
    pub fn new(side: Side, alloc: A) -> Self
    where
        A: Copy,
        ensures side { result.side ≡ side }
        ensures orders { result.orders ≡ [] }
        ensures generation { result.generation ≡ 2 }
        ensures capacity { result.capacity ≡ 0 }
    {
        OrderQueue {
            side,
            ladder: Ladder::new(alloc),
        }
    }

    // Its orders and its levels.
    pub(crate) fn ladder(&self) -> &Ladder<T, A>
        ensures view { self.now ≡ queue_of self.now.side (rows_of result.now.orders) }
        ensures ladder { IsLadder result.now.orders result.now.levels }
    {
        &self.ladder
    }

    /// Returns which side it is.
    pub fn side(&self) -> Side
        ensures { result ≡ self.now.side }
    {
        self.side
    }

    /// Returns the number of orders.
    pub fn len(&self) -> usize
        ensures value { result ≡ length self.now.orders }
        ensures sound { IsSound self.now }
    {
        self.ladder.len()
    }

    /// Returns how many orders a side can have at most: 4,294,967,294, as many as pointers have indexes.
    pub fn limit() -> usize
        ensures { result ≡ most_entries }
    {
        u32::limit()
    }

    /// Returns how many orders the side holds without growing.
    pub fn capacity(&self) -> usize
        ensures { result ≡ self.now.capacity }
    {
        self.ladder.orders.capacity()
    }

    /// Makes room for `additional` more orders: putting them will not fail. O(capacity) if the side grows, else O(1).
    ///
    /// # Errors
    ///
    /// The side is unchanged.
    /// - `BeyondMaxCapacity`: there would be more than 4,294,967,294 orders.
    /// - `AllocError`: growing failed.
    pub fn reserve(&mut self, additional: usize) -> Result<(), ReallocationError>
        ensures side { self.new.side ≡ self.old.side }
        ensures orders { self.new.orders ≡ self.old.orders }
        ensures generation { self.new.generation ≡ self.old.generation }
        ensures capacity { OnOk result (self.new.capacity
            ≡ capacity_for most_entries self.old.capacity (length self.old.orders + additional)) }
        ensures room { OnOk result (HasRoomFor additional self.new) }
        ensures full { (result ≡ Err ReallocationError.BeyondMaxCapacity)
            ↔ (most_entries < length self.old.orders + additional) }
        ensures memory { result ≡ Err ReallocationError.AllocError
            → self.old.capacity < length self.old.orders + additional }
        ensures err { OnErr result (self.new ≡ self.old) }
    {
        self.ladder.reserve(additional)
    }

    /// Returns the order that trades first, in O(1).
    pub fn first(&self) -> Option<Order<T>>
        ensures value { result ≡ first_of self.now.orders }
        ensures left { IfSome result (λ order. 0 < order.quantity) }
    {
        let pointer = self.ladder.first()?;
        let (rank, lot) = self.ladder.get(pointer)?;
        Some(order_at(self.side, pointer, rank, lot))
    }

    /// Returns the order that the pointer names, in O(1). `None` if it names no order.
    pub fn get(&self, pointer: P0) -> Option<Order<T>>
        ensures { result ≡ order_of self.now.orders pointer }
    {
        let (rank, lot) = self.ladder.get(pointer)?;
        Some(order_at(self.side, pointer, rank, lot))
    }

    /// Puts an order after every order with a price at least as good, and returns its pointer.
    ///
    /// # Errors
    ///
    /// The side is unchanged.
    /// - `BeyondMaxCapacity`: there are 4,294,967,294 orders, as many as pointers have indexes.
    /// - `AllocError`: the side is full, and growing failed.
    ///
    /// # Complexity
    ///
    /// O(log m), plus O(n) if the side grows (amortized O(1)).
    pub fn put(&mut self, price: u64, quantity: u64, tag: T) -> Result<P0, ReallocationError>
        requires { 0 < quantity }
        ensures ok { IfOk result (λ p. Rests self.old price quantity tag p self.new) }
        ensures updates { IfOk result (λ p. Updates self.old self.new p
            (Some (resting self.old.side p price quantity tag))) }
        ensures count { OnOk result (length self.new.orders ≡ length self.old.orders + 1) }
        ensures side { self.new.side ≡ self.old.side }
        ensures full { (result ≡ Err ReallocationError.BeyondMaxCapacity)
            ↔ (length self.old.orders ≡ most_entries) }
        ensures memory { result ≡ Err ReallocationError.AllocError
            → length self.old.orders ≡ self.old.capacity }
        ensures fits { HasRoomFor 1 self.old → IsOk result }
        ensures err { OnErr result (self.new ≡ self.old) }
    {
        // For the prover: what holds of every side.
        let _ = self.len();
        let lot = Lot { quantity, tag };
        let pointer = self.ladder.insert(ranked(self.side, price), lot)?;
        Ok(pointer)
    }

    /// Removes the order that the pointer names and returns it. O(1), plus O(log m) if no other order is at its price.
    ///
    /// If the pointer names no order, returns `None` and nothing changes.
    pub fn remove(&mut self, pointer: P0) -> Option<Order<T>>
        ensures value { result ≡ order_of self.old.orders pointer }
        ensures changes { ChangesOrder self.old pointer None result self.new }
        ensures count { OnSome result (length self.old.orders ≡ length self.new.orders + 1) }
        ensures gone { OnSome result (self.new ≡ with_left self.old pointer) }
        ensures side { self.new.side ≡ self.old.side }
        ensures room { OnSome result (HasRoomFor 1 self.new) }
    {
        let (rank, lot) = self.ladder.remove(pointer)?;
        Some(order_at(self.side, pointer, rank, lot))
    }

    /// Takes `quantity` units off the order that the pointer names, at most all of it, and returns how much of it is left.
    ///
    /// The order keeps its pointer and its place. If nothing of it is left, it leaves. If the pointer names no order, returns `None` and
    /// nothing changes. O(1), plus O(log m) if the order leaves and no
    /// other is at its price.
    pub fn reduce(&mut self, pointer: P0, quantity: u64) -> Option<u64>
        ensures value { result
            ≡ option_map (λ x. x.quantity - quantity) (order_of self.old.orders pointer) }
        ensures changes { ChangesOrder self.old pointer
            (reduced_order (order_of self.old.orders pointer) quantity) result self.new }
        ensures after { IfSome result (λ left. self.new ≡ reduced self.old pointer left) }
        ensures side { self.new.side ≡ self.old.side }
    {
        let order = self.get(pointer)?;
        let left = order.quantity.saturating_sub(quantity);
        if left == 0 {
            let _ = self.remove(pointer);
            return Some(0);
        }
        self.write(pointer, order.tag, left);
        Some(left)
    }

    /// Trades up to `quantity` units of the order that the pointer names, at its price, and returns the trade.
    ///
    /// The order keeps its pointer and its place. If nothing of it is left, it leaves. If the pointer names no order, or `quantity` is 0,
    /// nothing is traded: returns `None`, and nothing changes. O(1), plus O(log m) if the order leaves and no
    /// other is at its price.
    pub fn execute(&mut self, pointer: P0, quantity: u64) -> Option<Trade<T>>
        ensures value { result ≡ executed (order_of self.old.orders pointer) quantity }
        ensures changes { ChangesOrder self.old pointer
            (reduced_order (order_of self.old.orders pointer) quantity) result self.new }
        ensures after { OnSome result (self.new
            ≡ reduced self.old pointer (left_of (order_of self.old.orders pointer) quantity)) }
        ensures some { IfSome result (λ trade. 0 < trade.quantity) }
        ensures side { self.new.side ≡ self.old.side }
    {
        // For the prover: of each order something is left.
        let _ = self.len();
        let order = self.get(pointer)?;
        if quantity == 0 {
            return None;
        }
        let _ = self.reduce(pointer, quantity);
        Some(order.trade(quantity.min(order.quantity)))
    }

    // Writes how much is left of the order that the pointer names, which has this tag.
    fn write(&mut self, pointer: P0, tag: T, left: u64)
        requires named { option_map (λ x. x.tag) (order_of self.old.orders pointer) ≡ Some tag }
        requires some { 0 < left }
        ensures after { self.new ≡ reduced self.old pointer left }
        ensures updates { Updates self.old self.new pointer
            (option_map (λ x. with_rest x left) (order_of self.old.orders pointer)) }
    {
        let lot = Lot {
            quantity: left,
            tag,
        };
        self.ladder.set_lot(pointer, lot);
    }

    /// Returns how much of `quantity` an order of the other side with this limit would trade at once.
    ///
    /// O(1) for each price level that it would trade with.
    pub fn offered(&self, limit: u64, quantity: u64) -> u64
        ensures { result ≡ traded self.now limit quantity }
    {
        let mut left = quantity;
        for level in self.levels() {
            if left == 0 {
                break;
            }
            if !self.side.meets(level.price, limit) {
                break;
            }
            left = rest_behind(left, level.quantity);
        }
        quantity - left
    }

    /// Returns how much the orders that meet a limit offer in all. O(1) for each of their price levels.
    pub fn volume_within(&self, limit: u64) -> u128
        ensures { result ≡ within self.now.side limit self.now.orders }
    {
        let mut volume = 0;
        for level in self.levels() {
            if !self.side.meets(level.price, limit) {
                break;
            }
            volume += level.quantity;
        }
        volume
    }

    /// Appends the trades of an order of the other side with this limit and quantity, the first order's first, and returns what is left of
    /// the quantity. The orders stay as they are, and the list's capacity never shrinks. O(1) for each trade.
    ///
    /// # Errors
    ///
    /// `AllocError`: the list has no room for all trades, and growing it failed. The list is unchanged.
    pub fn offer<B: Allocator>(
        &self,
        limit: u64,
        quantity: u64,
        trades: &mut Vec<Trade<T>, B>,
    ) -> Result<u64, AllocError>
        ensures left { IfOk result (λ left. left + traded self.now limit quantity ≡ quantity) }
        ensures trades { OnOk result (trades.new.items ≡ trades.old.items
            ++ trades_of_first (traded self.now limit quantity) self.now.orders) }
        ensures memory { OnErr result (vec_capacity trades.old < length trades.old.items
            + length (trades_of_first (traded self.now limit quantity) self.now.orders)) }
        ensures err { OnErr result (trades.new.items ≡ trades.old.items) }
        ensures kept_room { vec_capacity trades.old ≤ vec_capacity trades.new }
        ensures sound { IsSound self.now }
    {
        let before = trades.len();
        let mut left = quantity;
        for order in self.iter() {
            if left == 0 {
                break;
            }
            if !self.side.meets(order.price, limit) {
                break;
            }
            let quantity = left.min(order.quantity);
            if trades.push(order.trade(quantity)).is_err() {
                trades.truncate(before);
                return Err(AllocError);
            }
            left -= quantity;
        }
        Ok(left)
    }

    /// Takes so many units off, from the first order on. An order of which nothing is left leaves. O(1) for each order that leaves, and
    /// O(log m) for each price level.
    pub fn take(&mut self, quantity: u64)
        ensures after { self.new ≡ taken quantity self.old }
        ensures side { self.new.side ≡ self.old.side }
        ensures room { (n : ℕ) → HasRoomFor n self.old → HasRoomFor n self.new }
    {
        self.take_volume(u128::from(quantity));
    }

    // The same for a quantity that 64 bits may not hold.
    pub(crate) fn take_volume(&mut self, quantity: u128)
        ensures after { self.new ≡ taken quantity self.old }
        ensures side { self.new.side ≡ self.old.side }
        ensures room { (n : ℕ) → HasRoomFor n self.old → HasRoomFor n self.new }
    {
        let mut left = quantity;
        while left > 0 {
            let taken = self.take_first(left);
            if taken == 0 {
                return;
            }
            left -= taken;
        }
        // For the prover: of each order something is left.
        let _ = self.len();
    }

    // Takes up to so many units off the first order, which leaves if nothing of it is left. Returns how many.
    fn take_first(&mut self, quantity: u128) -> u128
        requires { 0 < quantity }
        ensures most { result ≤ quantity }
        ensures rest { taken quantity self.old ≡ taken (quantity - result) self.new }
        ensures none { result ≡ 0 → (self.old.orders ≡ []) × (self.new ≡ self.old) }
    {
        let Some(first) = self.first() else {
            return 0;
        };
        let left = rest_behind(first.quantity, quantity);
        if left == 0 {
            let _ = self.remove(first.id.pointer());
            return u128::from(first.quantity);
        }
        self.write(first.id.pointer(), first.tag, left);
        quantity
    }
}

// How much of a quantity is left behind a level of this quantity.
fn rest_behind(wanted: u64, quantity: u128) -> u64
    ensures { result ≡ wanted - quantity }
{
    match u64::try_from(quantity) {
        Ok(quantity) => wanted.saturating_sub(quantity),
        Err(_) => 0,
    }
}
