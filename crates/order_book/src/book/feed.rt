//! What a feed reports: orders that are added and executed.

ghost use Rattle.std.specs.Prelude.{◌≡◌, ◌≢◌, ◌↔◌, ◌+◌, ◌<◌, false, Some, None, Err, length};
ghost use Rattle.std.specs.Prelude.{OnOk, IfOk, OnErr, OnSome, IfSome, IsOk};
ghost use Rattle.order_book.specs.Queue.{most_entries, executed, reduced_order, left_of, resting, traded, HasRoomFor};
ghost use Rattle.order_book.specs.Book.{named, opposite, queue, with_less, IsFull, IsUncrossed, RestsOrNot, Updates};
ghost use Rattle.order_book.specs.Names.{ChangesOrder, IsStep};

use super::OrderBook;
use crate::error::AddingError;
use crate::order::{OrderId, Trade};
use crate::side::Side;
use sorted_arena::ReallocationError;
use std::alloc::Allocator;

impl<T: Copy, A: Allocator> OrderBook<T, A> {
    /// Returns whether a bid is at or above an ask, in O(1). That can be only after [`add`](Self::add).
    pub fn is_crossed(&self) -> bool
        ensures { (result ≡ false) ↔ IsUncrossed self.now }
    {
        // For the prover: both sides are in order.
        let _ = self.count(Side::Buy);
        let Some(bid) = self.best_bid() else {
            return false;
        };
        let Some(ask) = self.best_ask() else {
            return false;
        };
        bid.price >= ask.price
    }

    /// Puts an order at rest without trading, and returns its id: an order that a feed reports or a file keeps, or one that waits for an
    /// opening auction. It goes behind the orders at its price.
    ///
    /// The book may be crossed then. It stays uncrossed if the order would trade with nothing: if [`offered`](Self::offered) is 0.
    ///
    /// ```
    /// let bid = book.add(Side::Buy, 102, 10, 7)?;
    /// book.add(Side::Sell, 101, 4, 8)?;
    /// assert!(rt; book.is_crossed());
    /// assert_eq!(rt; book.get(bid).map(|order| (order.price, order.quantity)), Some((102, 10)));
    /// ```
    ///
    /// # Errors
    ///
    /// The book is unchanged.
    /// - `NoQuantity`: the quantity is 0.
    /// - `BeyondMaxCapacity`: the side has 4,294,967,294 orders.
    /// - `AllocError`: the side is full, and growing failed.
    ///
    /// # Complexity
    ///
    /// O(log m), plus O(n) when the side grows (amortized O(1)).
    pub fn add(
        &mut self,
        side: Side,
        price: u64,
        quantity: u64,
        tag: T,
    ) -> Result<OrderId, AddingError>
        ensures rests { IfOk result (λ id. RestsOrNot (queue self.old side) price quantity tag
            (Some id) (queue self.new side)) }
        ensures updates { IfOk result (λ id. Updates self.old self.new id
            (Some (resting side id.pointer price quantity tag))) }
        ensures count { OnOk result (length (queue self.new side).orders
            ≡ length (queue self.old side).orders + 1) }
        ensures other_side { queue self.new (opposite side) ≡ queue self.old (opposite side) }
        ensures uncrossed { traded (queue self.old (opposite side)) price quantity ≡ 0
            → IsUncrossed self.old → IsUncrossed self.new }
        ensures nothing { (result ≡ Err AddingError.NoQuantity) ↔ (quantity ≡ 0) }
        ensures full { (result ≡ Err AddingError.BeyondMaxCapacity) ↔ ((quantity ≢ 0)
            × (length (queue self.old side).orders ≡ most_entries)) }
        ensures memory { result ≡ Err AddingError.AllocError → IsFull (queue self.old side) }
        ensures fits { quantity ≢ 0 → HasRoomFor 1 (queue self.old side) → IsOk result }
        ensures step { IsStep self.old self.new }
        ensures err { OnErr result (self.new ≡ self.old) }
    {
        if quantity == 0 {
            return Err(AddingError::NoQuantity);
        }
        // For the prover: what holds of every book.
        let _ = self.count(side);
        let put = match side {
            Side::Buy => self.bids.put(price, quantity, tag),
            Side::Sell => self.asks.put(price, quantity, tag),
        };
        match put {
            Ok(pointer) => Ok(OrderId::new(side, pointer)),
            Err(ReallocationError::BeyondMaxCapacity) => Err(AddingError::BeyondMaxCapacity),
            Err(ReallocationError::AllocError) => Err(AddingError::AllocError),
        }
    }

    /// Trades up to `quantity` units of an order, at its price, and returns the trade: what a feed calls an execution.
    ///
    /// The order keeps its id and its place in the queue. If nothing of it is left, it leaves. If `id` names no order, or `quantity` is 0,
    /// nothing is traded: returns `None`, and nothing changes. O(1), plus O(log m) if the order leaves and no other is at its price.
    ///
    /// ```
    /// let ask = book.add(Side::Sell, 101, 10, 7)?;
    /// let trade = book.execute(ask, 4);
    /// assert_eq!(rt; trade.map(|trade| (trade.price, trade.quantity)), Some((101, 4)));
    /// assert_eq!(rt; book.get(ask).map(|order| order.quantity), Some(6));
    /// ```
    pub fn execute(&mut self, id: OrderId, quantity: u64) -> Option<Trade<T>>
        ensures value { result ≡ executed (named self.old id) quantity }
        ensures changes { ChangesOrder self.old id
            (reduced_order (named self.old id) quantity) result self.new }
        ensures after { OnSome result
            (self.new ≡ with_less self.old id (left_of (named self.old id) quantity)) }
        ensures some { IfSome result (λ trade. 0 < trade.quantity) }
        ensures uncrossed { IsUncrossed self.old → IsUncrossed self.new }
    {
        match id.side() {
            Side::Buy => self.bids.execute(id.pointer(), quantity),
            Side::Sell => self.asks.execute(id.pointer(), quantity),
        }
    }
}
