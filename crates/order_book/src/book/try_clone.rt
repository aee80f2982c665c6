//! Clones of a book.

ghost use Rattle.std.specs.Prelude.{◌≡◌, [], IfOk, IsOk};
ghost use Rattle.order_book.specs.Queue.{clone_of};

use super::OrderBook;
use std::alloc::{AllocError, Allocator};

impl<T: Copy, A: Allocator + Copy> OrderBook<T, A> {
    /// Returns a clone on the same allocator: the same orders under the same ids. O(capacity of both sides).
    ///
    /// A side of the clone has the capacity of the greatest index of an id, which is at least the number of its orders and at most this
    /// side's capacity.
    ///
    /// ```
    /// let ask = book.add(Side::Sell, 101, 10, 7)?;
    /// let copy = book.try_clone()?;
    /// assert!(rt; copy == *book);
    /// book.execute(ask, 10);
    /// assert_eq!(rt; copy.get(ask).map(|order| order.quantity), Some(10));
    /// assert!(rt; copy != *book);
    /// ```
    ///
    /// # Errors
    ///
    /// `AllocError`: memory for the orders is refused.
    pub fn try_clone(&self) -> Result<Self, AllocError>
        ensures ok { IfOk result (λ book. book
            ≡ record { bids = clone_of self.now.bids; asks = clone_of self.now.asks }) }
        ensures none { self.now.bids.orders ≡ [] → self.now.asks.orders ≡ [] → IsOk result }
    {
        Ok(OrderBook {
            bids: self.bids.try_clone()?,
            asks: self.asks.try_clone()?,
        })
    }
}
