//! A book as a list of its orders.

ghost use Rattle.std.specs.Prelude.{◌≡◌, ◌≢◌, ◌+◌, ◌≤◌, ◌<◌, ◌++◌, Err, length, vec_capacity, IfOk, OnOk, OnErr};
ghost use Rattle.std.specs.List.{AllByRecursion};
ghost use Rattle.order_book.specs.Queue.{most_entries};
ghost use Rattle.order_book.specs.Book.{IsBook};
ghost use Rattle.order_book.specs.Snapshot.{orders_of, AreSidesInOrder, HasOrders, HaveSameOrders};

use super::OrderBook;
use crate::error::AddingError;
use crate::order::Order;
use crate::side::Side;
use std::alloc::{AllocError, Allocator};

impl<T: Copy, A: Allocator> OrderBook<T, A> {
    /// Appends all orders to a list: the bids, first the one that trades first, and then the asks.
    ///
    /// [`restored`](Self::restored) makes a book of them.
    ///
    /// ```
    /// book.add(Side::Buy, 99, 10, 7)?;
    /// book.add(Side::Sell, 101, 4, 8)?;
    /// let mut orders = Vec::new(rt.alloc());
    /// book.snapshot(&mut orders)?;
    /// let restored = OrderBook::restored(&orders, rt.alloc())?;
    /// assert_eq!(rt; restored.best_ask().map(|ask| (ask.price, ask.quantity, ask.tag)), Some((101, 4, 8)));
    /// ```
    ///
    /// # Errors
    ///
    /// `AllocError`: memory is refused to the list, which is unchanged.
    ///
    /// # Complexity
    ///
    /// O(n) for the orders of both sides.
    pub fn snapshot<B: Allocator>(&self, orders: &mut Vec<Order<T>, B>) -> Result<(), AllocError>
        ensures orders { OnOk result (orders.new.items ≡ orders.old.items ++ orders_of self.now) }
        ensures memory { OnErr result (vec_capacity orders.old < length orders.old.items
            + length (orders_of self.now)) }
        ensures err { OnErr result (orders.new.items ≡ orders.old.items) }
        ensures capacity { vec_capacity orders.old ≤ vec_capacity orders.new }
    {
        orders.reserve(self.count(Side::Buy) + self.count(Side::Sell))?;
        self.bids.append_to(orders);
        self.asks.append_to(orders);
        Ok(())
    }

    /// Makes a book of orders, each of which rests behind those of its price that are before it in the list. None of them trades.
    ///
    /// Of a [`snapshot`](Self::snapshot) it makes a book with the same orders in the same order. They get new ids; the tags
    /// tell which is which.
    ///
    /// # Errors
    ///
    /// There is no book then.
    /// - `NoQuantity`: the quantity of an order is 0.
    /// - `BeyondMaxCapacity`: a side would have more than 4,294,967,294 orders.
    /// - `AllocError`: memory is refused.
    ///
    /// # Complexity
    ///
    /// O(n log m), at most.
    pub fn restored(orders: &[Order<T>], alloc: A) -> Result<Self, AddingError>
    where
        A: Copy,
        ensures orders { AreSidesInOrder orders.now → IfOk result
            (λ book. HasOrders book orders.now) }
        ensures same { (b : _) → IsBook b → orders.now ≡ orders_of b → IfOk result
            (λ book. HaveSameOrders book b) }
        ensures nothing { AllByRecursion (λ x. 0 < x.quantity) orders.now
            → result ≢ Err AddingError.NoQuantity }
        ensures full { length orders.now ≤ most_entries
            → result ≢ Err AddingError.BeyondMaxCapacity }
    {
        let mut book = OrderBook::new(alloc);
        for order in orders {
            // For the prover: what holds of every book.
            let _ = book.count(order.id.side());
            let _ = book.add(order.id.side(), order.price, order.quantity, order.tag)?;
        }
        Ok(book)
    }
}
