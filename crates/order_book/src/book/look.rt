//! What rests at a price, and from a price on.

ghost use Rattle.std.specs.Prelude.{◌≡◌};
ghost use Rattle.order_book.specs.Queue.{level_at, orders_at, orders_from, top_of, total};
ghost use Rattle.order_book.specs.Book.{queue};

use super::OrderBook;
use crate::level::Level;
use crate::orders::Orders;
use crate::side::Side;
use std::alloc::Allocator;

impl<T: Copy, A: Allocator> OrderBook<T, A> {
    /// Returns the best price of a side with its whole quantity and its number of orders. `None` if the side has no orders.
    ///
    /// O(1).
    ///
    /// ```
    /// let mut trades = Vec::new(rt.alloc());
    /// book.place(NewOrder::limit(Side::Sell, 101, 10), &mut trades)?;
    /// book.place(NewOrder::limit(Side::Sell, 101, 5), &mut trades)?;
    /// book.place(NewOrder::limit(Side::Sell, 103, 20), &mut trades)?;
    /// let top = book.top(Side::Sell);
    /// assert_eq!(rt; top.map(|top| (top.price, top.quantity, top.count)), Some((101, 15, 2)));
    /// ```
    pub fn top(&self, side: Side) -> Option<Level>
        ensures { result ≡ top_of (queue self.now side).orders }
    {
        self.side(side).top()
    }

    /// Returns the whole quantity and the number of the orders of a side at a price. `None` if no order of the side is at the price.
    ///
    /// O(log m).
    ///
    /// ```
    /// let mut trades = Vec::new(rt.alloc());
    /// book.place(NewOrder::limit(Side::Sell, 103, 20), &mut trades)?;
    /// book.place(NewOrder::limit(Side::Sell, 103, 5), &mut trades)?;
    /// let level = book.level_at(Side::Sell, 103);
    /// assert_eq!(rt; level.map(|level| (level.quantity, level.count)), Some((25, 2)));
    /// assert_eq!(rt; book.level_at(Side::Sell, 102), None);
    /// ```
    pub fn level_at(&self, side: Side, price: u64) -> Option<Level>
        ensures { result ≡ level_at price (queue self.now side).orders }
    {
        self.side(side).level_at(price)
    }

    /// Returns how much of a side rests at a price in all: 0 if no order is at the price. O(log m).
    ///
    /// ```
    /// let mut trades = Vec::new(rt.alloc());
    /// book.place(NewOrder::limit(Side::Sell, 103, 20), &mut trades)?;
    /// book.place(NewOrder::limit(Side::Sell, 103, 5), &mut trades)?;
    /// assert_eq!(rt; book.volume_at(Side::Sell, 103), 25);
    /// assert_eq!(rt; book.volume_at(Side::Buy, 103), 0);
    /// ```
    pub fn volume_at(&self, side: Side, price: u64) -> u128
        ensures { result ≡ total (orders_at price (queue self.now side).orders) }
    {
        self.side(side).volume_at(price)
    }

    /// Returns an iterator over the orders of a side at a price and at worse ones, first the one that trades first. O(log m), and O(1) a
    /// step.
    ///
    /// ```
    /// let mut trades = Vec::new(rt.alloc());
    /// book.place(NewOrder::limit(Side::Sell, 101, 10), &mut trades)?;
    /// book.place(NewOrder::limit(Side::Sell, 103, 20), &mut trades)?;
    /// let ask = book.iter_from(Side::Sell, 102).next();
    /// assert_eq!(rt; ask.map(|ask| ask.price), Some(103));
    /// assert!(rt; book.iter_from(Side::Buy, 102).next().is_none());
    /// ```
    pub fn iter_from(&self, side: Side, price: u64) -> Orders<'_, T, A>
        ensures { result ≡ orders_from side price (queue self.now side).orders }
    {
        match side {
            Side::Buy => self.bids.iter_from(price),
            Side::Sell => self.asks.iter_from(price),
        }
    }
}
