//! Orders that are cancelled by a test.

ghost use Rattle.std.specs.Prelude.{◌≡◌, ◌+◌, IsSome, length};
ghost use Rattle.order_book.specs.Id.{Id};
ghost use Rattle.order_book.specs.Queue.{Cancels};
ghost use Rattle.order_book.specs.Book.{named, opposite, queue, IsUncrossed};
ghost use Rattle.order_book.specs.Names.{IsStep};

use super::OrderBook;
use crate::order::Order;
use crate::side::Side;
use std::alloc::Allocator;

impl<T: Copy, A: Allocator> OrderBook<T, A> {
    /// Asks `f` once for each order of a side, in the order in which they trade, removes those for which it answers `true`, and returns
    /// how many.
    ///
    /// The other orders keep their ids and their places in the queue. O(n) calls, O(1) for each order that leaves, and O(log m) for each
    /// price level.
    ///
    /// ```
    /// let mut trades = Vec::new(rt.alloc());
    /// book.place(NewOrder::limit(Side::Sell, 101, 10), &mut trades)?;
    /// book.place(NewOrder::limit(Side::Sell, 103, 20), &mut trades)?;
    /// assert_eq!(rt; book.cancel_where(Side::Sell, |order| order.price < 102), 1);
    /// assert_eq!(rt; book.best_ask().map(|ask| ask.price), Some(103));
    /// ```
    pub fn cancel_where<F: FnMut(Order<T>) -> bool>(&mut self, side: Side, f: F) -> usize
        requires { F.IsAlwaysCallable f }
        ensures cancels { Cancels F.FnMut f (queue self.old side) (queue self.new side) }
        ensures other_side { queue self.new (opposite side) ≡ queue self.old (opposite side) }
        ensures count { result + length (queue self.new side).orders
            ≡ length (queue self.old side).orders }
        ensures kept { (id : Id) → IsSome (named self.new id)
            → named self.new id ≡ named self.old id }
        ensures step { IsStep self.old self.new }
        ensures uncrossed { IsUncrossed self.old → IsUncrossed self.new }
    {
        match side {
            Side::Buy => self.bids.remove_where(f),
            Side::Sell => self.asks.remove_where(f),
        }
    }
}
