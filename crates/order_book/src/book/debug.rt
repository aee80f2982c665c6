//! Printing a book.

use super::OrderBook;
use std::alloc::Allocator;
use std::fmt;

/// The bids and the asks, each as a list of orders in the order in which they trade.
impl<T: Copy + fmt::Debug, A: Allocator> fmt::Debug for OrderBook<T, A> {
    fn fmt<W: fmt::Write>(&self, f: &mut fmt::Formatter<W>) -> fmt::Result {
        f.debug_struct("OrderBook")
            .field("bids", &self.bids)
            .field("asks", &self.asks)
            .finish()
    }
}
