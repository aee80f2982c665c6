//! Whether two books have the same orders.

ghost use Rattle.std.specs.Prelude.{◌&&◌};
ghost use Rattle.std.specs.Cmp.{and_equiv, and_per, on_equiv, on_per};
ghost use Rattle.std.specs.Cmp.Lexicographic.{lists_equiv, lists_per};
ghost use Rattle.order_book.specs.Queue.{has_same_orders, same_order_equiv, same_order_per};

use super::OrderBook;
use std::alloc::Allocator;

/// The same orders in the same places, with their names.
impl<T: Copy + PartialEq, A: Allocator> PartialEq for OrderBook<T, A> {
    ghost eq = { λ a b. has_same_orders T.eq a.bids b.bids
        && has_same_orders T.eq a.asks b.asks };

    ghost laws = { and_per
        (on_per (λ b. b.bids.orders) (lists_per (same_order_per T.PartialEq.laws)))
        (on_per (λ b. b.asks.orders) (lists_per (same_order_per T.PartialEq.laws))) };

    fn eq(&self, other: &OrderBook<T, A>) -> bool {
        self.bids == other.bids && self.asks == other.asks
    }
}

impl<T: Copy + Eq, A: Allocator> Eq for OrderBook<T, A> {
    ghost laws = { and_equiv (on_equiv (λ b. b.bids.orders) (lists_equiv (same_order_equiv T.Eq.laws)))
        (on_equiv (λ b. b.asks.orders) (lists_equiv (same_order_equiv T.Eq.laws))) };
}
