//! Whether two sides have the same orders.

ghost use Rattle.std.specs.Cmp.{on_equiv, on_per};
ghost use Rattle.std.specs.Cmp.Lexicographic.{lists_equiv, lists_per};
ghost use Rattle.order_book.specs.Queue.{has_same_orders, same_order_equiv, same_order_per};

use super::OrderQueue;
use std::alloc::Allocator;

/// The same orders in the same places, with their names.
impl<T: Copy + PartialEq, A: Allocator> PartialEq for OrderQueue<T, A> {
    ghost eq = { has_same_orders T.eq };

    ghost laws = { on_per (λ q. q.orders)
        (lists_per (same_order_per T.PartialEq.laws)) };

    fn eq(&self, other: &OrderQueue<T, A>) -> bool {
        if self.len() != other.len() {
            return false;
        }
        let (mut left, mut right) = (self.iter(), other.iter());
        while let Some(order) = left.next() {
            let Some(beside) = right.next() else {
                return false;
            };
            if order != beside {
                return false;
            }
        }
        true
    }
}

impl<T: Copy + Eq, A: Allocator> Eq for OrderQueue<T, A> {
    ghost laws = { on_equiv (λ q. q.orders) (lists_equiv (same_order_equiv T.Eq.laws)) };
}
