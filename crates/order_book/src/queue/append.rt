//! The orders of a side at the end of a list.

ghost use Rattle.std.specs.Prelude.{◌≡◌, ◌+◌, ◌≤◌, ◌++◌, length, vec_capacity};

use super::OrderQueue;
use crate::order::Order;
use std::alloc::Allocator;

impl<T: Copy, A: Allocator> OrderQueue<T, A> {
    /// Appends the orders, first the one that trades first, to a list that has room for them. O(n).
    pub(crate) fn append_to<B: Allocator>(&self, orders: &mut Vec<Order<T>, B>)
        requires { length orders.old.items + length self.now.orders ≤ vec_capacity orders.old }
        ensures orders { orders.new.items ≡ orders.old.items ++ self.now.orders }
        ensures capacity { vec_capacity orders.old ≤ vec_capacity orders.new }
    {
        for order in self.iter() {
            let _ = orders.push(order);
        }
    }
}
