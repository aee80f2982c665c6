//! Orders that leave by a test.

ghost use Rattle.std.specs.Prelude.{◌≡◌, ◌+◌, ℕ, IsSome, length};
ghost use Rattle.order_book.specs.Queue.{order_of, Cancels, IsSound};
ghost use Rattle.order_book.specs.QueueLayout.{AsksFor, IsCutAt};

use super::OrderQueue;
use crate::order::Order;
use sorted_arena::P0;
use std::alloc::Allocator;

impl<T: Copy, A: Allocator> OrderQueue<T, A> {
    /// Asks `f` once for each order, in the order in which they trade, removes those for which it answers `true`, and returns how many.
    ///
    /// The other orders keep their pointers and their places. O(n) calls, O(1) for each order that leaves, and O(log m) for each
    /// price level.
    pub fn remove_where<F: FnMut(Order<T>) -> bool>(&mut self, mut f: F) -> usize
        requires { F.IsAlwaysCallable f }
        ensures cancels { Cancels F.FnMut f self.old self.new }
        ensures count { result + length self.new.orders ≡ length self.old.orders }
        ensures kept { (p : ℕ × ℕ) → IsSome (order_of self.new.orders p)
            → order_of self.new.orders p ≡ order_of self.old.orders p }
        ensures side { self.new.side ≡ self.old.side }
        ensures sound { IsSound self.old }
    {
        // For the prover: what holds of every side.
        let before = self.len();
        let mut next = self.ladder.first();
        for _ in 0..before {
            next = self.ask(next.unwrap(), &mut f);
        }
        before - self.len()
    }

    // Asks for the order that the pointer names, removes it if the answer is `true`, and returns the pointer of the next one.
    fn ask<F: FnMut(Order<T>) -> bool>(&mut self, pointer: P0, f: &mut F) -> Option<P0>
        requires named { IsSome (order_of self.old.orders pointer) }
        requires callable { F.IsAlwaysCallable f.old }
        ensures asks { (at : IsCutAt self.old.orders pointer)
            → AsksFor F.FnMut f.old self.old at f.new self.new result }
        ensures still_callable { F.IsAlwaysCallable f.new }
        ensures sound { IsSound self.new }
    {
        // For the prover: what holds of every side.
        let _ = self.len();
        let next = self.ladder.next(pointer);
        let order = self.get(pointer).unwrap();
        if f(order) {
            let _ = self.remove(pointer);
        }
        let _ = self.len();
        next
    }
}
