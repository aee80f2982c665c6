//! `Orders`: the orders of a side in the order in which they trade.

ghost use Rattle.std.specs.Prelude.{◌≡◌};
ghost use Rattle.std.specs.Iterator.{YieldsFirst, item_count};
ghost use Rattle.order_book.specs.Queue.{orders_from, IsSound};

use crate::ladder::Resting;
use crate::order::{Order, order_at};
use crate::queue::OrderQueue;
use crate::side::{Side, ranked};
use chain_base::ChainArena;
use sorted_arena::{BasePtr, P0};
use std::alloc::{Allocator, Global};
use std::marker::Model;

/// An iterator over the orders of a side, first the one that trades first. Each step is O(1). In contracts it is the list of what is left.
#[derive(Drop)]
pub struct Orders<'a, T: Copy = u64, A: Allocator = Global> {
    side: Side,
    orders: &'a ChainArena<P0, Resting<T>, A>,
    // the index of the next one
    at: Option<u32>,
}

impl<'a, T: Copy, A: Allocator> Model for Orders<'a, T, A> {
    ghost use Rattle.std.specs.Prelude.{List, map};
    ghost use Rattle.order_book.specs.declared.order.Order.{Order};
    ghost use Rattle.order_book.specs.QueueLayout.{order_in};
    ghost use Rattle.order_book.specs.Ladder.{row_of, rows_left};
    ghost use Rattle.sorted_arena.specs.Chain.{IsDistinct};

    ghost Value = { List (Order T) };

    ghost view = { λ o. map (order_in o.side) (rows_left o.orders.now.entries o.at) };

    ghost invariant = { λ o. IsDistinct o.orders.now.entries };
}

impl<T: Copy, A: Allocator> OrderQueue<T, A> {
    /// Returns an iterator over all orders, first the one that trades first.
    pub fn iter(&self) -> Orders<'_, T, A>
        ensures orders { result ≡ self.now.orders }
        ensures sound { IsSound self.now }
    {
        // For the prover: what holds of every side.
        let _ = self.len();
        let ladder = self.ladder();
        Orders {
            side: self.side(),
            orders: &ladder.orders,
            at: ladder.first_index(),
        }
    }

    /// Returns an iterator over the orders at `price` and at worse prices, first the one that trades first. O(log m).
    pub fn iter_from(&self, price: u64) -> Orders<'_, T, A>
        ensures orders { result ≡ orders_from self.now.side price self.now.orders }
        ensures sound { IsSound self.now }
    {
        // For the prover: what holds of every side.
        let _ = self.len();
        let ladder = self.ladder();
        Orders {
            side: self.side(),
            orders: &ladder.orders,
            at: ladder.index_from(ranked(self.side(), price)),
        }
    }
}

impl<'a, T: Copy, A: Allocator> Iterator for Orders<'a, T, A> {
    type Item = Order<T>;

    ghost next_gives = { YieldsFirst (λ left. left) };

    ghost remaining = { item_count (λ left. left) };

    fn next(&mut self) -> Option<Order<T>> {
        let index = self.at?;
        let (generation, link) = self.orders.get_inx_link_no_gen(index)?;
        self.at = link.next();
        let pointer = P0::_from_raw(index, generation);
        Some(order_at(self.side, pointer, link.t.rank, link.t.lot))
    }
}
