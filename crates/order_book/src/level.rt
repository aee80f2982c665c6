//! `Depth`: the orders of a side by price.

ghost use Rattle.std.specs.Prelude.{◌≡◌, reverse};
ghost use Rattle.std.specs.Iterator.{YieldsFirst, item_count};
ghost use Rattle.order_book.specs.Queue.{first_levels, levels_of, level_at, orders_at, top_of, total, IsSound};
ghost use Rattle.order_book.specs.QueueLayout.{summed_level};

use crate::ladder::Totals;
use crate::queue::OrderQueue;
use crate::side::{Side, ranked};
use sorted_arena::{P0, Range};
use std::alloc::{Allocator, Global};
use std::marker::Model;

/// A price at which orders rest.
#[derive(Clone, Copy, PartialEq, Eq, Debug)]
pub struct Level {
    /// The price of one unit.
    pub price: u64,
    /// How much rests at this price in all, at least 1.
    pub quantity: u128,
    /// The number of orders, at least 1.
    pub count: usize,
}

/// An iterator over the price levels of a side, the best price first. In contracts it is the list of the levels that are left.
///
/// A step is O(1).
#[derive(Drop)]
pub struct Depth<'a, A: Allocator = Global> {
    side: Side,
    // the number of levels that it may still give
    levels: usize,
    // those that are left
    rest: Range<'a, u64, Totals, P0, A>,
}

impl<'a, A: Allocator> Model for Depth<'a, A> {
    ghost use Rattle.std.specs.Prelude.{List, map, take};
    ghost use Rattle.order_book.specs.declared.level.Level.{Level};
    ghost use Rattle.order_book.specs.QueueLayout.{level_in};

    ghost Value = { List Level };

    ghost view = { λ d. take d.levels (map (level_in d.side) d.rest) };
}

impl<T: Copy, A: Allocator> OrderQueue<T, A> {
    /// Returns an iterator over the first `levels` price levels, the best price first: fewer if there are fewer. O(1).
    pub fn depth(&self, levels: usize) -> Depth<'_, A>
        ensures { result ≡ first_levels levels self.now.orders }
    {
        Depth {
            side: self.side(),
            levels,
            rest: self.ladder().levels.iter(),
        }
    }

    // An iterator over all price levels.
    pub(crate) fn levels(&self) -> Depth<'_, A>
        ensures levels { result ≡ levels_of self.now.orders }
        ensures sound { IsSound self.now }
    {
        // For the prover: there are no more levels than orders.
        let _ = self.len();
        self.depth(usize::MAX)
    }

    // An iterator over all price levels, the worst price first.
    pub(crate) fn levels_from_worst(&self) -> WorstFirst<'_, A>
        ensures levels { result ≡ reverse (levels_of self.now.orders) }
        ensures sound { IsSound self.now }
    {
        // For the prover: what holds of every side.
        let _ = self.len();
        WorstFirst {
            side: self.side(),
            rest: self.ladder().levels.iter(),
        }
    }

    // How much rests in all.
    pub(crate) fn volume(&self) -> u128
        ensures { result ≡ total self.now.orders }
    {
        let mut volume = 0;
        for level in self.levels() {
            volume += level.quantity;
        }
        volume
    }

    /// Returns the best price with its whole quantity and its number of orders. `None` if there are no orders. O(1).
    pub fn top(&self) -> Option<Level>
        ensures { result ≡ top_of self.now.orders }
    {
        self.levels().next()
    }

    /// Returns the whole quantity and the number of the orders at a price. `None` if there are none. O(log m).
    pub fn level_at(&self, price: u64) -> Option<Level>
        ensures { result ≡ level_at price self.now.orders }
    {
        // For the prover: the orders are in order.
        let _ = self.len();
        let rank = ranked(self.side(), price);
        match self.ladder().levels.get_by_key(&rank) {
            Some((_, rank, totals)) => Some(level_of(self.side(), *rank, *totals)),
            None => None,
        }
    }

    /// Returns how much rests at a price in all. O(log m).
    pub fn volume_at(&self, price: u64) -> u128
        ensures { result ≡ total (orders_at price self.now.orders) }
    {
        match self.level_at(price) {
            Some(level) => level.quantity,
            None => 0,
        }
    }
}

// The price levels of a side that are left, the worst price first. In contracts it is their list.
#[derive(Drop)]
pub(crate) struct WorstFirst<'a, A: Allocator> {
    side: Side,
    rest: Range<'a, u64, Totals, P0, A>,
}

impl<'a, A: Allocator> Model for WorstFirst<'a, A> {
    ghost use Rattle.std.specs.Prelude.{List, map, reverse};
    ghost use Rattle.order_book.specs.declared.level.Level.{Level};
    ghost use Rattle.order_book.specs.QueueLayout.{level_in};

    ghost Value = { List Level };

    ghost view = { λ w. reverse (map (level_in w.side) w.rest) };
}

impl<'a, A: Allocator> Iterator for WorstFirst<'a, A> {
    type Item = Level;

    ghost next_gives = { YieldsFirst (λ left. left) };

    ghost remaining = { item_count (λ left. left) };

    fn next(&mut self) -> Option<Level> {
        match self.rest.next_back() {
            Some((_, rank, totals)) => Some(level_of(self.side, *rank, *totals)),
            None => None,
        }
    }
}

// The level of a rank by what it sums up.
fn level_of(side: Side, rank: u64, totals: Totals) -> Level
    ensures { result ≡ summed_level side rank totals }
{
    Level {
        price: ranked(side, rank),
        quantity: totals.quantity,
        count: totals.count,
    }
}

impl<'a, A: Allocator> Iterator for Depth<'a, A> {
    type Item = Level;

    ghost next_gives = { YieldsFirst (λ left. left) };

    ghost remaining = { item_count (λ left. left) };

    fn next(&mut self) -> Option<Level> {
        if self.levels == 0 {
            return None;
        }
        match self.rest.next() {
            Some((_, rank, totals)) => {
                self.levels -= 1;
                Some(level_of(self.side, *rank, *totals))
            }
            None => None,
        }
    }
}
