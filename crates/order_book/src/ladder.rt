//! `Ladder`: the orders of a side in one list, and its levels in a sorted arena.

ghost use Rattle.std.specs.Prelude.{◌≡◌, [], length, IsSome};
ghost use Rattle.std.specs.Ordering.{nat_cmp};
ghost use Rattle.sorted_arena.specs.Chain.{first_pointer};
ghost use Rattle.sorted_arena.specs.Sorted.{get, next_of, IsSound};
ghost use Rattle.order_book.specs.Queue.{most_entries};
ghost use Rattle.order_book.specs.Ladder.{rows_of, rows_left, IsLadder};

mod clone;
mod growth;
mod insert;
mod place;
mod remove;

use crate::order::Lot;
use chain_base::ChainArena;
use sorted_arena::{BasePtr, P0, SortedArena};
use std::alloc::{Allocator, Global};

/// What the list keeps of an order.
#[doc(hidden)]
#[derive(Clone, Copy, PartialEq, Eq, Debug)]
pub struct Resting<T> {
    /// The rank of its price.
    pub rank: u64,
    /// What is left of it, and its tag.
    pub lot: Lot<T>,
    /// The pointer of its level.
    pub level: P0,
}

/// What a level sums up: the orders of one rank.
#[doc(hidden)]
#[derive(Clone, Copy, PartialEq, Eq, Debug)]
pub struct Totals {
    /// How much is left of them in all.
    pub quantity: u128,
    /// How many there are.
    pub count: usize,
    /// The index of the last one.
    pub last: u32,
}

/// The orders of a side, first the one that trades first, and the levels that they make, by rank.
///
/// An order names its level, and a level its last order. So an order that comes to rest goes behind the last one of its level, and one that
/// leaves takes its part off its level, without a search. There is room for as many levels as for orders.
#[doc(hidden)]
#[derive(Drop)]
pub struct Ladder<T: Copy, A: Allocator = Global> {
    /// The orders.
    pub orders: ChainArena<P0, Resting<T>, A>,
    /// The levels by rank.
    pub levels: SortedArena<u64, Totals, P0, A>,
    /// The level that an order joined last, which is tried first for the next order.
    pub recent: Option<P0>,
}

impl<T: Copy, A: Allocator> Ladder<T, A> {
    /// Creates a ladder without orders. It takes no memory.
    pub(crate) fn new(alloc: A) -> Self
    where
        A: Copy,
        ensures ladder { IsLadder result.orders result.levels }
        ensures rows { rows_of result.orders
            ≡ record { entries = []; generation = 2; capacity = 0 } }
    {
        Ladder {
            orders: ChainArena::new(alloc),
            levels: SortedArena::new(alloc),
            recent: None,
        }
    }

    /// Returns the number of orders.
    pub(crate) fn len(&self) -> usize
        requires { IsLadder self.now.orders self.now.levels }
        ensures value { result ≡ length (rows_of self.now.orders).entries }
        ensures sound { IsSound nat_cmp most_entries (rows_of self.now.orders) }
    {
        self.orders.len()
    }

    /// Returns the pointer of the first order.
    pub(crate) fn first(&self) -> Option<P0>
        ensures { result ≡ first_pointer (rows_of self.now.orders).entries }
    {
        self.orders.first()
    }

    /// Returns the index of the first order.
    pub(crate) fn first_index(&self) -> Option<u32>
        ensures { rows_left self.now.orders.entries result ≡ (rows_of self.now.orders).entries }
    {
        Some(self.orders.first()?.inx())
    }

    /// Returns the pointer of the order behind the one that the pointer names.
    pub(crate) fn next(&self, pointer: P0) -> Option<P0>
        requires ladder { IsLadder self.now.orders self.now.levels }
        requires named { IsSome (get (rows_of self.now.orders) pointer) }
        ensures { result ≡ next_of (rows_of self.now.orders).entries pointer }
    {
        let index = self.orders.link(pointer.inx()).next()?;
        let (generation, _) = self.orders.entry(index);
        Some(P0::_from_raw(index, generation))
    }

    /// Returns the rank and the lot of the order that the pointer names, if it names one.
    pub(crate) fn get(&self, pointer: P0) -> Option<(u64, Lot<T>)>
        ensures { result ≡ get (rows_of self.now.orders) pointer }
    {
        let order = self.orders.get(pointer)?;
        Some((order.rank, order.lot))
    }
}
