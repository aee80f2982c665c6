//! Orders and trades, as callers see them.

ghost use Rattle.std.specs.Prelude.{◌≡◌};
ghost use Rattle.order_book.specs.{Queue.trade_with, QueueLayout.order_in};

use crate::side::{Side, ranked};
use sorted_arena::{BasePtr, P0};
use std::marker::Model;

/// The name of a resting order.
///
/// It names its order until that is filled or removed, and nothing from then on, until after some 2 to the 64th removals the generations of
/// pointers begin again. In contracts it has a side and a pointer, which is a pair of an index and a generation. Its parts can be stored or
/// sent, and make the name again. Names are ordered by side, index and generation, which says nothing of prices.
#[derive(Debug, Clone, Copy, PartialEq, Eq, PartialOrd, Ord, Hash)]
pub struct OrderId {
    side: Side,
    pointer: P0,
}

impl Model for OrderId {
    ghost use Rattle.order_book.specs.Id.{Id};

    ghost Value = { Id };

    ghost view = { λ t. record { side = t.side; pointer = t.pointer } };

    ghost inverse = { λ t. record { side = t.side; pointer = t.pointer } };
}

impl OrderId {
    /// Makes the name of an order of a side by its pointer.
    pub fn new(side: Side, pointer: P0) -> Self
        ensures { result ≡ record { side = side; pointer = pointer } }
    {
        OrderId { side, pointer }
    }

    /// Makes the name of these parts.
    pub fn from_numbers(side: Side, index: u32, generation: u64) -> Self
        ensures { result ≡ record { side = side; pointer = (index, generation) } }
    {
        OrderId {
            side,
            pointer: P0::_from_raw(index, generation),
        }
    }

    /// Returns the side of the order.
    pub fn side(self) -> Side
        ensures { result ≡ self.side }
    {
        self.side
    }

    /// Returns the index of the order's pointer.
    pub fn index(self) -> u32
        ensures { result ≡ self.pointer.0 }
    {
        self.pointer.inx()
    }

    /// Returns the generation of the order's pointer.
    pub fn generation(self) -> u64
        ensures { result ≡ self.pointer.1 }
    {
        self.pointer.generation()
    }

    /// Returns the pointer of the order on its side.
    pub fn pointer(self) -> P0
        ensures { result ≡ self.pointer }
    {
        self.pointer
    }
}

/// A resting order. `T` is what its owner keeps with it.
#[derive(Clone, Copy, PartialEq, Eq, Debug)]
pub struct Order<T = u64> {
    /// The name of the order.
    pub id: OrderId,
    /// The price of one unit, in whatever unit the program counts it.
    pub price: u64,
    /// How much is left of it, at least 1.
    pub quantity: u64,
    /// What its owner keeps with it, as a number or an account.
    pub tag: T,
}

impl<T: Copy> Order<T> {
    /// Returns the trade of so many units of the order with one of the other side.
    pub(crate) fn trade(self, quantity: u64) -> Trade<T>
        ensures { result ≡ trade_with self quantity }
    {
        Trade {
            order: self.id,
            price: self.price,
            quantity,
            left: self.quantity.saturating_sub(quantity),
            tag: self.tag,
        }
    }
}

/// A trade of an incoming order with a resting one, at the price of the resting one.
#[derive(Clone, Copy, PartialEq, Eq, Debug)]
pub struct Trade<T = u64> {
    /// The name of the resting order.
    pub order: OrderId,
    /// The price of one unit.
    pub price: u64,
    /// How much changes hands, at least 1.
    pub quantity: u64,
    /// How much is left of the resting order, which has left the book if that is 0.
    pub left: u64,
    /// The tag of the resting order.
    pub tag: T,
}

/// What the arena keeps of an order beside its price.
#[doc(hidden)]
#[derive(Clone, Copy, PartialEq, Eq, Debug)]
pub struct Lot<T> {
    /// How much is left of it.
    pub quantity: u64,
    /// What its owner keeps with it.
    pub tag: T,
}

/// Returns the order of an entry of the arena.
pub(crate) fn order_at<T: Copy>(side: Side, pointer: P0, rank: u64, lot: Lot<T>) -> Order<T>
    ensures { result ≡ order_in side
        (record { index = pointer.0; generation = pointer.1; item = (rank, lot) }) }
{
    Order {
        id: OrderId::new(side, pointer),
        price: ranked(side, rank),
        quantity: lot.quantity,
        tag: lot.tag,
    }
}
