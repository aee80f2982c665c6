//! A desk that deals for others, and says at once how much was dealt.

ghost use Rattle.std.specs.Prelude.{◌≡◌, ◌≢◌, ◌↔◌, ◌+◌, ◌-◌, ◌++◌, ◌<◌, ◌⊎◌, ℕ, [], ◌∷◌, length, min, leb, vec_capacity, IsTrue, true, false};
ghost use Rattle.std.specs.Prelude.{Some, None, Ok, Err, IfOk, OnOk, OnErr, OnSome, IfSome, IfNone, IsSome};
ghost use Rattle.std.specs.Option.{option_map};
ghost use Rattle.order_book.specs.Words.{HasRoomFor, first_levels, first_of, level_at, orders_at, orders_from, resting, top_of, total, volume};
ghost use Rattle.order_book.specs.Names.{Counts, HasEnded, HasNoLaterName};
ghost use Rattle.order_book.specs.Book.{IsFull, IsUncrossed, LacksRoom, Updates, named, opposite, queue, rest_of, trades_for, trades_of};

use order_book::laws::ended_name_law;
use order_book::{
    Level, NewOrder, Order, OrderBook, OrderId, OrderKind, PlacingError, ReallocationError, Side,
    Trade,
};
use std::alloc::{AllocError, Global};
use std::marker::Model;

/// A desk with its book, in which no bid is ever at or above an ask. In contracts it is the book.
#[derive(Drop)]
pub struct Desk {
    book: OrderBook,
}

impl Model for Desk {
    ghost use Rattle.std.specs.Prelude.{ℕ};
    ghost use Rattle.order_book.specs.Book.{Book};

    ghost Value = { Book ℕ };

    ghost view = { λ d. d.book };

    ghost use Rattle.order_book.specs.Book.{IsUncrossed};

    ghost invariant = { λ d. IsUncrossed d.book };
}

/// What came of an order: how much of it was dealt at once, and the name of what rests.
#[derive(Clone, Copy, PartialEq, Eq, Debug)]
pub struct Deal {
    pub dealt: u64,
    pub resting: Option<OrderId>,
}

impl Desk {
    /// Makes a desk with an empty book.
    pub fn new(alloc: Global) -> Self
        ensures bids { result.bids.orders ≡ [] }
        ensures asks { result.asks.orders ≡ [] }
    {
        Desk {
            book: OrderBook::new(alloc),
        }
    }

    /// Returns the number of resting orders.
    pub fn size(&self) -> usize
        ensures { result ≡ length self.now.bids.orders + length self.now.asks.orders }
    {
        self.book.count(Side::Buy) + self.book.count(Side::Sell)
    }

    /// Makes room for so many more orders on a side.
    pub fn reserve(&mut self, side: Side, additional: usize) -> Result<(), ReallocationError>
        ensures room { OnOk result (HasRoomFor additional (queue self.new side)) }
        ensures refused { OnErr result (self.new ≡ self.old) }
    {
        self.book.reserve(side, additional)
    }

    /// Returns by how much the best ask is above the best bid: at least 1. `None` if one of them is missing.
    pub fn spread(&self) -> Option<u64>
        ensures value { (bid : _) (bids : _) (ask : _) (asks : _)
            → self.now.bids.orders ≡ bid ∷ bids → self.now.asks.orders ≡ ask ∷ asks
            → result ≡ Some (ask.price - bid.price) }
        ensures apart { IfSome result (λ spread. 0 < spread) }
        ensures none { IfNone result ((self.now.bids.orders ≡ []) ⊎ (self.now.asks.orders ≡ [])) }
    {
        let bid = self.book.best_bid()?;
        let ask = self.book.best_ask()?;
        Some(ask.price - bid.price)
    }

    /// Returns the best level of a side.
    pub fn best_level(&self, side: Side) -> Option<Level>
        ensures some { (level : _) (levels : _)
            → first_levels 1 (queue self.now side).orders ≡ level ∷ levels
            → result ≡ Some level }
        ensures none { first_levels 1 (queue self.now side).orders ≡ [] → result ≡ None }
    {
        self.book.depth(side, 1).next()
    }

    /// Removes an order and returns how much was left of it. `None` if the name names none.
    ///
    /// The name has ended, unless generations begin again.
    pub fn withdraw(&mut self, id: OrderId) -> Option<u64>
        ensures left { result ≡ option_map (λ order. order.quantity) (named self.old id) }
        ensures updates { Updates self.old self.new id None }
        ensures ended { HasNoLaterName self.old → Counts self.old self.new
            → OnSome result (HasEnded self.new id) }
        ensures none { IfNone result (self.new ≡ self.old) }
    {
        ended_name_law::<u64>();
        let order = self.book.cancel(id)?;
        Some(order.quantity)
    }

    /// Halves an order, which keeps its place, and returns how much is left of it.
    pub fn halve(&mut self, id: OrderId) -> Option<u64>
        ensures none { named self.old id ≡ None → result ≡ None }
        ensures others { (other : _) → other ≢ id
            → named self.new other ≡ named self.old other }
    {
        let left = self.left_of(id);
        self.book.reduce(id, left / 2)
    }

    /// Takes over an execution that the market reports, and returns how much of the order it filled: 0 if the name names none.
    pub fn fill(&mut self, id: OrderId, quantity: u64) -> u64
        ensures filled { (order : _) → named self.old id ≡ Some order
            → result ≡ min quantity order.quantity }
        ensures none { named self.old id ≡ None → (result ≡ 0) × (self.new ≡ self.old) }
        ensures others { (other : _) → other ≢ id
            → named self.new other ≡ named self.old other }
    {
        match self.book.execute(id, quantity) {
            Some(trade) => trade.quantity,
            None => 0,
        }
    }

    /// Returns the best price of a side, and how much rests there. `None` if the side has no orders.
    pub fn quote(&self, side: Side) -> Option<(u64, u128)>
        ensures { result ≡ option_map (λ level. (level.price, level.quantity))
            (top_of (queue self.now side).orders) }
    {
        let top = self.book.top(side)?;
        Some((top.price, top.quantity))
    }

    /// Returns whether at least so much of a side rests at a price.
    pub fn has_at(&self, side: Side, price: u64, quantity: u128) -> bool
        ensures { result ≡ leb quantity (total (orders_at price (queue self.now side).orders)) }
    {
        quantity <= self.book.volume_at(side, price)
    }

    /// Returns how many orders of a side rest at a price.
    pub fn count_at(&self, side: Side, price: u64) -> usize
        ensures some { (level : _) → level_at price (queue self.now side).orders ≡ Some level
            → result ≡ level.count }
        ensures none { level_at price (queue self.now side).orders ≡ None → result ≡ 0 }
    {
        match self.book.level_at(side, price) {
            Some(level) => level.count,
            None => 0,
        }
    }

    /// Returns the first order of a side at a price or a worse one.
    pub fn first_from(&self, side: Side, price: u64) -> Option<Order>
        ensures { result ≡ first_of (orders_from side price (queue self.now side).orders) }
    {
        self.book.iter_from(side, price).next()
    }

    /// Cancels the orders of a side with this tag, and returns how many. The others keep their names, and ended names stay so.
    pub fn withdraw_all(&mut self, side: Side, tag: u64) -> usize
        ensures count { result + length (queue self.new side).orders
            ≡ length (queue self.old side).orders }
        ensures kept { (other : _) → IsSome (named self.new other)
            → named self.new other ≡ named self.old other }
        ensures other_side { queue self.new (opposite side) ≡ queue self.old (opposite side) }
        ensures ended { Counts self.old self.new → (other : _) → HasEnded self.old other
            → HasEnded self.new other }
    {
        ended_name_law::<u64>();
        self.book.cancel_where(side, |order| order.tag == tag)
    }

    /// Takes over an order that rests elsewhere, and returns its name. One that would trade here, or for which there is no room, is refused:
    /// nothing changes.
    pub fn take_over(&mut self, side: Side, price: u64, quantity: u64, tag: u64) -> Option<OrderId>
        ensures rests { IfSome result (λ id. named self.new id
            ≡ Some (resting side id.pointer price quantity tag)) }
        ensures none { IfNone result (self.new ≡ self.old) }
    {
        if self.book.offered(side, price, quantity) > 0 {
            return None;
        }
        match self.book.add(side, price, quantity, tag) {
            Ok(id) => Some(id),
            Err(_) => None,
        }
    }

    /// Returns a copy of the desk: the same orders with the same names.
    pub fn copy(&self) -> Result<Desk, AllocError>
        ensures bids { IfOk result (λ copy. copy.bids.orders ≡ self.now.bids.orders) }
        ensures asks { IfOk result (λ copy. copy.asks.orders ≡ self.now.asks.orders) }
    {
        Ok(Desk {
            book: self.book.try_clone()?,
        })
    }

    /// Makes a desk of a book from a feed. One that is crossed is refused.
    pub fn open(book: OrderBook) -> Option<Desk>
        ensures same { IfSome result (λ desk. desk ≡ book) }
        ensures crossed { IfNone result (IsUncrossed book → ⊥) }
    {
        if book.is_crossed() {
            return None;
        }
        Some(Desk { book })
    }

    /// Places an order, appends its trades to the list, and says how much was dealt. One that is refused changes nothing.
    pub fn deal(&mut self, order: NewOrder, trades: &mut Vec<Trade>) -> Result<Deal, PlacingError>
        ensures dealt { IfOk result (λ deal. deal.dealt ≡ trades_for self.old order) }
        ensures trades { OnOk result
            (trades.new.items ≡ trades.old.items ++ trades_of self.old order) }
        ensures rests { IfOk result (λ deal. IfSome deal.resting
            (λ id. option_map (λ x. x.quantity) (named self.new id)
            ≡ Some (rest_of self.old order))) }
        ensures refused { OnErr result (self.new ≡ self.old) }
        ensures kept { OnErr result (trades.new.items ≡ trades.old.items) }
    {
        let dealt = self
            .book
            .offered(order.side, order.kind.limit(order.side), order.quantity);
        let resting = self.book.place(order, trades)?;
        Ok(Deal { dealt, resting })
    }

    /// Deals all of an order at once, or nothing of it, and returns whether it was dealt. It needs room for its trades alone.
    ///
    /// Names that have ended stay so, unless generations begin again.
    pub fn deal_whole(
        &mut self,
        side: Side,
        price: u64,
        quantity: u64,
        trades: &mut Vec<Trade>,
    ) -> Result<bool, PlacingError>
        ensures dealt { result ≡ Ok true → volume (trades_of self.old (record {
          side = side;
          kind = OrderKind.FillOrKill price;
          quantity = quantity;
          tag = 0;
        })) ≡ quantity }
        ensures declined { result ≡ Ok false → self.new ≡ self.old }
        ensures not_full { result ≢ Err PlacingError.BeyondMaxCapacity }
        ensures ended { Counts self.old self.new → (other : _) → HasEnded self.old other
            → HasEnded self.new other }
        ensures later { Counts self.old self.new → HasNoLaterName self.old
            → HasNoLaterName self.new }
        ensures refused { OnErr result (self.new ≡ self.old) }
    {
        ended_name_law::<u64>();
        let order = NewOrder {
            side,
            kind: OrderKind::FillOrKill(price),
            quantity,
            tag: 0,
        };
        match self.book.place(order, trades) {
            Ok(_) => Ok(true),
            Err(PlacingError::WouldNotFill) => Ok(false),
            Err(refusal) => Err(refusal),
        }
    }

    /// Returns how much is left of an order: 0 if the name names none.
    pub fn left_of(&self, id: OrderId) -> u64
        ensures some { (order : _) → named self.now id ≡ Some order → result ≡ order.quantity }
        ensures none { named self.now id ≡ None → result ≡ 0 }
    {
        match self.book.get(id) {
            Some(order) => order.quantity,
            None => 0,
        }
    }
}
