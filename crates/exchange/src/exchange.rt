//! `Exchange`: a book whose orders are numbered.

use crate::command::Fault;
use order_book::{Auction, NewOrder, Order, OrderBook, OrderId, OrderKind, Side, Trade};
use std::alloc::{AllocError, Global};
use std::collections::HashMap;

/// What the exchange knows of an order beside what the book does.
#[derive(Clone, Copy)]
pub struct Label {
    /// Its number.
    pub number: u64,
    /// What its owner calls it; 0 if the owner gave no tag.
    pub tag: u64,
}

/// A book whose orders are numbered as they come to rest, from 1 on. An order that is replaced keeps its number.
///
/// The number of an order that was filled is forgotten when the next order or auction comes.
#[derive(Drop)]
pub struct Exchange {
    pub book: OrderBook<Label>,
    /// The trades of the last incoming order or auction, each with the label of the resting order.
    pub trades: Vec<Trade<Label>>,
    // The names of the resting orders on the book, by number.
    ids: HashMap<u64, OrderId>,
    // The last number that was given.
    last: u64,
}

impl Exchange {
    /// Creates an exchange without orders.
    pub fn new(alloc: Global) -> Exchange {
        Exchange {
            book: OrderBook::new(alloc),
            trades: Vec::new(alloc),
            ids: HashMap::new(alloc),
            last: 0,
        }
    }

    /// Places an order. Returns the number of what rests.
    pub fn place(
        &mut self,
        side: Side,
        kind: OrderKind,
        quantity: u64,
        tag: u64,
    ) -> Result<Option<u64>, Fault> {
        self.make_ready()?;
        let number = self.last.wrapping_add(1);
        let order = NewOrder {
            side,
            kind,
            quantity,
            tag: Label { number, tag },
        };
        let id = self.book.place(order, &mut self.trades)?;
        Ok(self.enter(number, id))
    }

    /// Puts an order at rest without trading. Returns its number.
    pub fn add(
        &mut self,
        side: Side,
        price: u64,
        quantity: u64,
        tag: u64,
    ) -> Result<Option<u64>, Fault> {
        self.make_ready()?;
        let number = self.last.wrapping_add(1);
        let label = Label { number, tag };
        let id = self.book.add(side, price, quantity, label)?;
        Ok(self.enter(number, Some(id)))
    }

    /// Replaces the order of this number. Returns the number if something of it rests again.
    pub fn replace(
        &mut self,
        number: u64,
        price: u64,
        quantity: u64,
    ) -> Result<Option<u64>, Fault> {
        let old = self.id_of(number)?;
        self.make_ready()?;
        let kind = OrderKind::Limit(price);
        let id = self.book.replace(old, kind, quantity, &mut self.trades)?;
        let _ = self.ids.remove(&number);
        Ok(self.enter(number, id))
    }

    /// Removes the order of this number. Returns its price and what was left of it.
    pub fn cancel(&mut self, number: u64) -> Result<(u64, u64), Fault> {
        let id = self.id_of(number)?;
        let order = self.book.cancel(id).ok_or(Fault::NoOrder)?;
        let _ = self.ids.remove(&number);
        Ok((order.price, order.quantity))
    }

    /// Executes this much of the order of this number, at most all of it; the trade is then the only one. Returns what is left of the order.
    pub fn execute(&mut self, number: u64, quantity: u64) -> Result<u64, Fault> {
        let id = self.id_of(number)?;
        self.forget_filled();
        self.trades.reserve(1)?;
        let trade = self.book.execute(id, quantity).ok_or(Fault::NoExecution)?;
        self.trades.push(trade)?;
        Ok(self.left(number))
    }

    /// Takes this much off the order of this number. Returns what is left of it.
    pub fn reduce(&mut self, number: u64, quantity: u64) -> Result<u64, Fault> {
        let id = self.id_of(number)?;
        let left = self.book.reduce(id, quantity).ok_or(Fault::NoOrder)?;
        if left == 0 {
            let _ = self.ids.remove(&number);
        }
        Ok(left)
    }

    /// Trades all that can trade at one price, as an auction does. Returns what it came to: `None` if nothing can trade.
    pub fn uncross(&mut self) -> Result<Option<Auction>, AllocError> {
        self.forget_filled();
        self.book.uncross(&mut self.trades)
    }

    /// Returns whether there are any levels among so many first ones.
    pub fn has_levels(&self, levels: usize) -> bool {
        levels > 0 && (self.book.best_bid().is_some() || self.book.best_ask().is_some())
    }

    /// Returns what is left of the order of this number.
    pub fn left(&self, number: u64) -> u64 {
        self.order(number).map_or(0, |order| order.quantity)
    }

    // The order of a number, if it rests.
    fn order(&self, number: u64) -> Option<Order<Label>> {
        self.book.get(*self.ids.get(&number)?)
    }

    // Its name on the book.
    fn id_of(&self, number: u64) -> Result<OrderId, Fault> {
        match self.order(number) {
            Some(order) => Ok(order.id),
            None => Err(Fault::NoOrder),
        }
    }

    // Forgets the orders that the last one filled, and makes room for another number.
    fn make_ready(&mut self) -> Result<(), AllocError> {
        self.forget_filled();
        self.ids.reserve(1)
    }

    // Forgets the orders that the last order or auction filled, and its trades.
    fn forget_filled(&mut self) {
        for trade in &self.trades {
            if self.book.get(trade.order).is_none() {
                let _ = self.ids.remove(&trade.tag.number);
            }
        }
        self.trades.clear();
    }

    // Enters an order that has come to rest. There is room for it.
    fn enter(&mut self, number: u64, id: Option<OrderId>) -> Option<u64> {
        let _ = self.ids.insert(number, id?);
        self.last = self.last.max(number);
        Some(number)
    }
}
