//! Books of limit orders, as they are measured: an order book, and two of std's `BTreeMap`.
use order_book::{Level, NewOrder, OrderBook, OrderId, OrderKind, PlacingError, Side, Trade};
use std::alloc::{AllocError, Global};
use std::collections::BTreeMap;

/// An order that comes in.
#[derive(Clone, Copy)]
pub struct Limit {
    pub side: Side,
    pub price: u64,
    pub quantity: u64,
}

/// A book of limit orders that trade by price, and where prices are equal in the order in which they came to rest.
pub trait Market: Drop {
    /// What names an order that rests.
    type Id: Copy;

    /// A book without orders.
    fn empty(alloc: Global) -> Self;

    /// Places an order. Answers what its trades come to, price by quantity, and the name of what rests of it.
    fn place(&mut self, order: Limit) -> Result<(u64, Option<Self::Id>), AllocError>;

    /// Cancels an order. Answers what was left of it, 0 where the name names none.
    fn cancel(&mut self, id: Self::Id) -> u64;

    /// Returns what the first price levels of a side come to, price by quantity.
    fn depth(&self, side: Side, levels: usize) -> u64;
}

/// An order book with the trades of the last order that came in.
#[derive(Drop)]
pub struct Book {
    book: OrderBook,
    trades: Vec<Trade>,
}

// What trades come to.
fn worth(trades: &[Trade]) -> u64 {
    let mut sum = 0u64;
    for trade in trades {
        sum = sum.wrapping_add(trade.price.wrapping_mul(trade.quantity));
    }
    sum
}

// What a price level comes to.
fn worth_of_level(level: Level) -> u64 {
    let quantity = u64::try_from(level.quantity).unwrap_or(u64::MAX);
    level.price.wrapping_mul(quantity)
}

impl Book {
    /// Returns what the first price level of a side comes to, 0 where the side has no orders.
    pub fn top(&self, side: Side) -> u64 {
        match self.book.top(side) {
            Some(level) => worth_of_level(level),
            None => 0,
        }
    }

    /// Places a market order for all that the other side has. Answers what its trades come to.
    pub fn take_all(&mut self, side: Side) -> Result<u64, AllocError> {
        self.trades.clear();
        let order = NewOrder::market(side, u64::MAX);
        match self.book.place(order, &mut self.trades) {
            Ok(_) => Ok(worth(&self.trades)),
            Err(_) => Err(AllocError),
        }
    }

    /// Places an order that trades as a whole, at any price, or not at all. Answers whether it was killed.
    pub fn is_killed(&mut self, side: Side, quantity: u64) -> Result<bool, AllocError> {
        self.trades.clear();
        let order = NewOrder {
            side,
            kind: OrderKind::FillOrKill(OrderKind::Market.limit(side)),
            quantity,
            tag: 0,
        };
        match self.book.place(order, &mut self.trades) {
            Ok(_) => Ok(false),
            Err(PlacingError::WouldNotFill) => Ok(true),
            Err(_) => Err(AllocError),
        }
    }
}

impl Market for Book {
    type Id = OrderId;

    fn empty(alloc: Global) -> Self {
        Book {
            book: OrderBook::new(alloc),
            trades: Vec::new(alloc),
        }
    }

    fn place(&mut self, order: Limit) -> Result<(u64, Option<OrderId>), AllocError> {
        self.trades.clear();
        let order = NewOrder::limit(order.side, order.price, order.quantity);
        match self.book.place(order, &mut self.trades) {
            Ok(id) => Ok((worth(&self.trades), id)),
            Err(_) => Err(AllocError),
        }
    }

    fn cancel(&mut self, id: OrderId) -> u64 {
        match self.book.cancel(id) {
            Some(order) => order.quantity,
            None => 0,
        }
    }

    fn depth(&self, side: Side, levels: usize) -> u64 {
        let mut sum = 0u64;
        for level in self.book.depth(side, levels) {
            sum = sum.wrapping_add(worth_of_level(level));
        }
        sum
    }
}

/// The rank of an order, and its number, which is how many came to rest before.
type Key = (u64, u64);

// The rank of a price: of two orders of a side the one of the lesser rank trades first. The price of a rank is found likewise.
fn ranked(side: Side, price: u64) -> u64 {
    match side {
        Side::Buy => u64::MAX - price,
        Side::Sell => price,
    }
}

/// The orders of one side, each with what is left of it.
#[derive(Drop)]
struct Orders {
    side: Side,
    orders: BTreeMap<Key, u64>,
}

/// A trade with an order of this key, at its price, of so much.
#[derive(Clone, Copy)]
struct Taken {
    key: Key,
    price: u64,
    quantity: u64,
}

impl Orders {
    fn new(side: Side, alloc: Global) -> Self {
        Orders {
            side,
            orders: BTreeMap::new(alloc),
        }
    }

    // Trades with the first order, where its price is the limit or better. An order of which nothing is left leaves.
    fn take_first(&mut self, limit: u64, quantity: u64) -> Option<Taken> {
        let (&key, &offered) = self.orders.first_key_value()?;
        if key.0 > ranked(self.side, limit) {
            return None;
        }
        if offered <= quantity {
            let _ = self.orders.pop_first();
        } else if let Some(left) = self.orders.get_mut(&key) {
            *left = offered - quantity;
        }
        Some(Taken {
            key,
            price: ranked(self.side, key.0),
            quantity: offered.min(quantity),
        })
    }

    // Trades with one order after another, and adds the trades to the list. Answers what is left.
    fn take(
        &mut self,
        limit: u64,
        quantity: u64,
        trades: &mut Vec<Taken>,
    ) -> Result<u64, AllocError> {
        let mut left = quantity;
        for _ in 0..self.orders.len() {
            if left == 0 {
                break;
            }
            let Some(taken) = self.take_first(limit, left) else {
                break;
            };
            trades.push(taken)?;
            left = left.saturating_sub(taken.quantity);
        }
        Ok(left)
    }

    // Puts an order of this number to rest, and answers its key.
    fn put(&mut self, price: u64, number: u64, quantity: u64) -> Result<Key, AllocError> {
        let key = (ranked(self.side, price), number);
        let _ = self.orders.insert(key, quantity)?;
        Ok(key)
    }

    fn cancel(&mut self, key: Key) -> u64 {
        self.orders.remove(&key).unwrap_or(0)
    }

    fn depth(&self, levels: usize) -> u64 {
        let mut sum = 0u64;
        let mut left = levels;
        let mut last = None;
        for (key, quantity) in &self.orders {
            if last != Some(key.0) {
                let Some(fewer) = left.checked_sub(1) else {
                    break;
                };
                left = fewer;
                last = Some(key.0);
            }
            sum = sum.wrapping_add(ranked(self.side, key.0).wrapping_mul(*quantity));
        }
        sum
    }
}

// What trades come to.
fn worth_of_taken(trades: &[Taken]) -> u64 {
    let mut sum = 0u64;
    for trade in trades {
        sum = sum.wrapping_add(trade.price.wrapping_mul(trade.quantity));
    }
    sum
}

/// Two maps, how many orders came to rest so far, and the trades of the last order that came in.
#[derive(Drop)]
pub struct Maps {
    bids: Orders,
    asks: Orders,
    next: u64,
    trades: Vec<Taken>,
}

impl Maps {
    // Trades with the other side. Answers what is left.
    fn trade(&mut self, order: Limit) -> Result<u64, AllocError> {
        self.trades.clear();
        let (price, quantity) = (order.price, order.quantity);
        match order.side {
            Side::Buy => self.asks.take(price, quantity, &mut self.trades),
            Side::Sell => self.bids.take(price, quantity, &mut self.trades),
        }
    }

    // Puts what is left of an order to rest.
    fn rest(&mut self, order: Limit, left: u64) -> Result<Key, AllocError> {
        let number = self.next;
        self.next = number.wrapping_add(1);
        match order.side {
            Side::Buy => self.bids.put(order.price, number, left),
            Side::Sell => self.asks.put(order.price, number, left),
        }
    }
}

impl Market for Maps {
    type Id = (Side, Key);

    fn empty(alloc: Global) -> Self {
        Maps {
            bids: Orders::new(Side::Buy, alloc),
            asks: Orders::new(Side::Sell, alloc),
            next: 0,
            trades: Vec::new(alloc),
        }
    }

    fn place(&mut self, order: Limit) -> Result<(u64, Option<(Side, Key)>), AllocError> {
        let left = self.trade(order)?;
        let worth = worth_of_taken(&self.trades);
        if left == 0 {
            return Ok((worth, None));
        }
        let key = self.rest(order, left)?;
        Ok((worth, Some((order.side, key))))
    }

    fn cancel(&mut self, id: (Side, Key)) -> u64 {
        match id.0 {
            Side::Buy => self.bids.cancel(id.1),
            Side::Sell => self.asks.cancel(id.1),
        }
    }

    fn depth(&self, side: Side, levels: usize) -> u64 {
        match side {
            Side::Buy => self.bids.depth(levels),
            Side::Sell => self.asks.depth(levels),
        }
    }
}
