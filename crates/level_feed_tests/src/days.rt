//! Random days of an order book, whose levels are published: an image that is kept by updates alone is compared with the book after each call.
use level_feed::{LevelUpdate, after_placing, after_replacing, level_update, uncross};
use order_book::{Level, NewOrder, Order, OrderBook, OrderKind, Side, Trade};
use std::alloc::Global;

/// Random numbers, as a linear congruential generator gives them.
#[derive(Drop)]
struct Dice {
    seed: u64,
}

impl Dice {
    /// Returns a number below 64.
    fn roll(&mut self) -> u64 {
        self.seed = self
            .seed
            .wrapping_mul(6_364_136_223_846_793_005)
            .wrapping_add(1_442_695_040_888_963_407);
        self.seed >> 58
    }

    /// Returns a side.
    fn side(&mut self) -> Side {
        if self.roll() % 2 == 0 {
            Side::Buy
        } else {
            Side::Sell
        }
    }

    /// Returns one of eight prices.
    fn price(&mut self) -> u64 {
        (self.roll() % 8).wrapping_add(96)
    }

    /// Returns a quantity from 1 to 12.
    fn quantity(&mut self) -> u64 {
        (self.roll() % 12).wrapping_add(1)
    }
}

/// Places an order of a random kind, and publishes it. Returns whether there is memory.
fn place(
    book: &mut OrderBook,
    dice: &mut Dice,
    trades: &mut Vec<Trade>,
    updates: &mut Vec<LevelUpdate>,
) -> bool {
    let price = dice.price();
    let kind = match dice.roll() % 6 {
        0 => OrderKind::Market,
        1 => OrderKind::ImmediateOrCancel(price),
        2 => OrderKind::FillOrKill(price),
        3 => OrderKind::PostOnly(price),
        _ => OrderKind::Limit(price),
    };
    let order = NewOrder {
        side: dice.side(),
        kind,
        quantity: dice.quantity().wrapping_mul(3),
        tag: 0,
    };
    trades.clear();
    match book.place(order, trades) {
        Ok(id) => after_placing(book, order, id, trades, updates).is_ok(),
        Err(_) => true,
    }
}

/// Adds an order, and publishes it. Returns whether there is memory.
fn add(book: &mut OrderBook, dice: &mut Dice, updates: &mut Vec<LevelUpdate>) -> bool {
    let (side, price, quantity) = (dice.side(), dice.price(), dice.quantity());
    match book.add(side, price, quantity, 0) {
        Ok(_) => updates.push(level_update(book, side, price)).is_ok(),
        Err(_) => false,
    }
}

/// Returns the order at this place of a side.
fn pick(book: &OrderBook, side: Side, at: u64) -> Option<Order> {
    let mut left = at;
    for order in book.iter(side) {
        if left == 0 {
            return Some(order);
        }
        left = left.wrapping_sub(1);
    }
    None
}

/// Replaces an order by one of more units, so that its level changes also at the same price, and publishes it. Returns whether there is memory.
fn replace(
    book: &mut OrderBook,
    old: Order,
    dice: &mut Dice,
    trades: &mut Vec<Trade>,
    updates: &mut Vec<LevelUpdate>,
) -> bool {
    let kind = OrderKind::Limit(dice.price());
    let quantity = old.quantity.wrapping_add(dice.quantity());
    trades.clear();
    match book.replace(old.id, kind, quantity, trades) {
        Ok(id) => after_replacing(book, old, kind, id, trades, updates).is_ok(),
        Err(_) => false,
    }
}

/// Cancels, reduces or executes an order, and publishes its level. Returns whether there is memory.
fn take(book: &mut OrderBook, old: Order, dice: &mut Dice, updates: &mut Vec<LevelUpdate>) -> bool {
    let quantity = dice.quantity();
    let is_there = match dice.roll() % 3 {
        0 => book.cancel(old.id).is_some(),
        1 => book.reduce(old.id, quantity).is_some(),
        _ => book.execute(old.id, quantity).is_some(),
    };
    let update = level_update(book, old.id.side(), old.price);
    is_there && updates.push(update).is_ok()
}

/// Holds an auction, and publishes it. Returns whether it is as announced.
fn open(book: &mut OrderBook, trades: &mut Vec<Trade>, updates: &mut Vec<LevelUpdate>) -> bool {
    trades.clear();
    let announced = book.auction();
    match uncross(book, trades, updates) {
        Ok(auction) => auction == announced && !book.is_crossed(),
        Err(_) => false,
    }
}

/// Does something at random, and publishes it. Returns whether there is memory.
fn step(
    book: &mut OrderBook,
    dice: &mut Dice,
    trades: &mut Vec<Trade>,
    updates: &mut Vec<LevelUpdate>,
) -> bool {
    let what = dice.roll() % 10;
    if what < 3 {
        return place(book, dice, trades, updates);
    }
    if what < 6 {
        return add(book, dice, updates);
    }
    if what == 6 {
        return open(book, trades, updates);
    }
    let (side, at) = (dice.side(), dice.roll() % 8);
    match pick(book, side, at) {
        Some(old) if what == 7 => replace(book, old, dice, trades, updates),
        Some(old) => take(book, old, dice, updates),
        None => true,
    }
}

/// Returns how many of the levels of a side are better than a price.
fn better(levels: &[Level], side: Side, price: u64) -> usize {
    let mut count = 0usize;
    for level in levels {
        let is_better = match side {
            Side::Buy => level.price > price,
            Side::Sell => level.price < price,
        };
        if is_better {
            count = count.wrapping_add(1);
        }
    }
    count
}

/// Applies an update to the levels of its side. Returns whether they change, and there is memory.
fn apply(levels: &mut Vec<Level>, update: &LevelUpdate) -> bool {
    let at = better(levels, update.side, update.price);
    let was = levels.get(at).copied();
    let is_there = was.map_or(false, |level| level.price == update.price);
    if is_there && at < levels.len() {
        let _ = levels.remove(at);
    }
    if update.count == 0 {
        return is_there && update.quantity == 0;
    }
    let level = Level {
        price: update.price,
        quantity: update.quantity,
        count: update.count,
    };
    was != Some(level) && at <= levels.len() && levels.insert(at, level).is_ok()
}

/// Returns whether these are the levels of a side.
fn are_levels(book: &OrderBook, levels: &[Level], side: Side) -> bool {
    let mut depth = book.depth(side, usize::MAX);
    for level in levels {
        if depth.next() != Some(*level) {
            return false;
        }
    }
    depth.next().is_none() && book.top(side) == levels.first().copied()
}

/// Returns whether no two of the updates are of the same price of the same side.
fn are_distinct(updates: &[LevelUpdate]) -> bool {
    for (at, update) in updates.iter().enumerate() {
        for other in updates.iter().skip(at).skip(1) {
            if other.side == update.side && other.price == update.price {
                return false;
            }
        }
    }
    true
}

/// Applies what was published to the levels of both sides. Returns whether they are then those of the book.
fn follow(
    book: &OrderBook,
    bids: &mut Vec<Level>,
    asks: &mut Vec<Level>,
    updates: &[LevelUpdate],
) -> bool {
    for update in updates {
        let is_applied = match update.side {
            Side::Buy => apply(bids, update),
            Side::Sell => apply(asks, update),
        };
        if !is_applied {
            return false;
        }
    }
    are_distinct(updates) && are_levels(book, bids, Side::Buy) && are_levels(book, asks, Side::Sell)
}

/// Trades for so many steps. Returns whether the levels that were kept by updates were always those of the book.
fn is_followed(alloc: Global, seed: u64, steps: u32) -> bool {
    let mut book = OrderBook::new(alloc);
    let mut dice = Dice { seed };
    let (mut bids, mut asks) = (Vec::new(alloc), Vec::new(alloc));
    let (mut trades, mut updates) = (Vec::new(alloc), Vec::new(alloc));
    for _ in 0..steps {
        updates.clear();
        if !step(&mut book, &mut dice, &mut trades, &mut updates)
            || !follow(&book, &mut bids, &mut asks, &updates)
        {
            return false;
        }
    }
    true
}

#[test]
fn levels_kept_by_updates_are_those_of_the_book(rt: HostRuntime) {
    for seed in 0..40u64 {
        assert!(rt; is_followed(rt.alloc(), seed, 200));
    }
}
