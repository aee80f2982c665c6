//! The orders of a book as two plain lists.
use order_book::{Order, OrderBook, Side};
use std::alloc::Global;

/// The orders of both sides, each in the order in which they trade.
#[derive(Drop)]
pub(super) struct Lists {
    pub(super) bids: Vec<Order>,
    pub(super) asks: Vec<Order>,
}

impl Lists {
    /// Returns lists without orders.
    pub(super) fn new(alloc: Global) -> Lists {
        Lists {
            bids: Vec::new(alloc),
            asks: Vec::new(alloc),
        }
    }

    /// Returns the orders of a side.
    pub(super) fn side(&self, side: Side) -> &Vec<Order> {
        match side {
            Side::Buy => &self.bids,
            Side::Sell => &self.asks,
        }
    }

    pub(super) fn side_mut(&mut self, side: Side) -> &mut Vec<Order> {
        match side {
            Side::Buy => &mut self.bids,
            Side::Sell => &mut self.asks,
        }
    }
}

/// Returns whether an order of a side has this price or a better one.
pub(super) fn is_within(order: &Order, side: Side, price: u64) -> bool {
    match side {
        Side::Buy => order.price >= price,
        Side::Sell => order.price <= price,
    }
}

/// Returns the place in the list of an order at a price that was added later than every other one at that price, and so trades last.
fn end_of(list: &[Order], side: Side, price: u64) -> usize {
    let mut at = 0usize;
    for order in list {
        if is_within(order, side, price) {
            at = at.wrapping_add(1);
        }
    }
    at
}

/// Puts an order into the list. Returns whether there is memory.
pub(super) fn insert(orders: &mut Vec<Order>, side: Side, order: Order) -> bool {
    let at = end_of(orders, side, order.price);
    at <= orders.len() && orders.insert(at, order).is_ok()
}

/// Returns whether the book shows the same orders at a price, and from it on, as the list.
fn is_alike_at(book: &OrderBook, lists: &Lists, side: Side, price: u64) -> bool {
    let (mut quantity, mut count) = (0u128, 0usize);
    let mut from = book.iter_from(side, price);
    for order in lists.side(side) {
        let is_behind = match side {
            Side::Buy => order.price <= price,
            Side::Sell => order.price >= price,
        };
        if is_behind && from.next() != Some(*order) {
            return false;
        }
        if order.price == price {
            quantity = quantity.wrapping_add(u128::from(order.quantity));
            count = count.wrapping_add(1);
        }
    }
    let level = book.level_at(side, price);
    from.next().is_none()
        && book.volume_at(side, price) == quantity
        && level.map_or(0, |level| level.count) == count
        && level.map_or(0, |level| level.quantity) == quantity
}

/// Returns whether the book and the list have the same orders on a side, and the same best level.
fn is_alike_on(book: &OrderBook, lists: &Lists, side: Side) -> bool {
    let mut orders = book.iter(side);
    for order in lists.side(side) {
        if orders.next() != Some(*order) {
            return false;
        }
    }
    let best = lists.side(side).first().map(|order| order.price);
    orders.next().is_none() && book.top(side) == best.and_then(|price| book.level_at(side, price))
}

/// Returns whether a bid of the list is at or above an ask.
pub(super) fn is_crossed(lists: &Lists) -> bool {
    for bid in &lists.bids {
        for ask in &lists.asks {
            if bid.price >= ask.price {
                return true;
            }
        }
    }
    false
}

/// Returns whether the book and the list have the same orders, which are at these prices.
pub(super) fn are_alike(book: &OrderBook, lists: &Lists, prices: &[u64]) -> bool {
    for price in prices {
        if !is_alike_at(book, lists, Side::Buy, *price)
            || !is_alike_at(book, lists, Side::Sell, *price)
        {
            return false;
        }
    }
    is_alike_on(book, lists, Side::Buy)
        && is_alike_on(book, lists, Side::Sell)
        && book.is_crossed() == is_crossed(lists)
}
