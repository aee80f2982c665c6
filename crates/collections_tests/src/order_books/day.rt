//! A trading day of thirty orders, worked out by hand.
use order_book::{NewOrder, OrderBook, OrderId, Side, Trade};
use std::alloc::AllocError;

/// A trade: the number of the resting order, the price and the quantity.
type Wanted = (usize, u64, u64);

/// An order's side, price and quantity; its trades; and how much of it comes to rest. Orders are counted from 1.
type Row = (Side, u64, u64, &'static [Wanted], u64);

const DAY: &[Row] = &[
    (Side::Buy, 100, 30, &[], 30),
    (Side::Buy, 101, 10, &[], 10),
    (Side::Buy, 100, 20, &[], 20),
    (Side::Sell, 105, 15, &[], 15),
    (Side::Sell, 104, 25, &[], 25),
    (Side::Sell, 105, 10, &[], 10),
    (Side::Sell, 101, 4, &[(2, 101, 4)], 0),
    (Side::Sell, 101, 6, &[(2, 101, 6)], 0),
    (Side::Sell, 100, 35, &[(1, 100, 30), (3, 100, 5)], 0),
    (Side::Buy, 104, 20, &[(5, 104, 20)], 0),
    (Side::Buy, 105, 5, &[(5, 104, 5)], 0),
    (Side::Buy, 105, 20, &[(4, 105, 15), (6, 105, 5)], 0),
    (Side::Buy, 99, 40, &[], 40),
    (Side::Sell, 103, 12, &[], 12),
    (Side::Sell, 103, 8, &[], 8),
    (Side::Sell, 102, 5, &[], 5),
    (Side::Buy, 103, 10, &[(16, 102, 5), (14, 103, 5)], 0),
    (Side::Buy, 103, 20, &[(14, 103, 7), (15, 103, 8)], 5),
    (
        Side::Sell,
        98,
        100,
        &[(18, 103, 5), (3, 100, 15), (13, 99, 40)],
        40,
    ),
    (Side::Buy, 98, 7, &[(19, 98, 7)], 0),
    (Side::Buy, 98, 90, &[(19, 98, 33)], 57),
    (Side::Sell, 110, 1, &[], 1),
    (Side::Buy, 97, 3, &[], 3),
    (Side::Sell, 96, 9, &[(21, 98, 9)], 0),
    (Side::Sell, 96, 2, &[(21, 98, 2)], 0),
    (Side::Buy, 96, 1, &[], 1),
    (Side::Buy, 120, 8, &[(6, 105, 5), (22, 110, 1)], 2),
    (Side::Sell, 120, 50, &[(27, 120, 2)], 48),
    (Side::Buy, 119, 50, &[], 50),
    (Side::Buy, 125, 60, &[(28, 120, 48)], 12),
];

/// The orders that rest at the end, all of them bids, in the order in which they trade, as trades of an order that takes them all.
const AT_THE_END: [Wanted; 5] = [
    (30, 125, 12),
    (29, 119, 50),
    (21, 98, 46),
    (23, 97, 3),
    (26, 96, 1),
];

/// The names of the orders so far; `None` if nothing of an order came to rest.
type Names = Vec<Option<OrderId>>;

/// Returns the name of the order with this number.
fn name_of(names: &Names, number: usize) -> Option<OrderId> {
    *names.get(number.wrapping_sub(1))?
}

/// Returns whether a trade is this one.
fn is_trade(names: &Names, trade: &Trade, wanted: &Wanted) -> bool {
    let (number, price, quantity) = *wanted;
    if trade.price != price || trade.quantity != quantity {
        return false;
    }
    name_of(names, number) == Some(trade.order)
}

/// Returns whether the trades are these.
fn are_trades(names: &Names, trades: &[Trade], wanted: &[Wanted]) -> bool {
    let mut left = wanted;
    for trade in trades {
        match left.split_first() {
            Some((next, rest)) if is_trade(names, trade, next) => left = rest,
            _ => return false,
        }
    }
    left.is_empty()
}

/// Returns whether this much of an order rests at this price.
fn rests(book: &OrderBook, name: Option<OrderId>, price: u64, rest: u64) -> bool {
    match name {
        Some(id) => match book.get(id) {
            Some(order) => rest > 0 && (order.price, order.quantity) == (price, rest),
            None => false,
        },
        None => rest == 0,
    }
}

/// Places an order. Returns whether it trades and rests as it should.
fn place(
    book: &mut OrderBook,
    names: &mut Names,
    trades: &mut Vec<Trade>,
    row: &Row,
) -> Result<bool, AllocError> {
    let (side, price, quantity, wanted, rest) = *row;
    trades.clear();
    let Ok(name) = book.place(NewOrder::limit(side, price, quantity), trades) else {
        return Ok(false);
    };
    names.push(name)?;
    Ok(are_trades(names, trades, wanted) && rests(book, name, price, rest))
}

/// Returns whether the book has exactly these bids, and no asks.
fn has_bids(book: &OrderBook, names: &Names, bids: &[Wanted]) -> bool {
    for (number, price, quantity) in bids {
        if !rests(book, name_of(names, *number), *price, *quantity) {
            return false;
        }
    }
    book.count(Side::Buy) == bids.len() && book.count(Side::Sell) == 0
}

/// Sells all that is wanted, at any price. Returns whether the trades are these, and nothing rests afterwards.
fn sell_all(
    book: &mut OrderBook,
    names: &Names,
    trades: &mut Vec<Trade>,
    wanted: &[Wanted],
) -> bool {
    trades.clear();
    let Ok(None) = book.place(NewOrder::market(Side::Sell, 112), trades) else {
        return false;
    };
    are_trades(names, trades, wanted) && has_bids(book, names, &[])
}

#[test]
fn a_day_of_orders_trades_as_worked_out_by_hand(rt: HostRuntime) {
    let mut book = OrderBook::new(rt.alloc());
    let (mut names, mut trades) = (Vec::new(rt.alloc()), Vec::new(rt.alloc()));
    for row in DAY {
        assert!(rt; place(&mut book, &mut names, &mut trades, row).expect(&rt, "memory"));
    }
    assert!(rt; has_bids(&book, &names, &AT_THE_END));
    assert!(rt; sell_all(&mut book, &names, &mut trades, &AT_THE_END));
}
