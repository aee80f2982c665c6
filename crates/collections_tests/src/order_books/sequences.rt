//! Every sequence of four steps, compared with a plain list: orders of each kind, and reductions.
use order_book::{NewOrder, Order, OrderBook, OrderId, OrderKind, PlacingError, Side, Trade};
use std::alloc::Global;

/// Returns the order with this number, of the nine that make up the sequences with a reduction. Its tag is its number.
fn order_of(number: u32) -> NewOrder {
    let (side, kind, quantity) = match number % 10 {
        0 => (Side::Buy, OrderKind::Limit(10), 2),
        1 => (Side::Buy, OrderKind::Limit(11), 3),
        2 => (Side::Buy, OrderKind::Market, 1),
        3 => (Side::Sell, OrderKind::Limit(10), 2),
        4 => (Side::Sell, OrderKind::Limit(11), 4),
        5 => (Side::Sell, OrderKind::Market, 3),
        6 => (Side::Buy, OrderKind::PostOnly(10), 2),
        7 => (Side::Sell, OrderKind::FillOrKill(10), 3),
        _ => (Side::Buy, OrderKind::ImmediateOrCancel(11), 3),
    };
    let tag = u64::from(number % 10);
    NewOrder {
        side,
        kind,
        quantity,
        tag,
    }
}

/// An order in the plain list, which is in the order of age. Filled orders stay with quantity 0.
#[derive(Clone, Copy)]
struct Resting {
    id: OrderId,
    side: Side,
    price: u64,
    quantity: u64,
    tag: u64,
}

/// Returns whether the first price ranks better for orders of this side.
fn is_better(side: Side, price: u64, than: u64) -> bool {
    match side {
        Side::Buy => price > than,
        Side::Sell => price < than,
    }
}

/// Returns whether an order of the list trades with an order of a side at this limit.
fn can_trade(order: &Resting, side: Side, limit: u64) -> bool {
    order.side != side && order.quantity > 0 && !is_better(order.side, limit, order.price)
}

/// Returns the place in the list of the order that trades first with an order of a side: the oldest at the best price.
fn best(list: &[Resting], side: Side, limit: u64) -> Option<usize> {
    let mut found: Option<usize> = None;
    let mut price = limit;
    for (at, order) in list.iter().enumerate() {
        if !can_trade(order, side, limit) {
            continue;
        }
        if found.is_none() || is_better(order.side, order.price, price) {
            found = Some(at);
            price = order.price;
        }
    }
    found
}

/// Returns the order that trades first with an order of a side at any price.
fn first_for(list: &[Resting], side: Side) -> Option<Order> {
    let limit = match side {
        Side::Buy => u64::MAX,
        Side::Sell => 0,
    };
    Some(shown(list.get(best(list, side, limit)?)?))
}

/// Returns how much the list offers an order of a side at this limit.
fn offer(list: &[Resting], side: Side, limit: u64) -> u64 {
    let mut offered = 0u64;
    for order in list {
        if can_trade(order, side, limit) {
            offered = offered.wrapping_add(order.quantity);
        }
    }
    offered
}

/// Trades once with the list; `None` if nothing there trades with this order.
fn trade_once(list: &mut [Resting], side: Side, limit: u64, quantity: u64) -> Option<Trade> {
    let at = best(list, side, limit)?;
    let order = list.get_mut(at)?;
    let quantity = quantity.min(order.quantity);
    order.quantity -= quantity;
    Some(Trade {
        order: order.id,
        price: order.price,
        quantity,
        left: order.quantity,
        tag: order.tag,
    })
}

/// Trades with the list. Returns what is left if the trades are these; `None` if they aren't.
fn trade(list: &mut [Resting], order: NewOrder, trades: &[Trade]) -> Option<u64> {
    let (side, limit) = (order.side, order.kind.limit(order.side));
    let mut left = order.quantity;
    for trade in trades {
        if trade_once(list, side, limit, left) != Some(*trade) {
            return None;
        }
        left = left.wrapping_sub(trade.quantity);
    }
    if left > 0 && best(list, side, limit).is_some() {
        return None;
    }
    Some(left)
}

/// Returns how many orders of a side rest in the list.
fn count(list: &[Resting], side: Side) -> usize {
    let mut count = 0usize;
    for order in list {
        if order.side == side && order.quantity > 0 {
            count = count.wrapping_add(1);
        }
    }
    count
}

/// Returns an order of the list as the book shows it.
fn shown(order: &Resting) -> Order {
    Order {
        id: order.id,
        price: order.price,
        quantity: order.quantity,
        tag: order.tag,
    }
}

/// Returns whether each order of the list rests on the book, and no filled one does.
fn finds_each(book: &OrderBook, list: &[Resting]) -> bool {
    for order in list {
        let found = book.get(order.id);
        if order.quantity == 0 && found.is_some() {
            return false;
        }
        if order.quantity > 0 && found != Some(shown(order)) {
            return false;
        }
    }
    true
}

/// Returns whether the levels of a side sum up its orders, in the order in which they trade.
fn has_levels(book: &OrderBook, side: Side) -> bool {
    let mut orders = book.iter(side);
    for level in book.depth(side, 3) {
        let mut left = level.quantity;
        for _ in 0..level.count {
            match orders.next() {
                Some(order) if order.price == level.price => {
                    left = left.wrapping_sub(u128::from(order.quantity));
                }
                _ => return false,
            }
        }
        if left != 0 {
            return false;
        }
    }
    orders.next().is_none()
}

/// Returns whether the book and the list have the same orders on a side, and the same first one.
fn are_alike_on(book: &OrderBook, list: &[Resting], side: Side, first: Option<Order>) -> bool {
    book.count(side) == count(list, side)
        && book.iter(side).next() == first
        && has_levels(book, side)
}

/// Returns whether the book and the list have the same orders, and the same first ones.
fn are_alike(book: &OrderBook, list: &[Resting]) -> bool {
    let (bid, ask) = (first_for(list, Side::Sell), first_for(list, Side::Buy));
    book.best_bid() == bid
        && book.best_ask() == ask
        && are_alike_on(book, list, Side::Buy, bid)
        && are_alike_on(book, list, Side::Sell, ask)
        && finds_each(book, list)
}

/// Returns whether no bid is at or above an ask.
fn is_uncrossed(book: &OrderBook) -> bool {
    match (book.best_bid(), book.best_ask()) {
        (Some(bid), Some(ask)) => bid.price < ask.price,
        _ => true,
    }
}

/// Puts what is left of an order into the list, if it has a name. Returns whether it has one exactly if something of it rests.
fn rest(list: &mut Vec<Resting>, order: NewOrder, id: Option<OrderId>, left: u64) -> bool {
    let Some(id) = id else {
        return left == 0 || !order.kind.can_rest();
    };
    let resting = Resting {
        id,
        side: order.side,
        price: order.kind.limit(order.side),
        quantity: left,
        tag: order.tag,
    };
    list.push(resting).is_ok() && left > 0 && order.kind.can_rest()
}

/// Returns why the list refuses an order, if it does.
fn refusal(list: &[Resting], order: NewOrder) -> Option<PlacingError> {
    let offered = offer(list, order.side, order.kind.limit(order.side));
    match order.kind {
        OrderKind::PostOnly(_) if offered > 0 => Some(PlacingError::WouldTrade),
        OrderKind::FillOrKill(_) if offered < order.quantity => Some(PlacingError::WouldNotFill),
        _ => None,
    }
}

/// Places an order on the book and in the list. Returns whether they agree, and as much was offered as is traded.
fn place(
    book: &mut OrderBook,
    list: &mut Vec<Resting>,
    trades: &mut Vec<Trade>,
    order: NewOrder,
) -> bool {
    trades.clear();
    let limit = order.kind.limit(order.side);
    let offered = book.offered(order.side, limit, order.quantity);
    let within = book.volume_within(order.side, limit);
    if within != u128::from(offer(list, order.side, limit)) {
        return false;
    }
    match book.place(order, trades) {
        Err(error) => refusal(list, order) == Some(error) && trades.is_empty(),
        Ok(id) => {
            let refused = refusal(list, order);
            let left = trade(list, order, trades);
            refused.is_none()
                && left == Some(order.quantity.wrapping_sub(offered))
                && rest(list, order, id, order.quantity.wrapping_sub(offered))
        }
    }
}

/// Takes one unit off the oldest order of the list. Returns whether the book does the same.
fn reduce(book: &mut OrderBook, list: &mut [Resting]) -> bool {
    let Some(order) = list.first_mut() else {
        return true;
    };
    let left = order.quantity.saturating_sub(1);
    let expected = if order.quantity > 0 { Some(left) } else { None };
    order.quantity = left;
    book.reduce(order.id, 1) == expected
}

/// Does the steps of the sequence with this number, one for each of its four digits: 9 reduces, the others place an order. Returns whether
/// the book and the list always agree.
fn do_all(
    book: &mut OrderBook,
    list: &mut Vec<Resting>,
    trades: &mut Vec<Trade>,
    number: u32,
) -> bool {
    let mut digits = number;
    for _ in 0..4u32 {
        let is_done = match digits % 10 {
            9 => reduce(book, list),
            _ => place(book, list, trades, order_of(digits)),
        };
        if !is_done || !are_alike(book, list) || !is_uncrossed(book) {
            return false;
        }
        digits /= 10;
    }
    true
}

/// Returns whether a new book behaves like a new list.
fn is_plain(alloc: Global, number: u32) -> bool {
    let mut book = OrderBook::new(alloc);
    let (mut list, mut trades) = (Vec::new(alloc), Vec::new(alloc));
    do_all(&mut book, &mut list, &mut trades, number)
}

#[test]
fn every_sequence_of_four_orders_and_reductions_agrees_with_a_plain_list(rt: HostRuntime) {
    for number in 0..10_000u32 {
        assert!(rt; is_plain(rt.alloc(), number));
    }
}
