//! Every sequence of four reports of a feed, compared with a plain list: additions, executions and mass cancels, each beside a clone.
use super::lists::{self, Lists, insert};
use order_book::{Order, OrderBook, OrderId, Side, Trade};
use std::alloc::Global;

/// The prices at which orders rest.
const PRICES: [u64; 3] = [9, 10, 11];

/// Returns an order of three units at a price, whose tag is the price.
fn order_at(id: OrderId, price: u64) -> Order {
    Order {
        id,
        price,
        quantity: 3,
        tag: price,
    }
}

/// Adds an order to the book and to the list. Returns whether it rests.
fn add(book: &mut OrderBook, lists: &mut Lists, side: Side, price: u64) -> bool {
    let Ok(id) = book.add(side, price, 3, price) else {
        return false;
    };
    insert(lists.side_mut(side), side, order_at(id, price))
        && book.get(id) == Some(order_at(id, price))
}

/// Takes this much off the first order of the list, and returns the trade.
fn take(orders: &mut [Order], quantity: u64) -> Option<Trade> {
    let first = orders.first_mut()?;
    let traded = quantity.min(first.quantity);
    first.quantity = first.quantity.wrapping_sub(traded);
    Some(Trade {
        order: first.id,
        price: first.price,
        quantity: traded,
        left: first.quantity,
        tag: first.tag,
    })
}

/// Removes the first order of the list if nothing of it is left, and returns whether it does.
fn drop_filled(orders: &mut Vec<Order>) -> bool {
    match orders.first() {
        Some(first) if first.quantity == 0 => {}
        _ => return false,
    }
    let _ = orders.remove(0);
    true
}

/// Executes this much of the first order of a side. Returns whether the book says the same of it as the list.
fn execute(book: &mut OrderBook, lists: &mut Lists, side: Side, quantity: u64) -> bool {
    let Some(trade) = take(lists.side_mut(side), quantity) else {
        return true;
    };
    let id = trade.order;
    let is_filled = drop_filled(lists.side_mut(side));
    book.execute(id, quantity) == Some(trade) && book.get(id).is_none() == is_filled
}

/// Executes nothing of the first order of a side, and something of an order that there isn't. Returns whether nothing is traded.
fn execute_nothing(book: &mut OrderBook, lists: &Lists, side: Side) -> bool {
    let unknown = OrderId::from_numbers(side, 1, 1);
    let of_first = match lists.side(side).first() {
        Some(first) => book.execute(first.id, 0),
        None => None,
    };
    of_first.is_none() && book.execute(unknown, 1).is_none()
}

/// Cancels the orders of a side of which less than three units are left. Returns whether as many leave as from the list, and each order
/// was asked about once.
fn cancel_small(book: &mut OrderBook, lists: &mut Lists, side: Side) -> bool {
    let orders = lists.side_mut(side);
    let count = orders.len();
    orders.retain(|order| order.quantity >= 3);
    let left = orders.len();
    let mut calls = 0usize;
    let cancelled = book.cancel_where(side, |order| {
        calls = calls.wrapping_add(1);
        order.quantity < 3
    });
    cancelled == count.wrapping_sub(left) && calls == count
}

/// Returns whether the book and the list have the same orders.
fn are_alike(book: &OrderBook, lists: &Lists) -> bool {
    lists::are_alike(book, lists, &PRICES)
}

/// Does what one digit says. Returns whether the book and the list agree on it.
fn do_one(book: &mut OrderBook, lists: &mut Lists, digit: u32) -> bool {
    match digit {
        0 => add(book, lists, Side::Buy, 9),
        1 => add(book, lists, Side::Buy, 10),
        2 => add(book, lists, Side::Sell, 10),
        3 => add(book, lists, Side::Sell, 11),
        4 => execute(book, lists, Side::Buy, 2),
        5 => execute(book, lists, Side::Sell, 1),
        6 => execute(book, lists, Side::Sell, 4),
        7 => cancel_small(book, lists, Side::Buy),
        8 => cancel_small(book, lists, Side::Sell),
        _ => execute_nothing(book, lists, Side::Sell),
    }
}

/// Does a step on the book, and none on its clone. Returns whether these differ exactly if the step changes the book.
fn do_apart(book: &mut OrderBook, lists: &mut Lists, digit: u32) -> bool {
    let Ok(copy) = book.try_clone() else {
        return false;
    };
    let was = are_alike(&copy, lists);
    let is_done = do_one(book, lists, digit);
    was && is_done && (copy == *book) == are_alike(&copy, lists)
}

/// Does the steps of the sequence with this number, one for each of its four digits. Returns whether the book and the list always agree.
fn is_plain(alloc: Global, number: u32) -> bool {
    let mut book = OrderBook::new(alloc);
    let mut lists = Lists::new(alloc);
    let mut digits = number;
    for _ in 0..4u32 {
        if !do_apart(&mut book, &mut lists, digits % 10) || !are_alike(&book, &lists) {
            return false;
        }
        digits /= 10;
    }
    true
}

#[test]
fn every_sequence_of_four_reports_agrees_with_a_plain_list(rt: HostRuntime) {
    for number in 0..10_000u32 {
        assert!(rt; is_plain(rt.alloc(), number));
    }
}

/// Returns the text of a book with a bid and an ask.
fn text(alloc: Global) -> Option<String> {
    let mut book = OrderBook::new(alloc);
    book.add(Side::Buy, 10, 3, 7).ok()?;
    format!(in alloc; "{book:?}").ok()
}

#[test]
fn a_book_is_printed_as_its_orders(rt: HostRuntime) {
    let wanted =
        "OrderBook { bids: [Order { id: OrderId { side: Buy, pointer: P0[1](2) }, price: 10, quantity: 3, tag: 7 }], asks: [] }";
    match text(rt.alloc()) {
        Some(text) => assert_eq!(rt; text.as_str(), wanted),
        None => assert!(rt; false),
    }
}
