//! Books whose orders carry more than a number.
use order_book::{NewOrder, Order, OrderBook, OrderId, OrderKind, Side, Trade};
use std::alloc::Global;

/// Whose an order is: an account of a firm, and whether it is the firm's own money.
#[derive(Clone, Copy, PartialEq, Eq, Debug)]
struct Owner {
    account: (u32, u64),
    is_own: bool,
}

const ANN: Owner = Owner {
    account: (1, 100),
    is_own: true,
};

const BEN: Owner = Owner {
    account: (2, 100),
    is_own: false,
};

/// A book of owned orders: 10 of Ann and 5 of Ben at 101, then 7 of Ann at 103.
fn book_of_asks(alloc: Global, trades: &mut Vec<Trade<Owner>>) -> Option<OrderBook<Owner>> {
    let mut book = OrderBook::new(alloc);
    for (owner, price, quantity) in [(ANN, 101, 10), (BEN, 101, 5), (ANN, 103, 7)] {
        let order = NewOrder::limit(Side::Sell, price, quantity).with_tag(owner);
        book.place(order, trades).ok()?;
    }
    Some(book)
}

/// Returns the owner, the quantity and what is left of each trade of a bid of 12 at 102.
fn traded(alloc: Global) -> Option<([(Owner, u64, u64); 2], Owner)> {
    let mut trades = Vec::new(alloc);
    let mut book = book_of_asks(alloc, &mut trades)?;
    let bid = NewOrder::limit(Side::Buy, 102, 12).with_tag(BEN);
    book.place(bid, &mut trades).ok()?;
    let of = |trade: &Trade<Owner>| (trade.tag, trade.quantity, trade.left);
    let both = [of(trades.first()?), of(trades.get(1)?)];
    Some((both, book.best_ask()?.tag))
}

#[test]
fn a_trade_shows_the_owner_of_the_resting_order_and_what_is_left_of_it(rt: HostRuntime) {
    let wanted = ([(ANN, 10, 0), (BEN, 2, 3)], BEN);
    assert!(rt; traded(rt.alloc()) == Some(wanted));
}

/// Returns the owners of the asks, after those of Ben went, and one of Ann was replaced.
fn owners_left(alloc: Global) -> Option<(usize, Owner, Owner)> {
    let mut trades = Vec::new(alloc);
    let mut book = book_of_asks(alloc, &mut trades)?;
    let cancelled = book.cancel_where(Side::Sell, |order: Order<Owner>| !order.tag.is_own);
    let first: OrderId = book.best_ask()?.id;
    book.replace(first, OrderKind::Limit(110), 1, &mut trades)
        .ok()?;
    let mut asks = book.iter(Side::Sell);
    Some((cancelled, asks.next()?.tag, asks.next()?.tag))
}

#[test]
fn orders_are_cancelled_by_their_owner_and_keep_it_when_they_are_replaced(rt: HostRuntime) {
    assert!(rt; owners_left(rt.alloc()) == Some((1, ANN, ANN)));
}

/// Compares a book with one in which an order has another owner, and with its own copy. Returns both answers.
fn tells_owners(alloc: Global) -> Option<(bool, bool)> {
    let mut trades = Vec::new(alloc);
    let book = book_of_asks(alloc, &mut trades)?;
    let mut other = OrderBook::new(alloc);
    for (price, quantity) in [(101, 10), (101, 5), (103, 7)] {
        let order = NewOrder::limit(Side::Sell, price, quantity).with_tag(ANN);
        other.place(order, &mut trades).ok()?;
    }
    Some((book == other, book == book.try_clone().ok()?))
}

#[test]
fn books_are_compared_with_the_owners_of_their_orders(rt: HostRuntime) {
    assert!(rt; tells_owners(rt.alloc()) == Some((false, true)));
}
