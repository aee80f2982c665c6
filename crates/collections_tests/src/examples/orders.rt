//! The examples in the text of `OrderBook`'s calls.

use order_book::{NewOrder, OrderBook, OrderKind, Side, price_from_signed, price_to_signed};
use std::process::Abort;
use std::test::Fail;

#[test]
fn place(rt: HostRuntime) -> Result<(), Fail> {
    place_in(&rt, &mut OrderBook::new(rt.alloc()))
}

fn place_in(rt: &(impl Abort + AllocGlobal), book: &mut OrderBook) -> Result<(), Fail> {
    let mut trades = Vec::new(rt.alloc());
    book.place(NewOrder::limit(Side::Sell, 101, 10), &mut trades)?;
    let rest = book.place(NewOrder::limit(Side::Buy, 102, 4), &mut trades)?;
    assert_eq!(rt; rest, None);
    assert_eq!(rt; trades.len(), 1);
    assert_eq!(rt; book.best_ask().map(|ask| ask.quantity), Some(6));
    Ok(())
}

#[test]
fn replace(rt: HostRuntime) -> Result<(), Fail> {
    replace_in(&rt, &mut OrderBook::new(rt.alloc()))
}

fn replace_in(rt: &(impl Abort + AllocGlobal), book: &mut OrderBook) -> Result<(), Fail> {
    let mut trades = Vec::new(rt.alloc());
    let ask = book.place(NewOrder::limit(Side::Sell, 101, 10), &mut trades)?;
    if let Some(ask) = ask {
        book.replace(ask, OrderKind::Limit(103), 5, &mut trades)?;
    }
    assert_eq!(rt;
        book.best_ask().map(|ask| (ask.price, ask.quantity)),
        Some((103, 5))
    );
    Ok(())
}

#[test]
fn cancel(rt: HostRuntime) -> Result<(), Fail> {
    cancel_in(&rt, &mut OrderBook::new(rt.alloc()))
}

fn cancel_in(rt: &(impl Abort + AllocGlobal), book: &mut OrderBook) -> Result<(), Fail> {
    let mut trades = Vec::new(rt.alloc());
    let ask = book.place(NewOrder::limit(Side::Sell, 101, 10), &mut trades)?;
    let cancelled = ask.and_then(|ask| book.cancel(ask));
    assert_eq!(rt; cancelled.map(|order| order.quantity), Some(10));
    assert_eq!(rt; book.best_ask(), None);
    Ok(())
}

#[test]
fn reduce(rt: HostRuntime) -> Result<(), Fail> {
    reduce_in(&rt, &mut OrderBook::new(rt.alloc()))
}

fn reduce_in(rt: &(impl Abort + AllocGlobal), book: &mut OrderBook) -> Result<(), Fail> {
    let mut trades = Vec::new(rt.alloc());
    let ask = book.place(NewOrder::limit(Side::Sell, 101, 10), &mut trades)?;
    if let Some(ask) = ask {
        assert_eq!(rt; book.reduce(ask, 3), Some(7));
        assert_eq!(rt; book.get(ask).map(|order| order.quantity), Some(7));
    }
    Ok(())
}

#[test]
fn best_ask(rt: HostRuntime) -> Result<(), Fail> {
    best_ask_in(&rt, &mut OrderBook::new(rt.alloc()))
}

fn best_ask_in(rt: &(impl Abort + AllocGlobal), book: &mut OrderBook) -> Result<(), Fail> {
    let mut trades = Vec::new(rt.alloc());
    book.place(NewOrder::limit(Side::Sell, 103, 20), &mut trades)?;
    book.place(NewOrder::limit(Side::Sell, 101, 10), &mut trades)?;
    assert_eq!(rt; book.best_ask().map(|ask| ask.price), Some(101));
    Ok(())
}

#[test]
fn offered(rt: HostRuntime) -> Result<(), Fail> {
    offered_in(&rt, &mut OrderBook::new(rt.alloc()))
}

fn offered_in(rt: &(impl Abort + AllocGlobal), book: &mut OrderBook) -> Result<(), Fail> {
    let mut trades = Vec::new(rt.alloc());
    book.place(NewOrder::limit(Side::Sell, 101, 10), &mut trades)?;
    book.place(NewOrder::limit(Side::Sell, 103, 20), &mut trades)?;
    assert_eq!(rt; book.offered(Side::Buy, 102, 15), 10);
    assert_eq!(rt; book.offered(Side::Buy, 103, 15), 15);
    Ok(())
}

#[test]
fn volume_within(rt: HostRuntime) -> Result<(), Fail> {
    volume_within_in(&rt, &mut OrderBook::new(rt.alloc()))
}

fn volume_within_in(rt: &(impl Abort + AllocGlobal), book: &mut OrderBook) -> Result<(), Fail> {
    let mut trades = Vec::new(rt.alloc());
    book.place(NewOrder::limit(Side::Sell, 101, 10), &mut trades)?;
    book.place(NewOrder::limit(Side::Sell, 103, 20), &mut trades)?;
    assert_eq!(rt; book.volume_within(Side::Buy, 102), 10);
    assert_eq!(rt; book.volume_within(Side::Buy, 103), 30);
    Ok(())
}

#[test]
fn depth(rt: HostRuntime) -> Result<(), Fail> {
    depth_in(&rt, &mut OrderBook::new(rt.alloc()))
}

fn depth_in(rt: &(impl Abort + AllocGlobal), book: &mut OrderBook) -> Result<(), Fail> {
    let mut trades = Vec::new(rt.alloc());
    book.place(NewOrder::limit(Side::Sell, 101, 10), &mut trades)?;
    book.place(NewOrder::limit(Side::Sell, 101, 5), &mut trades)?;
    let level = book.depth(Side::Sell, 5).next();
    assert_eq!(rt;
        level.map(|level| (level.price, level.quantity, level.count)),
        Some((101, 15, 2))
    );
    Ok(())
}

#[test]
fn iter(rt: HostRuntime) -> Result<(), Fail> {
    iter_in(&rt, &mut OrderBook::new(rt.alloc()))
}

fn iter_in(rt: &(impl Abort + AllocGlobal), book: &mut OrderBook) -> Result<(), Fail> {
    let mut trades = Vec::new(rt.alloc());
    book.place(NewOrder::limit(Side::Sell, 101, 10), &mut trades)?;
    book.place(NewOrder::limit(Side::Sell, 103, 20), &mut trades)?;
    let mut prices = Vec::new(rt.alloc());
    for order in book.iter(Side::Sell) {
        prices.push(order.price)?;
    }
    assert_eq!(rt; prices.as_slice(), [101, 103].as_slice());
    Ok(())
}

#[test]
fn reserve(rt: HostRuntime) -> Result<(), Fail> {
    reserve_in(&rt, &mut OrderBook::new(rt.alloc()))
}

fn reserve_in(rt: &(impl Abort + AllocGlobal), book: &mut OrderBook) -> Result<(), Fail> {
    let mut trades = Vec::new(rt.alloc());
    book.reserve(Side::Sell, 1)?;
    let room = book.capacity(Side::Sell);
    book.place(NewOrder::limit(Side::Sell, 101, 10), &mut trades)?;
    assert_eq!(rt; book.capacity(Side::Sell), room);
    Ok(())
}

#[test]
fn execute(rt: HostRuntime) -> Result<(), Fail> {
    execute_in(&rt, &mut OrderBook::new(rt.alloc()))
}

fn execute_in(rt: &impl Abort, book: &mut OrderBook) -> Result<(), Fail> {
    let ask = book.add(Side::Sell, 101, 10, 7)?;
    let trade = book.execute(ask, 4);
    assert_eq!(rt;
        trade.map(|trade| (trade.price, trade.quantity)),
        Some((101, 4))
    );
    assert_eq!(rt; book.get(ask).map(|order| order.quantity), Some(6));
    Ok(())
}

#[test]
fn add(rt: HostRuntime) -> Result<(), Fail> {
    add_in(&rt, &mut OrderBook::new(rt.alloc()))
}

fn add_in(rt: &impl Abort, book: &mut OrderBook) -> Result<(), Fail> {
    let bid = book.add(Side::Buy, 102, 10, 7)?;
    book.add(Side::Sell, 101, 4, 8)?;
    assert!(rt; book.is_crossed());
    assert_eq!(rt;
        book.get(bid).map(|order| (order.price, order.quantity)),
        Some((102, 10))
    );
    Ok(())
}

#[test]
fn auction(rt: HostRuntime) -> Result<(), Fail> {
    auction_in(&rt, &mut OrderBook::new(rt.alloc()))
}

fn auction_in(rt: &impl Abort, book: &mut OrderBook) -> Result<(), Fail> {
    book.add(Side::Buy, 102, 10, 7)?;
    book.add(Side::Sell, 101, 4, 8)?;
    let auction = book.auction();
    assert_eq!(rt;
        auction.map(|auction| (auction.price, auction.quantity, auction.surplus)),
        Some((101, 4, 6))
    );
    Ok(())
}

#[test]
fn uncross(rt: HostRuntime) -> Result<(), Fail> {
    uncross_in(&rt, &mut OrderBook::new(rt.alloc()))
}

fn uncross_in(rt: &(impl Abort + AllocGlobal), book: &mut OrderBook) -> Result<(), Fail> {
    let mut trades = Vec::new(rt.alloc());
    book.add(Side::Buy, 102, 10, 7)?;
    book.add(Side::Sell, 101, 4, 8)?;
    let auction = book.uncross(&mut trades)?;
    assert_eq!(rt;
        auction.map(|auction| (auction.price, auction.quantity)),
        Some((101, 4))
    );
    assert_eq!(rt; trades.len(), 2);
    assert_eq!(rt; book.best_bid().map(|bid| bid.quantity), Some(6));
    Ok(())
}

#[test]
fn snapshot(rt: HostRuntime) -> Result<(), Fail> {
    snapshot_in(&rt, &mut OrderBook::new(rt.alloc()))
}

fn snapshot_in(rt: &(impl Abort + AllocGlobal), book: &mut OrderBook) -> Result<(), Fail> {
    book.add(Side::Buy, 99, 10, 7)?;
    book.add(Side::Sell, 101, 4, 8)?;
    let mut orders = Vec::new(rt.alloc());
    book.snapshot(&mut orders)?;
    let restored = OrderBook::restored(&orders, rt.alloc())?;
    assert_eq!(rt;
        restored
            .best_ask()
            .map(|ask| (ask.price, ask.quantity, ask.tag)),
        Some((101, 4, 8))
    );
    Ok(())
}

#[test]
fn try_clone(rt: HostRuntime) -> Result<(), Fail> {
    try_clone_in(&rt, &mut OrderBook::new(rt.alloc()))
}

fn try_clone_in(rt: &impl Abort, book: &mut OrderBook) -> Result<(), Fail> {
    let ask = book.add(Side::Sell, 101, 10, 7)?;
    let copy = book.try_clone()?;
    assert!(rt; copy == *book);
    book.execute(ask, 10);
    assert_eq!(rt; copy.get(ask).map(|order| order.quantity), Some(10));
    assert!(rt; copy != *book);
    Ok(())
}

#[test]
fn top(rt: HostRuntime) -> Result<(), Fail> {
    top_in(&rt, &mut OrderBook::new(rt.alloc()))
}

fn top_in(rt: &(impl Abort + AllocGlobal), book: &mut OrderBook) -> Result<(), Fail> {
    let mut trades = Vec::new(rt.alloc());
    book.place(NewOrder::limit(Side::Sell, 101, 10), &mut trades)?;
    book.place(NewOrder::limit(Side::Sell, 101, 5), &mut trades)?;
    book.place(NewOrder::limit(Side::Sell, 103, 20), &mut trades)?;
    let top = book.top(Side::Sell);
    assert_eq!(rt;
        top.map(|top| (top.price, top.quantity, top.count)),
        Some((101, 15, 2))
    );
    Ok(())
}

#[test]
fn level_at(rt: HostRuntime) -> Result<(), Fail> {
    level_at_in(&rt, &mut OrderBook::new(rt.alloc()))
}

fn level_at_in(rt: &(impl Abort + AllocGlobal), book: &mut OrderBook) -> Result<(), Fail> {
    let mut trades = Vec::new(rt.alloc());
    book.place(NewOrder::limit(Side::Sell, 103, 20), &mut trades)?;
    book.place(NewOrder::limit(Side::Sell, 103, 5), &mut trades)?;
    let level = book.level_at(Side::Sell, 103);
    assert_eq!(rt;
        level.map(|level| (level.quantity, level.count)),
        Some((25, 2))
    );
    assert_eq!(rt; book.level_at(Side::Sell, 102), None);
    Ok(())
}

#[test]
fn volume_at(rt: HostRuntime) -> Result<(), Fail> {
    volume_at_in(&rt, &mut OrderBook::new(rt.alloc()))
}

fn volume_at_in(rt: &(impl Abort + AllocGlobal), book: &mut OrderBook) -> Result<(), Fail> {
    let mut trades = Vec::new(rt.alloc());
    book.place(NewOrder::limit(Side::Sell, 103, 20), &mut trades)?;
    book.place(NewOrder::limit(Side::Sell, 103, 5), &mut trades)?;
    assert_eq!(rt; book.volume_at(Side::Sell, 103), 25);
    assert_eq!(rt; book.volume_at(Side::Buy, 103), 0);
    Ok(())
}

#[test]
fn iter_from(rt: HostRuntime) -> Result<(), Fail> {
    iter_from_in(&rt, &mut OrderBook::new(rt.alloc()))
}

fn iter_from_in(rt: &(impl Abort + AllocGlobal), book: &mut OrderBook) -> Result<(), Fail> {
    let mut trades = Vec::new(rt.alloc());
    book.place(NewOrder::limit(Side::Sell, 101, 10), &mut trades)?;
    book.place(NewOrder::limit(Side::Sell, 103, 20), &mut trades)?;
    let ask = book.iter_from(Side::Sell, 102).next();
    assert_eq!(rt; ask.map(|ask| ask.price), Some(103));
    assert!(rt; book.iter_from(Side::Buy, 102).next().is_none());
    Ok(())
}

#[test]
fn cancel_where(rt: HostRuntime) -> Result<(), Fail> {
    cancel_where_in(&rt, &mut OrderBook::new(rt.alloc()))
}

fn cancel_where_in(rt: &(impl Abort + AllocGlobal), book: &mut OrderBook) -> Result<(), Fail> {
    let mut trades = Vec::new(rt.alloc());
    book.place(NewOrder::limit(Side::Sell, 101, 10), &mut trades)?;
    book.place(NewOrder::limit(Side::Sell, 103, 20), &mut trades)?;
    assert_eq!(rt; book.cancel_where(Side::Sell, |order| order.price < 102), 1);
    assert_eq!(rt; book.best_ask().map(|ask| ask.price), Some(103));
    Ok(())
}

#[test]
fn with_tag(rt: HostRuntime) -> Result<(), Fail> {
    with_tag_in(&rt, &mut OrderBook::new(rt.alloc()))
}

fn with_tag_in(rt: &(impl Abort + AllocGlobal), book: &mut OrderBook) -> Result<(), Fail> {
    let mut trades = Vec::new(rt.alloc());
    book.place(
        NewOrder::limit(Side::Sell, 101, 10).with_tag(7),
        &mut trades,
    )?;
    book.place(NewOrder::limit(Side::Buy, 101, 4).with_tag(8), &mut trades)?;
    assert_eq!(rt;
        trades.last().map(|trade| (trade.quantity, trade.tag)),
        Some((4, 7))
    );
    Ok(())
}

#[test]
fn price_from_signed_stands(rt: HostRuntime) -> Result<(), Fail> {
    price_from_signed_in(&rt, &mut OrderBook::new(rt.alloc()))
}

fn price_from_signed_in(rt: &impl Abort, book: &mut OrderBook) -> Result<(), Fail> {
    book.add(Side::Buy, price_from_signed(-3), 10, 7)?;
    book.add(Side::Sell, price_from_signed(2), 10, 8)?;
    assert_eq!(rt;
        book.best_bid().map(|bid| price_to_signed(bid.price)),
        Some(-3)
    );
    assert!(rt; !book.is_crossed());
    Ok(())
}
