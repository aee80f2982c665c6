//! The examples of the docs.
use level_feed::{after_placing, after_replacing, level_update, uncross};
use order_book::{NewOrder, OrderBook, OrderKind, Side};
use std::test::Fail;

#[test]
fn one_level(rt: HostRuntime) -> Result<(), Fail> {
    let mut book = OrderBook::new(rt.alloc());
    let ask = book.add(Side::Sell, 101, 10, 7)?;
    book.add(Side::Sell, 101, 4, 8)?;
    book.execute(ask, 3);
    let update = level_update(&book, Side::Sell, 101);
    assert_eq!(rt; (update.quantity, update.count), (11, 2));
    assert_eq!(rt; level_update(&book, Side::Sell, 102).count, 0);
    Ok(())
}

#[test]
fn an_order_that_comes_in(rt: HostRuntime) -> Result<(), Fail> {
    let mut book = OrderBook::new(rt.alloc());
    let (mut trades, mut updates) = (Vec::new(rt.alloc()), Vec::new(rt.alloc()));
    book.add(Side::Sell, 101, 10, 7)?;
    let order = NewOrder::limit(Side::Buy, 102, 12);
    let id = book.place(order, &mut trades)?;
    after_placing(&book, order, id, &trades, &mut updates)?;
    assert_eq!(rt; updates.len(), 2);
    assert_eq!(rt;
        (updates[0].side, updates[0].price, updates[0].quantity),
        (Side::Sell, 101, 0)
    );
    assert_eq!(rt;
        (updates[1].side, updates[1].price, updates[1].quantity),
        (Side::Buy, 102, 2)
    );
    Ok(())
}

#[test]
fn an_order_that_is_replaced(rt: HostRuntime) -> Result<(), Fail> {
    let mut book = OrderBook::new(rt.alloc());
    let (mut trades, mut updates) = (Vec::new(rt.alloc()), Vec::new(rt.alloc()));
    let ask = book.add(Side::Sell, 101, 10, 7)?;
    if let Some(old) = book.get(ask) {
        let kind = OrderKind::Limit(103);
        let id = book.replace(ask, kind, 5, &mut trades)?;
        after_replacing(&book, old, kind, id, &trades, &mut updates)?;
    }
    assert_eq!(rt; updates.len(), 2);
    assert_eq!(rt; (updates[0].price, updates[0].quantity), (101, 0));
    assert_eq!(rt; (updates[1].price, updates[1].quantity), (103, 5));
    Ok(())
}

#[test]
fn an_auction(rt: HostRuntime) -> Result<(), Fail> {
    let mut book = OrderBook::new(rt.alloc());
    let (mut trades, mut updates) = (Vec::new(rt.alloc()), Vec::new(rt.alloc()));
    book.add(Side::Buy, 102, 10, 7)?;
    book.add(Side::Sell, 101, 4, 8)?;
    let auction = uncross(&mut book, &mut trades, &mut updates)?;
    assert_eq!(rt;
        auction.map(|auction| (auction.price, auction.quantity)),
        Some((101, 4))
    );
    assert_eq!(rt; updates.len(), 2);
    assert_eq!(rt;
        (updates[0].side, updates[0].price, updates[0].quantity),
        (Side::Buy, 102, 6)
    );
    assert_eq!(rt;
        (updates[1].side, updates[1].price, updates[1].count),
        (Side::Sell, 101, 0)
    );
    Ok(())
}
