//! The example in the text of `place`.
use order_book::{NewOrder, Order, OrderBook, Side};
use self_trade::{SelfTrade, place};
use std::test::Fail;

#[test]
fn place_beside_own(rt: HostRuntime) -> Result<(), Fail> {
    let mut book = OrderBook::new(rt.alloc());
    let mut trades = Vec::new(rt.alloc());
    let mut cancelled = Vec::new(rt.alloc());
    book.place(
        NewOrder::limit(Side::Sell, 101, 10).with_tag(7),
        &mut trades,
    )?;
    book.place(
        NewOrder::limit(Side::Sell, 102, 10).with_tag(8),
        &mut trades,
    )?;
    let order = NewOrder::limit(Side::Buy, 102, 4).with_tag(7);
    let is_foreign = |resting: Order| resting.tag != 7;
    place(
        &mut book,
        order,
        SelfTrade::CancelResting,
        is_foreign,
        &mut trades,
        &mut cancelled,
    )?;
    assert_eq!(rt; cancelled.len(), 1);
    assert_eq!(rt; trades.len(), 1);
    assert_eq!(rt;
        book.best_ask().map(|ask| (ask.price, ask.quantity)),
        Some((102, 6))
    );
    Ok(())
}
