//! Lists without memory: a refused call leaves its list as it was and can be made again, and an auction that can't be published is not held.
use level_feed::{LevelUpdate, after_placing, after_replacing, uncross};
use linked_list_allocator::LocalHeap;
use order_book::{NewOrder, OrderBook, OrderId, OrderKind, Side, Trade};
use std::alloc::{AllocError, Global};

/// Takes all memory that a heap has left.
fn rest_of(alloc: Global, heap: &LocalHeap) -> Result<Vec<Vec<u8, &LocalHeap>>, AllocError> {
    let mut blocks = Vec::new(alloc);
    for size in (1..2048usize).rev() {
        if let Ok(block) = Vec::with_capacity(heap, size) {
            blocks.push(block)?;
        }
    }
    Ok(blocks)
}

/// Adds an order of ten units.
fn add(book: &mut OrderBook, side: Side, price: u64) -> Option<OrderId> {
    book.add(side, price, 10, 0).ok()
}

/// Places a bid that takes two of three asks, and rests. Returns whether its updates are refused while there is no memory, though there is room
/// for two of them, and then are all there.
fn is_placed(alloc: Global) -> Option<bool> {
    let mut book = OrderBook::new(alloc);
    for price in 101..104u64 {
        add(&mut book, Side::Sell, price)?;
    }
    let mut trades = Vec::new(alloc);
    let order = NewOrder::limit(Side::Buy, 102, 25);
    let id = book.place(order, &mut trades).ok()?;
    let heap = LocalHeap::new(alloc, 1 << 12).ok()?;
    let mut updates = Vec::with_capacity(&heap, 2).ok()?;
    let taken = rest_of(alloc, &heap).ok()?;
    let is_refused = after_placing(&book, order, id, &trades, &mut updates).is_err();
    let is_kept = updates.is_empty();
    drop(taken);
    let is_done = after_placing(&book, order, id, &trades, &mut updates).is_ok();
    Some(is_refused && is_kept && is_done && updates.len() == 3)
}

/// Replaces a bid by one that takes an ask, and rests elsewhere. Returns the same.
fn is_replaced(alloc: Global) -> Option<bool> {
    let mut book = OrderBook::new(alloc);
    let bid = add(&mut book, Side::Buy, 99)?;
    add(&mut book, Side::Sell, 101)?;
    let mut trades = Vec::new(alloc);
    let (old, kind) = (book.get(bid)?, OrderKind::Limit(101));
    let id = book.replace(bid, kind, 25, &mut trades).ok()?;
    let heap = LocalHeap::new(alloc, 1 << 12).ok()?;
    let mut updates = Vec::with_capacity(&heap, 2).ok()?;
    let taken = rest_of(alloc, &heap).ok()?;
    let is_refused = after_replacing(&book, old, kind, id, &trades, &mut updates).is_err();
    let is_kept = updates.is_empty();
    drop(taken);
    let is_done = after_replacing(&book, old, kind, id, &trades, &mut updates).is_ok();
    Some(is_refused && is_kept && is_done && updates.len() == 3)
}

/// Returns a crossed book: two bids against two asks.
fn crossed(alloc: Global) -> Option<OrderBook> {
    let mut book = OrderBook::new(alloc);
    for price in 103..105u64 {
        add(&mut book, Side::Buy, price)?;
    }
    for price in 100..102u64 {
        add(&mut book, Side::Sell, price)?;
    }
    Some(book)
}

/// Holds an auction without memory for its updates, of which there are four, and then with memory. Returns whether the first one changes nothing.
fn is_published(alloc: Global) -> Option<bool> {
    let mut book = crossed(alloc)?;
    let heap = LocalHeap::new(alloc, 1 << 12).ok()?;
    let mut trades = Vec::new(alloc);
    let mut updates = Vec::with_capacity(&heap, 3).ok()?;
    let taken = rest_of(alloc, &heap).ok()?;
    let is_refused = uncross(&mut book, &mut trades, &mut updates).is_err();
    let is_kept = trades.is_empty() && updates.is_empty() && book.is_crossed();
    drop(taken);
    let auction = uncross(&mut book, &mut trades, &mut updates).ok()?;
    let is_done = auction.map(|auction| auction.quantity) == Some(20) && updates.len() == 4;
    Some(is_refused && is_kept && is_done && !book.is_crossed())
}

/// Holds an auction without memory for its trades. Returns whether nothing changes.
fn is_traded(alloc: Global) -> Option<bool> {
    let mut book = crossed(alloc)?;
    let heap = LocalHeap::new(alloc, 1 << 12).ok()?;
    let _taken = rest_of(alloc, &heap).ok()?;
    let mut trades: Vec<Trade, &LocalHeap> = Vec::new(&heap);
    let mut updates: Vec<LevelUpdate> = Vec::new(alloc);
    let is_refused = uncross(&mut book, &mut trades, &mut updates).is_err();
    Some(is_refused && trades.is_empty() && updates.is_empty() && book.is_crossed())
}

#[test]
fn refused_updates_of_an_order_are_appended_later(rt: HostRuntime) {
    assert_eq!(rt; is_placed(rt.alloc()), Some(true));
    assert_eq!(rt; is_replaced(rt.alloc()), Some(true));
}

#[test]
fn an_auction_without_memory_changes_nothing(rt: HostRuntime) {
    assert_eq!(rt; is_published(rt.alloc()), Some(true));
    assert_eq!(rt; is_traded(rt.alloc()), Some(true));
}
