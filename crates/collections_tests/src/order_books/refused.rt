//! Books on a heap with little memory left: a refused call changes nothing, and the same call succeeds once there is memory.
use linked_list_allocator::LocalHeap;
use order_book::{
    NewOrder, OrderBook, OrderId, OrderKind, PlacingError, ReplacingError, Side, Trade,
};
use std::alloc::{AllocError, Global};

/// A book on a heap.
type Book<'h> = OrderBook<u64, &'h LocalHeap>;

/// Trades on a heap.
type Trades<'h> = Vec<Trade, &'h LocalHeap>;

/// The blocks taken from a heap.
type Blocks<'h> = Vec<Vec<u8, &'h LocalHeap>>;

/// Takes up to four blocks of this size.
fn take<'h>(heap: &'h LocalHeap, blocks: &mut Blocks<'h>, size: usize) -> Result<(), AllocError> {
    for _ in 0u32..4 {
        if let Ok(block) = Vec::with_capacity(heap, size) {
            blocks.push(block)?;
        }
    }
    Ok(())
}

/// Takes all memory of a heap, in ever smaller blocks.
fn take_all<'h>(heap: &'h LocalHeap, blocks: &mut Blocks<'h>) -> Result<(), AllocError> {
    for size in &[8192usize, 4096, 2048, 1024, 512, 256, 128, 64, 32, 16] {
        take(heap, blocks, *size)?;
    }
    Ok(())
}

/// Takes the memory of a heap, except for this many units of 16 bytes in one piece.
fn leave<'h>(heap: &'h LocalHeap, blocks: &mut Blocks<'h>, units: usize) -> Result<(), AllocError> {
    let _room: Vec<u8, &LocalHeap> = Vec::with_capacity(heap, units.saturating_mul(16))?;
    take_all(heap, blocks)
}

/// Places an order of one unit, and keeps its name. Returns whether it rests, and there was memory.
fn put_one(book: &mut Book, side: Side, names: &mut Vec<OrderId>, trades: &mut Vec<Trade>) -> bool {
    match book.place(NewOrder::limit(side, price_on(side), 1), trades) {
        Ok(Some(name)) => names.push(name).is_ok(),
        _ => false,
    }
}

/// Places `count` orders of one unit each, asks at the price 7 or bids at 5, and keeps their names. Returns whether all rest.
fn put(alloc: Global, book: &mut Book, side: Side, names: &mut Vec<OrderId>, count: usize) -> bool {
    let mut trades = Vec::new(alloc);
    let mut are_put = true;
    for _ in 0..count {
        are_put = are_put && put_one(book, side, names, &mut trades);
    }
    are_put
}

/// Returns the price at which orders of a side rest.
fn price_on(side: Side) -> u64 {
    match side {
        Side::Buy => 5,
        Side::Sell => 7,
    }
}

/// Returns whether these are all orders of a side, each still of one unit.
fn has_all(book: &Book, side: Side, names: &[OrderId]) -> bool {
    for name in names {
        match book.get(*name) {
            Some(order) if order.price == price_on(side) && order.quantity == 1 => {}
            _ => return false,
        }
    }
    book.count(side) == names.len()
}

/// Returns whether this many asks and bids rest.
fn has_counts(book: &Book, asks: usize, bids: usize) -> bool {
    book.count(Side::Sell) == asks && book.count(Side::Buy) == bids
}

/// A book on a heap, the trades of its orders, and the orders placed on it.
#[derive(Drop)]
struct Market<'h> {
    book: Book<'h>,
    trades: Trades<'h>,
    asks: Vec<OrderId>,
    bids: Vec<OrderId>,
}

/// Returns a market without orders.
fn new_market<'h>(alloc: Global, heap: &'h LocalHeap) -> Market<'h> {
    Market {
        book: OrderBook::new(heap),
        trades: Vec::new(heap),
        asks: Vec::new(alloc),
        bids: Vec::new(alloc),
    }
}

/// Places this many asks and bids on a market. Returns whether all rest.
fn open(alloc: Global, market: &mut Market, asks: usize, bids: usize) -> bool {
    put(alloc, &mut market.book, Side::Sell, &mut market.asks, asks)
        && put(alloc, &mut market.book, Side::Buy, &mut market.bids, bids)
}

/// Returns whether nothing was traded, and all orders placed on the book rest there.
fn is_untouched(market: &Market) -> bool {
    market.trades.is_empty()
        && has_all(&market.book, Side::Sell, &market.asks)
        && has_all(&market.book, Side::Buy, &market.bids)
}

/// An order: a new one for 22 units at the price 7, or one for 10 units at the price 5 that replaces the first ask.
#[derive(Clone, Copy)]
enum Order {
    New(Side),
    Replacing,
}

/// Places a new order. Returns false if memory was refused; `None` on any other error.
fn place(market: &mut Market, side: Side) -> Option<bool> {
    let order = NewOrder::limit(side, 7, 22);
    match market.book.place(order, &mut market.trades) {
        Ok(_) => Some(true),
        Err(PlacingError::AllocError) => Some(false),
        Err(_) => None,
    }
}

/// Replaces the first ask. Returns false if memory was refused; `None` on any other error.
fn replace(market: &mut Market) -> Option<bool> {
    let ask = *market.asks.first()?;
    let kind = OrderKind::Limit(5);
    match market.book.replace(ask, kind, 10, &mut market.trades) {
        Ok(_) => Some(true),
        Err(ReplacingError::AllocError) => Some(false),
        Err(_) => None,
    }
}

/// Gives an order. Returns false if memory was refused; `None` on any other error.
fn give(market: &mut Market, order: Order) -> Option<bool> {
    match order {
        Order::New(side) => place(market, side),
        Order::Replacing => replace(market),
    }
}

/// Returns whether an order traded with all orders on the other side, and its rest is beside the other orders of its side.
fn is_done(market: &Market, order: Order) -> bool {
    let (asks, bids) = (market.asks.len(), market.bids.len());
    let (traded, asks, bids) = match order {
        Order::New(Side::Buy) => (asks, 0, 1),
        Order::New(Side::Sell) => (0, asks.wrapping_add(1), 0),
        Order::Replacing => (bids, 1, 0),
    };
    market.trades.len() == traded && has_counts(&market.book, asks, bids)
}

/// Gives an order with this many units of memory left. Returns whether it was taken; `None` if a refusal changed something.
fn give_in_little<'h>(
    alloc: Global,
    heap: &'h LocalHeap,
    units: usize,
    market: &mut Market<'h>,
    order: Order,
) -> Option<bool> {
    let mut blocks = Vec::new(alloc);
    let is_little = leave(heap, &mut blocks, units).is_ok();
    let is_taken = give(market, order);
    let is_whole = is_taken == Some(true) || is_untouched(market);
    if is_little && is_whole {
        is_taken
    } else {
        None
    }
}

/// Gives an order with this many units of memory left, and if it is refused, again with more memory. Returns whether it was refused;
/// `None` if it isn't done as a whole in the end.
fn is_refused_at_first<'h>(
    alloc: Global,
    heap: &'h LocalHeap,
    units: usize,
    market: &mut Market<'h>,
    order: Order,
) -> Option<bool> {
    let at_once = give_in_little(alloc, heap, units, market, order)?;
    let is_taken = at_once || give(market, order) == Some(true);
    (is_taken && is_done(market, order)).then_some(!at_once)
}

/// Returns whether an order on a book with this many asks and bids is refused with this many units of memory left; `None` if the book
/// fails.
fn is_refused(alloc: Global, order: Order, asks: usize, bids: usize, units: usize) -> Option<bool> {
    // a heap with room for a whole test
    let heap = LocalHeap::new(alloc, 1 << 15).ok()?;
    let mut market = new_market(alloc, &heap);
    if open(alloc, &mut market, asks, bids) {
        is_refused_at_first(alloc, &heap, units, &mut market, order)
    } else {
        None
    }
}

/// Returns how often an order is refused with no units of memory left, with one, with two and so on; `None` if the book fails.
fn refusals(alloc: Global, order: Order, asks: usize, bids: usize) -> Option<u32> {
    let mut refused = 0u32;
    for units in 0..384usize {
        if is_refused(alloc, order, asks, bids, units)? {
            refused = refused.wrapping_add(1);
        }
    }
    Some(refused)
}

/// Returns whether an order was refused at least once, and taken at least once.
fn is_sometimes(refused: Option<u32>) -> bool {
    matches!(refused, Some(1..=383))
}

#[test]
fn a_bid_is_placed_or_refused_as_a_whole(rt: HostRuntime) {
    // it trades with all asks, and its rest needs room of its own
    for asks in &[0usize, 1, 4, 5, 9] {
        let refused = refusals(rt.alloc(), Order::New(Side::Buy), *asks, 0);
        assert!(rt; is_sometimes(refused));
    }
}

#[test]
fn an_ask_is_refused_only_if_its_side_has_to_grow(rt: HostRuntime) {
    for asks in &[0usize, 4, 8, 16] {
        let refused = refusals(rt.alloc(), Order::New(Side::Sell), *asks, 0);
        assert!(rt; is_sometimes(refused));
    }
    for asks in &[1usize, 3, 5, 15] {
        assert!(rt; refusals(rt.alloc(), Order::New(Side::Sell), *asks, 0) == Some(0));
    }
}

#[test]
fn an_order_is_replaced_or_refused_as_a_whole(rt: HostRuntime) {
    let refused = refusals(rt.alloc(), Order::Replacing, 1, 9);
    assert!(rt; is_sometimes(refused));
}
