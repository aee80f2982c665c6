//! A book on a heap with little memory left: an order that is refused memory changes nothing, and the same order is taken once there is more.
use linked_list_allocator::LocalHeap;
use order_book::{NewOrder, Order, OrderBook, PlacingError, Side, Trade};
use self_trade::{SelfTrade, place};
use std::alloc::{AllocError, Global};

/// The blocks taken from a heap.
type Blocks<'h> = Vec<Vec<u8, &'h LocalHeap>>;

/// A book on a heap with the lists of its trades and cancelled orders.
#[derive(Drop)]
struct Market<'h> {
    book: OrderBook<u64, &'h LocalHeap>,
    trades: Vec<Trade, &'h LocalHeap>,
    cancelled: Vec<Order, &'h LocalHeap>,
}

/// Takes the memory of a heap in ever smaller blocks, except for this many units of 16 bytes in one piece.
fn leave<'h>(heap: &'h LocalHeap, blocks: &mut Blocks<'h>, units: usize) -> Result<(), AllocError> {
    let _room: Vec<u8, &LocalHeap> = Vec::with_capacity(heap, units.saturating_mul(16))?;
    for size in &[8192usize, 4096, 2048, 1024, 512, 256, 128, 64, 32, 16] {
        for _ in 0u32..8 {
            if let Ok(block) = Vec::with_capacity(heap, *size) {
                if blocks.push(block).is_err() {
                    return Err(AllocError);
                }
            }
        }
    }
    Ok(())
}

/// Places the asks: two of the owner 7 in front, and then ten of another one.
fn open<'h>(market: &mut Market<'h>, heap: &'h LocalHeap) -> bool {
    let mut trades: Vec<Trade, &LocalHeap> = Vec::new(heap);
    let mut are_put = true;
    for number in 0..12u64 {
        let tag = if number < 2 { 7 } else { 8 };
        let ask = NewOrder::limit(Side::Sell, 101, 1).with_tag(tag);
        are_put = are_put && market.book.place(ask, &mut trades).is_ok();
    }
    are_put
}

/// Places a bid of the owner 7 for 15 units. Returns false if memory was refused; `None` on any other error.
fn bid(market: &mut Market) -> Option<bool> {
    let order = NewOrder::limit(Side::Buy, 101, 15).with_tag(7);
    let is_foreign = |resting: Order| resting.tag != 7;
    let policy = SelfTrade::CancelResting;
    match place(
        &mut market.book,
        order,
        policy,
        is_foreign,
        &mut market.trades,
        &mut market.cancelled,
    ) {
        Ok(_) => Some(true),
        Err(PlacingError::AllocError) => Some(false),
        Err(_) => None,
    }
}

/// Returns whether all asks rest, no bid does, and the lists are empty.
fn is_untouched(market: &Market) -> bool {
    market.book.count(Side::Sell) == 12
        && market.book.count(Side::Buy) == 0
        && market.book.capacity(Side::Buy) == 0
        && market.trades.is_empty()
        && market.cancelled.is_empty()
}

/// Returns whether the bid traded with the ten asks of the other owner, those of its own were cancelled, and what is left of it rests.
fn is_done(market: &Market) -> bool {
    market.book.count(Side::Sell) == 0
        && market.book.best_bid().map(|bid| bid.quantity) == Some(5)
        && market.trades.len() == 10
        && market.cancelled.len() == 2
}

/// Places the bid with this many units of memory left, and if it is refused, again with more memory. Returns whether it was refused; `None` if
/// a refusal changed something, or it isn't done as a whole in the end.
fn is_refused(alloc: Global, units: usize) -> Option<bool> {
    let heap = LocalHeap::new(alloc, 1 << 15).ok()?;
    let mut market = Market {
        book: OrderBook::new(&heap),
        trades: Vec::new(&heap),
        cancelled: Vec::new(&heap),
    };
    let mut blocks = Vec::new(alloc);
    if !open(&mut market, &heap) || leave(&heap, &mut blocks, units).is_err() {
        return None;
    }
    let is_taken = bid(&mut market)?;
    if !is_taken && !is_untouched(&market) {
        return None;
    }
    blocks.clear();
    let is_taken_again = is_taken || bid(&mut market)?;
    (is_taken_again && is_done(&market)).then_some(!is_taken)
}

#[test]
fn a_bid_that_is_refused_memory_changes_nothing(rt: HostRuntime) {
    let (mut refused, mut taken) = (0u32, 0u32);
    for units in 1..200usize {
        match is_refused(rt.alloc(), units) {
            Some(true) => refused = refused.wrapping_add(1),
            Some(false) => taken = taken.wrapping_add(1),
            None => assert!(rt; false, "with {units} units"),
        }
    }
    assert!(rt;
        refused > 20 && taken > 20,
        "{refused} refused, {taken} taken"
    );
}
