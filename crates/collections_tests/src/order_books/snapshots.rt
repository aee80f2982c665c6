//! Books that are made of the orders of others; lists that make none; and refused memory.
use crate::support::rest_of;
use linked_list_allocator::LocalHeap;
use order_book::{AddingError, NewOrder, Order, OrderBook, Side, Trade};
use std::alloc::Global;

/// The next number of a linear congruential generator (Knuth, MMIX).
fn next(seed: u64) -> u64 {
    seed.wrapping_mul(6364136223846793005)
        .wrapping_add(1442695040888963407)
}

/// Returns a book after random orders at few prices, of which some trade and some are added without trading.
fn book_of(alloc: Global, seed: u64) -> Option<OrderBook> {
    let mut book = OrderBook::new(alloc);
    let mut trades: Vec<Trade> = Vec::new(alloc);
    let mut seed = seed;
    for tag in 0..40u64 {
        seed = next(seed);
        let side = if seed >> 40 & 1 == 0 {
            Side::Buy
        } else {
            Side::Sell
        };
        let (price, quantity) = (seed >> 41 & 7, (seed >> 44 & 3) + 1);
        if seed >> 46 & 3 == 0 {
            book.add(side, price, quantity, tag).ok()?;
        } else {
            let order = NewOrder {
                tag,
                ..NewOrder::limit(side, price, quantity)
            };
            book.place(order, &mut trades).ok()?;
        }
    }
    Some(book)
}

/// Returns whether two lists have the same orders but for their names.
fn are_same(orders: &[Order], others: &[Order]) -> bool {
    let mut rest = others.iter();
    for order in orders {
        let is_same = match rest.next() {
            Some(other) => {
                order.id.side() == other.id.side()
                    && order.price == other.price
                    && order.quantity == other.quantity
                    && order.tag == other.tag
            }
            None => false,
        };
        if !is_same {
            return false;
        }
    }
    rest.next().is_none()
}

/// Returns whether a snapshot has the orders of both sides.
fn shows_all(book: &OrderBook, orders: &[Order]) -> bool {
    let mut rest = orders.iter();
    for side in [Side::Buy, Side::Sell] {
        for order in book.iter(side) {
            if rest.next() != Some(&order) {
                return false;
            }
        }
    }
    rest.next().is_none()
}

/// Returns whether the snapshot of a random book makes a book with the same orders.
fn comes_back(alloc: Global, seed: u64) -> Option<bool> {
    let book = book_of(alloc, seed)?;
    let mut orders = Vec::new(alloc);
    book.snapshot(&mut orders).ok()?;
    let restored = OrderBook::restored(&orders, alloc).ok()?;
    let mut again = Vec::new(alloc);
    restored.snapshot(&mut again).ok()?;
    let is_whole = shows_all(&book, &orders) && shows_all(&restored, &again);
    Some(is_whole && are_same(&orders, &again))
}

#[test]
fn a_snapshot_makes_a_book_with_the_same_orders(rt: HostRuntime) {
    for seed in 0..200u64 {
        assert!(rt; comes_back(rt.alloc(), seed) == Some(true));
    }
}

/// Returns the orders of a small book.
fn few_orders(alloc: Global) -> Option<Vec<Order>> {
    let mut book = OrderBook::new(alloc);
    for tag in 0..9u64 {
        book.add(Side::Buy, 10 - tag, 1, tag).ok()?;
        book.add(Side::Sell, 10 + tag, 1, tag).ok()?;
    }
    let mut orders = Vec::new(alloc);
    book.snapshot(&mut orders).ok()?;
    Some(orders)
}

/// Returns why a list with an order for nothing makes no book.
fn refusal_of_nothing(alloc: Global) -> Option<AddingError> {
    let mut orders = few_orders(alloc)?;
    let last = orders.last_mut()?;
    last.quantity = 0;
    OrderBook::restored(&orders, alloc).err()
}

#[test]
fn an_order_for_nothing_makes_no_book(rt: HostRuntime) {
    assert!(rt; refusal_of_nothing(rt.alloc()) == Some(AddingError::NoQuantity));
}

/// Returns whether orders make a book on a heap of so many bytes; `None` if something else than memory is missing.
fn restores_in(alloc: Global, orders: &[Order], bytes: usize) -> Option<bool> {
    let heap = LocalHeap::new(alloc, bytes).ok()?;
    match OrderBook::restored(orders, &heap) {
        Ok(book) => {
            let is_whole = book.count(Side::Buy) == 9 && book.count(Side::Sell) == 9;
            if is_whole { Some(true) } else { None }
        }
        Err(AddingError::AllocError) => Some(false),
        Err(_) => None,
    }
}

#[test]
fn a_book_is_made_as_a_whole_or_refused_for_want_of_memory(rt: HostRuntime) {
    let orders = match few_orders(rt.alloc()) {
        Some(orders) => orders,
        None => Vec::new(rt.alloc()),
    };
    let (mut made, mut refused) = (0usize, 0usize);
    for units in 4..256usize {
        match restores_in(rt.alloc(), &orders, units.wrapping_mul(64)) {
            Some(true) => made = made.wrapping_add(1),
            Some(false) => refused = refused.wrapping_add(1),
            None => assert!(rt; false),
        }
    }
    assert!(rt; made > 0 && refused > 20);
}

/// Returns whether a snapshot into a list on a full heap is refused, and the list is as it was.
fn is_refused(alloc: Global) -> Option<bool> {
    let heap = LocalHeap::new(alloc, 1 << 10).ok()?;
    let mut orders: Vec<Order, &LocalHeap> = Vec::with_capacity(&heap, 1).ok()?;
    let _taken = rest_of(alloc, &heap).ok()?;
    let book = book_of(alloc, 1)?;
    let first = book.iter(Side::Buy).next()?;
    orders.push(first).ok()?;
    Some(book.snapshot(&mut orders).is_err() && orders.as_slice() == [first].as_slice())
}

#[test]
fn a_snapshot_is_refused_as_a_whole(rt: HostRuntime) {
    assert!(rt; is_refused(rt.alloc()) == Some(true));
}
