//! Auctions on random books, compared with a search over the prices of all orders; books without an auction; and refused memory.
use super::lists::{self, Lists, insert, is_within};
use crate::support::rest_of;
use linked_list_allocator::LocalHeap;
use order_book::{Auction, Order, OrderBook, Side, Trade};
use std::alloc::Global;

/// The prices of orders.
const PRICES: [u64; 4] = [9, 10, 11, 12];

/// The quantities of orders: small ones, so that several prices are as good, and great ones, of which two exceed 64 bits.
const QUANTITIES: [u64; 8] = [1, 1, 2, 2, 3, 3, u64::MAX - 1, u64::MAX];

/// The next number of a linear congruential generator (Knuth, MMIX).
fn next(seed: u64) -> u64 {
    seed.wrapping_mul(6364136223846793005)
        .wrapping_add(1442695040888963407)
}

/// Returns how much the orders of a side offer at a price.
fn offered(lists: &Lists, side: Side, price: u64) -> u128 {
    let mut sum = 0u128;
    for order in lists.side(side) {
        if is_within(order, side, price) {
            sum = sum.wrapping_add(u128::from(order.quantity));
        }
    }
    sum
}

/// Returns what would trade at a price.
fn auction_at(lists: &Lists, price: u64) -> Auction {
    let bought = offered(lists, Side::Buy, price);
    let sold = offered(lists, Side::Sell, price);
    let quantity = bought.min(sold);
    Auction {
        price,
        quantity,
        surplus: bought.max(sold).wrapping_sub(quantity),
    }
}

/// Returns whether an auction is better than the other: by its quantity, then its surplus, then its price.
fn is_better(auction: Auction, other: Auction) -> bool {
    if auction.quantity != other.quantity {
        return auction.quantity > other.quantity;
    }
    (auction.surplus, auction.price) < (other.surplus, other.price)
}

/// Returns the best of an auction and those at the prices of the orders of a side in which something trades.
fn best_on(lists: &Lists, side: Side, known: Option<Auction>) -> Option<Auction> {
    let mut best = known;
    for order in lists.side(side) {
        let auction = auction_at(lists, order.price);
        let is_best = match best {
            Some(best) => is_better(auction, best),
            None => auction.quantity > 0,
        };
        if is_best {
            best = Some(auction);
        }
    }
    best
}

/// Returns the best auction at the price of an order.
fn best_of(lists: &Lists) -> Option<Auction> {
    best_on(lists, Side::Sell, best_on(lists, Side::Buy, None))
}

/// Returns what chose the price of an auction among those of the orders of a side: 1 the quantity, 2 the surplus, 3 the price itself.
fn reason_on(lists: &Lists, side: Side, best: Auction) -> usize {
    let mut reason = 1;
    for order in lists.side(side) {
        let auction = auction_at(lists, order.price);
        if order.price == best.price || auction.quantity != best.quantity {
            continue;
        }
        let other: usize = if auction.surplus == best.surplus {
            3
        } else {
            2
        };
        reason = other.max(reason);
    }
    reason
}

/// What the auctions of a test were like.
#[derive(Clone, Copy)]
struct Met {
    // whether there was none, and whether one was chosen by its quantity, by its surplus and by its price
    reasons: [bool; 4],
    // whether more traded than 64 bits hold
    is_wide: bool,
}

/// Marks what an auction is like.
fn mark(met: &mut Met, lists: &Lists, best: Option<Auction>) {
    let Some(best) = best else {
        met.reasons[0] = true;
        return;
    };
    let reason = reason_on(lists, Side::Buy, best).max(reason_on(lists, Side::Sell, best));
    met.reasons[reason % 4] = true;
    met.is_wide = met.is_wide || best.quantity > u128::from(u64::MAX);
}

/// Takes the first units of a side, as many as an auction trades, and appends the trades. Returns whether there are as many, and memory.
fn take(orders: &mut Vec<Order>, auction: Auction, trades: &mut Vec<Trade>) -> bool {
    let mut left = auction.quantity;
    for order in orders.iter_mut() {
        let quantity = u64::try_from(left).unwrap_or(u64::MAX).min(order.quantity);
        if quantity == 0 {
            break;
        }
        let trade = Trade {
            order: order.id,
            price: auction.price,
            quantity,
            left: order.quantity.wrapping_sub(quantity),
            tag: order.tag,
        };
        if trades.push(trade).is_err() {
            return false;
        }
        order.quantity = order.quantity.wrapping_sub(quantity);
        left = left.wrapping_sub(u128::from(quantity));
    }
    orders.retain(|order| order.quantity > 0);
    left == 0
}

/// A book beside its orders as lists, and its trades beside what they should be.
#[derive(Drop)]
struct Beside {
    book: OrderBook,
    lists: Lists,
    trades: Vec<Trade>,
    wanted: Vec<Trade>,
}

/// Adds the order that a number stands for. Returns whether it rests.
fn add(beside: &mut Beside, number: u64) -> bool {
    let side = if number % 2 == 0 {
        Side::Buy
    } else {
        Side::Sell
    };
    let price = PRICES[(number / 2 % 4) as usize];
    let quantity = QUANTITIES[(number / 8 % 8) as usize];
    let Ok(id) = beside.book.add(side, price, quantity, number) else {
        return false;
    };
    let order = Order {
        id,
        price,
        quantity,
        tag: number,
    };
    insert(beside.lists.side_mut(side), side, order)
}

/// Adds six orders. Returns the next number of the generator; `None` if one doesn't rest.
fn add_some(beside: &mut Beside, seed: u64) -> Option<u64> {
    let mut seed = seed;
    for _ in 0..6u32 {
        seed = next(seed);
        if !add(beside, seed >> 33) {
            return None;
        }
    }
    Some(seed)
}

/// Holds an auction, which comes to this. Returns whether the book says so before and afterwards, and has then the trades and the orders of
/// the lists.
fn uncross(beside: &mut Beside, best: Option<Auction>) -> bool {
    let is_taken = match best {
        Some(auction) => {
            take(&mut beside.lists.bids, auction, &mut beside.wanted)
                && take(&mut beside.lists.asks, auction, &mut beside.wanted)
        }
        None => true,
    };
    is_taken
        && beside.book.auction() == best
        && beside.book.uncross(&mut beside.trades) == Ok(best)
        && beside.trades.as_slice() == beside.wanted.as_slice()
        && lists::are_alike(&beside.book, &beside.lists, &PRICES)
        && !beside.book.is_crossed()
}

/// Holds three auctions on a book, each followed by one in which nothing trades. Returns whether the book and the lists always agree.
fn is_plain(alloc: Global, seed: u64, met: &mut Met) -> bool {
    let mut beside = Beside {
        book: OrderBook::new(alloc),
        lists: Lists::new(alloc),
        trades: Vec::new(alloc),
        wanted: Vec::new(alloc),
    };
    let mut seed = seed;
    for _ in 0..3u32 {
        match add_some(&mut beside, seed) {
            Some(next) => seed = next,
            None => return false,
        }
        let best = best_of(&beside.lists);
        mark(met, &beside.lists, best);
        if !uncross(&mut beside, best) || !uncross(&mut beside, None) {
            return false;
        }
    }
    true
}

#[test]
fn auctions_on_random_books_agree_with_a_search_over_all_prices(rt: HostRuntime) {
    let mut met = Met {
        reasons: [false; 4],
        is_wide: false,
    };
    for seed in 0..300u64 {
        assert!(rt; is_plain(rt.alloc(), seed, &mut met));
    }
    assert!(rt; met.reasons == [true; 4] && met.is_wide);
}

/// Adds orders of three units each. Returns whether they rest.
fn add_all(book: &mut OrderBook, orders: &[(Side, u64)]) -> bool {
    for (side, price) in orders {
        if book.add(*side, *price, 3, *price).is_err() {
            return false;
        }
    }
    true
}

/// Returns whether a book of these orders has no auction, which needs no memory and changes nothing.
fn has_none(alloc: Global, orders: &[(Side, u64)]) -> Option<bool> {
    let heap = LocalHeap::new(alloc, 1 << 10).ok()?;
    let _taken = rest_of(alloc, &heap).ok()?;
    let mut trades = Vec::new(&heap);
    let mut book = OrderBook::new(alloc);
    let is_made = add_all(&mut book, orders);
    let copy = book.try_clone().ok()?;
    let is_none = book.auction().is_none() && book.uncross(&mut trades) == Ok(None);
    Some(is_made && is_none && trades.is_empty() && book == copy)
}

#[test]
fn nothing_trades_in_a_book_that_is_uncrossed(rt: HostRuntime) {
    let (low, high) = ((Side::Buy, 9), (Side::Sell, 10));
    for orders in [[].as_slice(), &[low], &[high], &[low, high]] {
        assert!(rt; has_none(rt.alloc(), orders) == Some(true));
    }
}

/// Returns a book with nine bids at 10 and nine asks at 9, of one unit each.
fn crossed_book(alloc: Global) -> Option<OrderBook> {
    let mut book = OrderBook::new(alloc);
    for tag in 0..9u64 {
        book.add(Side::Buy, 10, 1, tag).ok()?;
        book.add(Side::Sell, 9, 1, tag).ok()?;
    }
    Some(book)
}

/// What an auction with little memory came to.
#[derive(Clone, Copy)]
enum Outcome {
    /// All was traded.
    Done,
    /// Memory was refused to a list of this capacity, and nothing changed; with memory all was traded.
    Refused(usize),
    /// Something else.
    Wrong,
}

/// Trades all of a book. Returns whether these are nine units, and nothing is left.
fn trades_all(book: &mut OrderBook, trades: &mut Vec<Trade>) -> bool {
    let auction = Auction {
        price: 9,
        quantity: 9,
        surplus: 0,
    };
    book.uncross(trades) == Ok(Some(auction))
        && trades.len() == 18
        && book.count(Side::Buy) == 0
        && book.count(Side::Sell) == 0
}

/// Holds an auction whose trades are appended to a list with one trade, on a heap of so many bytes.
fn uncross_in(alloc: Global, bytes: usize) -> Option<Outcome> {
    let heap = LocalHeap::new(alloc, bytes).ok()?;
    let mut book = crossed_book(alloc)?;
    let id = book.add(Side::Buy, 8, 1, 0).ok()?;
    let earlier = book.execute(id, 1)?;
    let copy = book.try_clone().ok()?;
    let mut trades: Vec<Trade, &LocalHeap> = Vec::with_capacity(&heap, 1).ok()?;
    trades.push(earlier).ok()?;
    if book.uncross(&mut trades).is_ok() {
        let is_done = trades.len() == 19 && book.count(Side::Buy) == 0;
        return Some(if is_done {
            Outcome::Done
        } else {
            Outcome::Wrong
        });
    }
    let is_whole = book == copy && trades.as_slice() == [earlier].as_slice();
    if is_whole && trades_all(&mut book, &mut Vec::new(alloc)) {
        Some(Outcome::Refused(trades.capacity()))
    } else {
        Some(Outcome::Wrong)
    }
}

#[test]
fn nothing_changes_if_the_list_of_trades_is_refused_memory(rt: HostRuntime) {
    // the capacities at which the list could not grow: for a trade of the bids, and the last for one of the asks
    let mut met = [false; 17];
    let mut is_done = false;
    for units in 8..256usize {
        match uncross_in(rt.alloc(), units.wrapping_mul(16)) {
            Some(Outcome::Done) => is_done = true,
            Some(Outcome::Refused(capacity)) => met[capacity % 17] = true,
            _ => assert!(rt; false),
        }
    }
    assert!(rt; is_done && met[1] && met[4] && met[8] && met[16]);
}
