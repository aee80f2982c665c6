//! An auction, and what it changes.

ghost use Rattle.std.specs.Prelude.{◌≡◌, ◌↔◌, ◌+◌, ◌≤◌, ◌<◌, ◌++◌, ◌⊎◌, Ok, None, drop, length, map, take, vec_capacity, OnOk, IfOk, OnErr, IfSome, IfNone};
ghost use Rattle.order_book.specs.Book.{Book, queue, IsUncrossed};
ghost use Rattle.order_book.specs.Auction.{Auctions, LacksRoomForAuction};
ghost use Rattle.order_book.specs.Names.{StepsOrRefuses};
ghost use Rattle.level_feed.specs.Feed.{prices_taken, refreshed, updates_at, updates_of_auction, AreChanges, Follows, LacksRoomForUpdates, Publishes};

use crate::level::update_now;
use crate::update::LevelUpdate;
use order_book::laws::best_auction_law;
use order_book::{Auction, OrderBook, Side, Trade};
use std::alloc::{AllocError, Allocator};

// Appends an update for each level of a side from which its first units come. On `Err` the list is unchanged.
fn note_levels<T: Copy, A: Allocator, B: Allocator>(
    book: &OrderBook<T, A>,
    side: Side,
    quantity: u128,
    updates: &mut Vec<LevelUpdate, B>,
) -> Result<(), AllocError>
    ensures updates { OnOk result (updates.new.items ≡ updates.old.items
        ++ updates_at book.now side (prices_taken quantity (queue book.now side))) }
    ensures memory { OnErr result (vec_capacity updates.old < length updates.old.items
        + length (updates_at book.now side (prices_taken quantity (queue book.now side)))) }
    ensures err { OnErr result (updates.new.items ≡ updates.old.items) }
    ensures kept_room { vec_capacity updates.old ≤ vec_capacity updates.new }
{
    // For the prover: there are no more levels than orders.
    let _ = book.count(side);
    let before = updates.len();
    let mut left = quantity;
    for level in book.depth(side, usize::MAX) {
        if left == 0 {
            break;
        }
        if updates.push(update_now(book, side, level.price)).is_err() {
            updates.truncate(before);
            return Err(AllocError);
        }
        left = left.saturating_sub(level.quantity);
    }
    Ok(())
}

// Makes each update from an index on say what is there now.
fn refresh<T: Copy, A: Allocator, B: Allocator>(
    book: &OrderBook<T, A>,
    from: usize,
    updates: &mut Vec<LevelUpdate, B>,
)
    requires { from ≤ length updates.old.items }
    ensures refreshed { updates.new.items ≡ take from updates.old.items
        ++ map (refreshed book.now) (drop from updates.old.items) }
    ensures kept_room { vec_capacity updates.old ≤ vec_capacity updates.new }
{
    for at in from..updates.len() {
        let noted = updates[at];
        updates[at] = update_now(book, noted.side, noted.price);
    }
}

// Appends an update for each level from which an auction takes. On `Err` the list is unchanged.
fn note_auction<T: Copy, A: Allocator, B: Allocator>(
    book: &OrderBook<T, A>,
    auction: Auction,
    updates: &mut Vec<LevelUpdate, B>,
) -> Result<(), AllocError>
    ensures updates { OnOk result (updates.new.items
        ≡ updates.old.items ++ updates_of_auction book.now book.now auction) }
    ensures memory { OnErr result (vec_capacity updates.old < length updates.old.items
        + length (updates_of_auction book.now book.now auction)) }
    ensures err { OnErr result (updates.new.items ≡ updates.old.items) }
    ensures kept_room { vec_capacity updates.old ≤ vec_capacity updates.new }
{
    let before = updates.len();
    note_levels(book, Side::Buy, auction.quantity, updates)?;
    if note_levels(book, Side::Sell, auction.quantity, updates).is_err() {
        updates.truncate(before);
        return Err(AllocError);
    }
    Ok(())
}

/// Trades all that can trade at one price, as [`OrderBook::uncross`] does, and appends an update for each level from which it takes.
///
/// The trades of an auction have its price, and not that of their orders, so what changed can't be told from them afterwards: this call notes
/// the levels first. The updates of bids come before those of asks, on each side the best price first.
///
/// ```
/// let (mut trades, mut updates) = (Vec::new(rt.alloc()), Vec::new(rt.alloc()));
/// book.add(Side::Buy, 102, 10, 7)?;
/// book.add(Side::Sell, 101, 4, 8)?;
/// let auction = uncross(&mut book, &mut trades, &mut updates)?;
/// assert_eq!(rt; auction.map(|auction| (auction.price, auction.quantity)), Some((101, 4)));
/// assert_eq!(rt; updates.len(), 2);
/// assert_eq!(rt; (updates[0].side, updates[0].price, updates[0].quantity), (Side::Buy, 102, 6));
/// assert_eq!(rt; (updates[1].side, updates[1].price, updates[1].count), (Side::Sell, 101, 0));
/// ```
///
/// # Errors
///
/// `AllocError`: memory is refused to one of the lists. The book and the lists are unchanged.
///
/// # Complexity
///
/// O(m + k), and O(log m) for each price level from which it takes.
pub fn uncross<T: Copy, A: Allocator, B: Allocator, C: Allocator>(
    book: &mut OrderBook<T, A>,
    trades: &mut Vec<Trade<T>, B>,
    updates: &mut Vec<LevelUpdate, C>,
) -> Result<Option<Auction>, AllocError>
    ensures none { (result ≡ Ok None) ↔ IsUncrossed book.old }
    ensures auction { IfOk result (λ found. IfSome found
        (λ a. Auctions book.old trades.old.items a book.new trades.new.items)) }
    ensures updates { IfOk result (λ found. IfSome found
        (λ a. updates.new.items ≡ updates.old.items ++ updates_of_auction book.old book.new a)) }
    ensures follows { OnOk result ((start : Book T) → Follows start book.old updates.old.items
        → Follows start book.new updates.new.items) }
    ensures publishes { IfOk result (λ found. IfSome found
        (λ a. Publishes book.old book.new (updates_of_auction book.old book.new a))) }
    ensures changes { IfOk result (λ found. IfSome found
        (λ a. AreChanges book.old (updates_of_auction book.old book.new a))) }
    ensures quiet { IfOk result (λ found. IfNone found ((book.new ≡ book.old)
        × (trades.new.items ≡ trades.old.items) × (updates.new.items ≡ updates.old.items))) }
    ensures uncrossed { OnOk result (IsUncrossed book.new) }
    ensures memory { OnErr result (LacksRoomForAuction book.old (vec_capacity trades.old) (length trades.old.items)
        ⊎ LacksRoomForUpdates book.old (vec_capacity updates.old) (length updates.old.items)) }
    ensures err { OnErr result ((book.new ≡ book.old)
        × (trades.new.items ≡ trades.old.items) × (updates.new.items ≡ updates.old.items)) }
    ensures kept_room { vec_capacity trades.old ≤ vec_capacity trades.new }
    ensures kept_updates { vec_capacity updates.old ≤ vec_capacity updates.new }
    ensures steps { StepsOrRefuses book.old trades.old.items result
        book.new trades.new.items }
{
    // For the prover: what holds of every book, and that it has one auction.
    let _ = book.count(Side::Buy);
    best_auction_law::<T>();
    let Some(auction) = book.auction() else {
        return Ok(None);
    };
    let before = updates.len();
    note_auction(book, auction, updates)?;
    match book.uncross(trades) {
        Ok(traded) => {
            refresh(book, before, updates);
            Ok(traded)
        }
        Err(refused) => {
            updates.truncate(before);
            Err(refused)
        }
    }
}
