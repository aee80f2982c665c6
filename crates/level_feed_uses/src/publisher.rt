//! A publisher of a market's price levels: what a call changes is appended to a list of updates, from which subscribers keep the levels.

ghost use Rattle.std.specs.Prelude.{◌≡◌, ℕ, true, Ok, Some, OnErr, IfNone};
ghost use Rattle.level_feed.specs.Words.{level_at, queue};
ghost use Rattle.level_feed.specs.Feed.{updated, Follows};

use level_feed::{LevelUpdate, after_placing, after_replacing, level_update, uncross};
use order_book::{
    AddingError, NewOrder, OrderBook, OrderId, OrderKind, PlacingError, ReplacingError, Side, Trade,
};
use std::alloc::AllocError;

/// Places an order, and publishes what changed. Returns whether that is published: if not, there was no memory, and subscribers need all
/// levels anew.
pub fn place(
    book: &mut OrderBook,
    order: NewOrder,
    trades: &mut Vec<Trade>,
    updates: &mut Vec<LevelUpdate>,
) -> Result<bool, PlacingError>
    ensures follows { result ≡ Ok true → (start : _) → Follows start book.old updates.old.items
        → Follows start book.new updates.new.items }
    ensures image { result ≡ Ok true → (start : _) → Follows start book.old updates.old.items
        → (side : _) (price : ℕ) → level_at price (queue book.new side).orders
        ≡ updated side price updates.new.items (level_at price (queue start side).orders) }
    ensures refused { OnErr result (book.new ≡ book.old) }
{
    trades.clear();
    // For the prover: what holds of every book.
    let _ = book.count(order.side);
    let id = book.place(order, trades)?;
    match after_placing(book, order, id, trades, updates) {
        Ok(()) => Ok(true),
        Err(_) => Ok(false),
    }
}

/// Replaces an order, and publishes what changed. Returns whether that is published.
pub fn replace(
    book: &mut OrderBook,
    id: OrderId,
    kind: OrderKind,
    quantity: u64,
    trades: &mut Vec<Trade>,
    updates: &mut Vec<LevelUpdate>,
) -> Result<bool, ReplacingError>
    ensures follows { result ≡ Ok true → (start : _) → Follows start book.old updates.old.items
        → Follows start book.new updates.new.items }
    ensures refused { OnErr result (book.new ≡ book.old) }
{
    trades.clear();
    // For the prover: what holds of every book.
    let _ = book.count(id.side());
    let Some(old) = book.get(id) else {
        return Err(ReplacingError::NoOrder);
    };
    let new = book.replace(id, kind, quantity, trades)?;
    match after_replacing(book, old, kind, new, trades, updates) {
        Ok(()) => Ok(true),
        Err(_) => Ok(false),
    }
}

/// Adds an order that rests elsewhere, and publishes its level. Returns whether that is published.
pub fn add(
    book: &mut OrderBook,
    side: Side,
    price: u64,
    quantity: u64,
    updates: &mut Vec<LevelUpdate>,
) -> Result<bool, AddingError>
    ensures follows { result ≡ Ok true → (start : _) → Follows start book.old updates.old.items
        → Follows start book.new updates.new.items }
    ensures refused { OnErr result (book.new ≡ book.old) }
{
    let _ = book.add(side, price, quantity, 0)?;
    match updates.push(level_update(book, side, price)) {
        Ok(()) => Ok(true),
        Err(_) => Ok(false),
    }
}

/// Cancels an order, and publishes its level. Returns whether that is published; `None` if the id names no order.
pub fn cancel(book: &mut OrderBook, id: OrderId, updates: &mut Vec<LevelUpdate>) -> Option<bool>
    ensures follows { result ≡ Some true → (start : _) → Follows start book.old updates.old.items
        → Follows start book.new updates.new.items }
    ensures none { IfNone result (book.new ≡ book.old) }
{
    let order = book.cancel(id)?;
    match updates.push(level_update(book, id.side(), order.price)) {
        Ok(()) => Some(true),
        Err(_) => Some(false),
    }
}

/// Takes so much off an order, and publishes its level. Returns whether that is published; `None` if the id names no order.
pub fn reduce(
    book: &mut OrderBook,
    id: OrderId,
    quantity: u64,
    updates: &mut Vec<LevelUpdate>,
) -> Option<bool>
    ensures follows { result ≡ Some true → (start : _) → Follows start book.old updates.old.items
        → Follows start book.new updates.new.items }
    ensures none { IfNone result (book.new ≡ book.old) }
{
    let order = book.get(id)?;
    let _ = book.reduce(id, quantity)?;
    match updates.push(level_update(book, id.side(), order.price)) {
        Ok(()) => Some(true),
        Err(_) => Some(false),
    }
}

/// Executes so much of an order, and publishes its level. Returns whether that is published; `None` if nothing is traded.
pub fn execute(
    book: &mut OrderBook,
    id: OrderId,
    quantity: u64,
    updates: &mut Vec<LevelUpdate>,
) -> Option<bool>
    ensures follows { result ≡ Some true → (start : _) → Follows start book.old updates.old.items
        → Follows start book.new updates.new.items }
    ensures none { IfNone result (book.new ≡ book.old) }
{
    let trade = book.execute(id, quantity)?;
    match updates.push(level_update(book, id.side(), trade.price)) {
        Ok(()) => Some(true),
        Err(_) => Some(false),
    }
}

/// Opens the market: holds an auction, and publishes the levels from which it took.
pub fn open(
    book: &mut OrderBook,
    trades: &mut Vec<Trade>,
    updates: &mut Vec<LevelUpdate>,
) -> Result<bool, AllocError>
    ensures follows { result ≡ Ok true → (start : _) → Follows start book.old updates.old.items
        → Follows start book.new updates.new.items }
    ensures refused { OnErr result (book.new ≡ book.old) }
{
    let _ = uncross(book, trades, updates)?;
    Ok(true)
}
