//! What changed by an order that came in.

ghost use Rattle.std.specs.Prelude.{◌≡◌, ◌+◌, ◌≤◌, ◌<◌, ◌++◌, length, vec_capacity, OnOk, OnErr};
ghost use Rattle.order_book.specs.Book.{Book, opposite, trades_of, IsBook, Places};
ghost use Rattle.level_feed.specs.Feed.{prices_of, updates_after, updates_at, AreChanges, Follows, Publishes};

use crate::level::update_now;
use crate::update::LevelUpdate;
use order_book::{NewOrder, OrderBook, OrderId, Side, Trade};
use std::alloc::{AllocError, Allocator};

// The side with which a side trades.
pub(crate) fn opposite(side: Side) -> Side
    ensures { result ≡ opposite side }
{
    match side {
        Side::Buy => Side::Sell,
        Side::Sell => Side::Buy,
    }
}

// Appends an update for each price of trades with orders of a side. On `Err` the list is unchanged.
pub(crate) fn after_trades<T: Copy, A: Allocator, B: Allocator>(
    book: &OrderBook<T, A>,
    side: Side,
    trades: &[Trade<T>],
    updates: &mut Vec<LevelUpdate, B>,
) -> Result<(), AllocError>
    ensures updates { OnOk result (updates.new.items
        ≡ updates.old.items ++ updates_at book.now side (prices_of trades.now)) }
    ensures memory { OnErr result (vec_capacity updates.old < length updates.old.items
        + length (updates_at book.now side (prices_of trades.now))) }
    ensures err { OnErr result (updates.new.items ≡ updates.old.items) }
    ensures kept_room { vec_capacity updates.old ≤ vec_capacity updates.new }
{
    let before = updates.len();
    let mut last = None;
    for trade in trades {
        if last == Some(trade.price) {
            continue;
        }
        if updates.push(update_now(book, side, trade.price)).is_err() {
            updates.truncate(before);
            return Err(AllocError);
        }
        last = Some(trade.price);
    }
    Ok(())
}

/// Appends what changed when [`place`](OrderBook::place) let an order in: an update for each price of its trades, the best one first, and
/// then one for the order's own price if something of it came to rest. No level is updated twice, and none that did not change.
///
/// `order` is the order that came in, `id` what `place` returned, and `trades` are those that it appended.
///
/// The clause `follows` says that a subscriber stays true: if the updates of the list led from some moment to the book before `place`, they
/// lead to the book as it is now. An update says what is left, so a subscriber that misses one is right again at the next one of its level.
/// The best price is not published as such: it is [`top`](OrderBook::top) of the book, and the best level that a subscriber has.
///
/// ```
/// let (mut trades, mut updates) = (Vec::new(rt.alloc()), Vec::new(rt.alloc()));
/// book.add(Side::Sell, 101, 10, 7)?;
/// let order = NewOrder::limit(Side::Buy, 102, 12);
/// let id = book.place(order, &mut trades)?;
/// after_placing(&book, order, id, &trades, &mut updates)?;
/// assert_eq!(rt; updates.len(), 2);
/// assert_eq!(rt; (updates[0].side, updates[0].price, updates[0].quantity), (Side::Sell, 101, 0));
/// assert_eq!(rt; (updates[1].side, updates[1].price, updates[1].quantity), (Side::Buy, 102, 2));
/// ```
///
/// # Errors
///
/// `AllocError`: memory is refused to the list, which is unchanged. The call only reads the book, so it can be made again while the book
/// stays as it is. With room for one update more than there are trades it never fails.
///
/// # Complexity
///
/// O(1) for each trade, and O(log m) for each update.
pub fn after_placing<T: Copy, A: Allocator, B: Allocator>(
    book: &OrderBook<T, A>,
    order: NewOrder<T>,
    id: Option<OrderId>,
    trades: &[Trade<T>],
    updates: &mut Vec<LevelUpdate, B>,
) -> Result<(), AllocError>
    ensures updates { OnOk result (updates.new.items
        ≡ updates.old.items ++ updates_after book.now order id trades.now) }
    ensures follows { OnOk result ((start old : Book T)
        → Follows start old updates.old.items → IsBook old → Places old order id book.now
        → trades.now ≡ trades_of old order → Follows start book.now updates.new.items) }
    ensures publishes { (old : Book T) → IsBook old → Places old order id book.now
        → trades.now ≡ trades_of old order
        → Publishes old book.now (updates_after book.now order id trades.now) }
    ensures changes { (old : Book T) → IsBook old → Places old order id book.now
        → trades.now ≡ trades_of old order
        → AreChanges old (updates_after book.now order id trades.now) }
    ensures memory { OnErr result (vec_capacity updates.old < length updates.old.items
        + length (updates_after book.now order id trades.now)) }
    ensures err { OnErr result (updates.new.items ≡ updates.old.items) }
    ensures kept_room { vec_capacity updates.old ≤ vec_capacity updates.new }
{
    append_after(book, order, id, trades, updates)
}

// Appends the updates. On `Err` the list is unchanged.
fn append_after<T: Copy, A: Allocator, B: Allocator>(
    book: &OrderBook<T, A>,
    order: NewOrder<T>,
    id: Option<OrderId>,
    trades: &[Trade<T>],
    updates: &mut Vec<LevelUpdate, B>,
) -> Result<(), AllocError>
    ensures updates { OnOk result (updates.new.items
        ≡ updates.old.items ++ updates_after book.now order id trades.now) }
    ensures memory { OnErr result (vec_capacity updates.old < length updates.old.items
        + length (updates_after book.now order id trades.now)) }
    ensures err { OnErr result (updates.new.items ≡ updates.old.items) }
    ensures kept_room { vec_capacity updates.old ≤ vec_capacity updates.new }
{
    let before = updates.len();
    after_trades(book, opposite(order.side), trades, updates)?;
    if id.is_none() {
        return Ok(());
    }
    let rest = update_now(book, order.side, order.kind.limit(order.side));
    if updates.push(rest).is_err() {
        updates.truncate(before);
        return Err(AllocError);
    }
    Ok(())
}
