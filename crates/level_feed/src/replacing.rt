//! What changed by an order that took the place of another.

ghost use Rattle.std.specs.Prelude.{◌≡◌, ℕ, ◌+◌, ◌≤◌, ◌<◌, ◌++◌, Some, length, vec_capacity, OnOk, OnErr};
ghost use Rattle.order_book.specs.Id.{Id};
ghost use Rattle.order_book.specs.Book.{Book, named, replacement, trades_of, without, IsBook, Places};
ghost use Rattle.level_feed.specs.Feed.{updates_replacing, Follows, Publishes};

use crate::level::update_now;
use crate::placing::{after_trades, opposite};
use crate::update::LevelUpdate;
use order_book::{Order, OrderBook, OrderId, OrderKind, Trade};
use std::alloc::{AllocError, Allocator};

/// Appends what changed when [`replace`](OrderBook::replace) replaced an order: an update for each price of the new one's trades, the best
/// one first; one for the old one's price; and one for the new one's, if something of it came to rest at another price.
///
/// `replaced` is the order as [`get`](OrderBook::get) returned it before, `kind` that of the new one, `id` what `replace` returned, and
/// `trades` are those that it appended. A new order of the old one's price and quantity leaves the level as it was; it is updated all the same.
///
/// ```
/// let (mut trades, mut updates) = (Vec::new(rt.alloc()), Vec::new(rt.alloc()));
/// let ask = book.add(Side::Sell, 101, 10, 7)?;
/// if let Some(old) = book.get(ask) {
///     let kind = OrderKind::Limit(103);
///     let id = book.replace(ask, kind, 5, &mut trades)?;
///     after_replacing(&book, old, kind, id, &trades, &mut updates)?;
/// }
/// assert_eq!(rt; updates.len(), 2);
/// assert_eq!(rt; (updates[0].price, updates[0].quantity), (101, 0));
/// assert_eq!(rt; (updates[1].price, updates[1].quantity), (103, 5));
/// ```
///
/// # Errors
///
/// `AllocError`: memory is refused to the list, which is unchanged. The call only reads the book, so it can be made again while the book
/// stays as it is. With room for two updates more than there are trades it never fails.
///
/// # Complexity
///
/// O(1) for each trade, and O(log m) for each update.
pub fn after_replacing<T: Copy, A: Allocator, B: Allocator>(
    book: &OrderBook<T, A>,
    replaced: Order<T>,
    kind: OrderKind,
    id: Option<OrderId>,
    trades: &[Trade<T>],
    updates: &mut Vec<LevelUpdate, B>,
) -> Result<(), AllocError>
    ensures updates { OnOk result (updates.new.items
        ≡ updates.old.items ++ updates_replacing book.now replaced kind id trades.now) }
    ensures follows { OnOk result ((start old : Book T) (name : Id) (quantity : ℕ)
        → Follows start old updates.old.items → IsBook old → named old name ≡ Some replaced
        → Places (without old name) (replacement name replaced.tag kind quantity) id book.now
        → trades.now ≡ trades_of (without old name) (replacement name replaced.tag kind quantity)
        → Follows start book.now updates.new.items) }
    ensures publishes { (old : Book T) (name : Id) (quantity : ℕ)
        → IsBook old → named old name ≡ Some replaced
        → Places (without old name) (replacement name replaced.tag kind quantity) id book.now
        → trades.now ≡ trades_of (without old name) (replacement name replaced.tag kind quantity)
        → Publishes old book.now (updates_replacing book.now replaced kind id trades.now) }
    ensures memory { OnErr result (vec_capacity updates.old < length updates.old.items
        + length (updates_replacing book.now replaced kind id trades.now)) }
    ensures err { OnErr result (updates.new.items ≡ updates.old.items) }
    ensures kept_room { vec_capacity updates.old ≤ vec_capacity updates.new }
{
    append_replacing(book, replaced, kind, id, trades, updates)
}

// Appends the updates. On `Err` the list is unchanged.
fn append_replacing<T: Copy, A: Allocator, B: Allocator>(
    book: &OrderBook<T, A>,
    replaced: Order<T>,
    kind: OrderKind,
    id: Option<OrderId>,
    trades: &[Trade<T>],
    updates: &mut Vec<LevelUpdate, B>,
) -> Result<(), AllocError>
    ensures updates { OnOk result (updates.new.items
        ≡ updates.old.items ++ updates_replacing book.now replaced kind id trades.now) }
    ensures memory { OnErr result (vec_capacity updates.old < length updates.old.items
        + length (updates_replacing book.now replaced kind id trades.now)) }
    ensures err { OnErr result (updates.new.items ≡ updates.old.items) }
    ensures kept_room { vec_capacity updates.old ≤ vec_capacity updates.new }
{
    let before = updates.len();
    let side = replaced.id.side();
    after_trades(book, opposite(side), trades, updates)?;
    if updates
        .push(update_now(book, side, replaced.price))
        .is_err()
    {
        updates.truncate(before);
        return Err(AllocError);
    }
    let limit = kind.limit(side);
    if id.is_none() || limit == replaced.price {
        return Ok(());
    }
    if updates.push(update_now(book, side, limit)).is_err() {
        updates.truncate(before);
        return Err(AllocError);
    }
    Ok(())
}
