//! A book that follows a feed: what happened on a market elsewhere. The ids of its orders are kept under the feed's numbers.

ghost use Rattle.std.specs.Prelude.{◌≡◌, ◌≢◌, nat_eq, true, false, Some, None, IfSome, OnOk, OnErr, IsSome};
ghost use Rattle.std.specs.HashMap.{get};
ghost use Rattle.order_book.specs.Words.{resting};
ghost use Rattle.order_book.specs.Book.{named};

use order_book::{AddingError, OrderBook, OrderId, Side};
use std::collections::HashMap;

/// The ids of resting orders, by the numbers that a feed gives them.
pub type Ids = HashMap<u64, OrderId>;

/// What a feed reports of an order.
#[derive(Clone, Copy, PartialEq, Eq, Debug)]
pub enum Report {
    /// It was added, on a side at a price, for this quantity.
    Added(Side, u64, u64),
    /// So much of it was traded.
    Executed(u64),
    /// So much of it was cancelled.
    Reduced(u64),
    /// It was cancelled.
    Cancelled,
    /// It was replaced by an order with this number, price and quantity.
    Replaced(u64, u64, u64),
}

/// Replays a report on the order with this number. Returns whether the order was there, and as much of it as is reported: if not, a report is
/// missing. On `Err` the book is unchanged.
pub fn replay(
    book: &mut OrderBook,
    ids: &mut Ids,
    number: u64,
    report: Report,
) -> Result<bool, AddingError>
    ensures refused { OnErr result (book.new ≡ book.old) }
{
    match report {
        Report::Added(side, price, quantity) => {
            add(book, ids, number, side, price, quantity)?;
            Ok(true)
        }
        Report::Executed(quantity) => Ok(execute(book, ids, number, quantity)),
        Report::Reduced(quantity) => Ok(reduce(book, ids, number, quantity)),
        Report::Cancelled => Ok(cancel(book, ids, number)),
        Report::Replaced(new, price, quantity) => replace(book, ids, number, new, price, quantity),
    }
}

/// Adds an order, which gets this number. Room for the number is made first, so that on `Err` the book is unchanged.
pub fn add(
    book: &mut OrderBook,
    ids: &mut Ids,
    number: u64,
    side: Side,
    price: u64,
    quantity: u64,
) -> Result<(), AddingError>
    ensures known { OnOk result (IsSome (get nat_eq ids.new number)) }
    ensures rests { OnOk result (IfSome (get nat_eq ids.new number) (λ id. named book.new id
        ≡ Some (resting side id.pointer price quantity number))) }
    ensures refused { OnErr result (book.new ≡ book.old) }
{
    if ids.reserve(1).is_err() {
        return Err(AddingError::AllocError);
    }
    let id = book.add(side, price, quantity, number)?;
    let _ = ids.insert(number, id);
    Ok(())
}

/// Executes so much of an order. Returns whether so much of it was left.
pub fn execute(book: &mut OrderBook, ids: &mut Ids, number: u64, quantity: u64) -> bool
    ensures unknown { get nat_eq ids.old number ≡ None
        → (result ≡ false) × (book.new ≡ book.old) }
    ensures others { IfSome (get nat_eq ids.old number) (λ id. (other : _) → other ≢ id
        → named book.new other ≡ named book.old other) }
{
    let Some(id) = ids.get(&number).copied() else {
        return false;
    };
    let trade = book.execute(id, quantity);
    forget_ended(book, ids, number, id);
    trade.map_or(false, |trade| trade.quantity == quantity)
}

/// Takes so much off an order. Returns whether the order was there.
pub fn reduce(book: &mut OrderBook, ids: &mut Ids, number: u64, quantity: u64) -> bool
    ensures unknown { get nat_eq ids.old number ≡ None
        → (result ≡ false) × (book.new ≡ book.old) }
    ensures others { IfSome (get nat_eq ids.old number) (λ id. (other : _) → other ≢ id
        → named book.new other ≡ named book.old other) }
{
    let Some(id) = ids.get(&number).copied() else {
        return false;
    };
    let left = book.reduce(id, quantity);
    forget_ended(book, ids, number, id);
    left.is_some()
}

/// Cancels an order, and forgets its number. Returns whether the order was there.
pub fn cancel(book: &mut OrderBook, ids: &mut Ids, number: u64) -> bool
    ensures unknown { get nat_eq ids.old number ≡ None
        → (result ≡ false) × (book.new ≡ book.old) }
    ensures gone { IfSome (get nat_eq ids.old number) (λ id. named book.new id ≡ None) }
    ensures forgotten { get nat_eq ids.new number ≡ None }
{
    match ids.remove(&number) {
        Some(id) => book.cancel(id).is_some(),
        None => false,
    }
}

/// Adds the order that replaces one, under its own number, and removes the old one: in this order, so that on `Err` the book is unchanged.
/// Returns whether the old one was there. The new one doesn't trade, as with `OrderBook::replace` it might.
pub fn replace(
    book: &mut OrderBook,
    ids: &mut Ids,
    number: u64,
    new: u64,
    price: u64,
    quantity: u64,
) -> Result<bool, AddingError>
    ensures refused { OnErr result (book.new ≡ book.old) }
{
    let Some(id) = ids.get(&number).copied() else {
        return Ok(false);
    };
    add(book, ids, new, id.side(), price, quantity)?;
    if new != number {
        let _ = ids.remove(&number);
    }
    Ok(book.cancel(id).is_some())
}

// Forgets the number of an order of which nothing is left.
fn forget_ended(book: &OrderBook, ids: &mut Ids, number: u64, id: OrderId) {
    if book.get(id).is_none() {
        let _ = ids.remove(&number);
    }
}
