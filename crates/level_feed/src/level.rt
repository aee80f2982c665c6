//! The update of one price level.

ghost use Rattle.std.specs.Prelude.{◌≡◌, ℕ, List, [], ◌∷◌, ◌++◌, Some};
ghost use Rattle.order_book.specs.{Id.Id, declared.order.Order.Order, declared.order.Trade.Trade};
ghost use Rattle.order_book.specs.Words.{executed, left_of};
ghost use Rattle.order_book.specs.Book.{Book, named, opposite, queue, with_less, without, RestsOrNot};
ghost use Rattle.level_feed.specs.Feed.{update_of, Follows};
ghost use Rattle.level_feed.specs.declared.update.LevelUpdate.{LevelUpdate};

use crate::update::LevelUpdate;
use order_book::{OrderBook, Side};
use std::alloc::Allocator;

/// Returns what rests at a price of a side, as an update. O(log m).
///
/// It is all that changed if one order was added, cancelled, reduced or executed, on that side and at that price: the clauses `added`,
/// `cancelled`, `reduced` and `executed` say that if some updates led from any moment to the book before, then those and this one lead to the
/// book as it is now.
///
/// ```
/// let ask = book.add(Side::Sell, 101, 10, 7)?;
/// book.add(Side::Sell, 101, 4, 8)?;
/// book.execute(ask, 3);
/// let update = level_update(&book, Side::Sell, 101);
/// assert_eq!(rt; (update.quantity, update.count), (11, 2));
/// assert_eq!(rt; level_update(&book, Side::Sell, 102).count, 0);
/// ```
pub fn level_update<T: Copy, A: Allocator>(
    book: &OrderBook<T, A>,
    side: Side,
    price: u64,
) -> LevelUpdate
    ensures value { result ≡ update_of book.now side price }
    ensures added { (start old : Book T) (us : List LevelUpdate) (id : Id) (quantity : ℕ) (tag : T)
        → Follows start old us
        → RestsOrNot (queue old side) price quantity tag (Some id) (queue book.now side)
        → queue book.now (opposite side) ≡ queue old (opposite side)
        → Follows start book.now (us ++ result ∷ []) }
    ensures cancelled { (start old : Book T) (us : List LevelUpdate) (id : Id) (order : Order T)
        → Follows start old us → Some order ≡ named old id → book.now ≡ without old id
        → side ≡ id.side → price ≡ order.price
        → Follows start book.now (us ++ result ∷ []) }
    ensures reduced { (start old : Book T) (us : List LevelUpdate) (id : Id) (order : Order T) (left : ℕ)
        → Follows start old us → Some order ≡ named old id → book.now ≡ with_less old id left
        → side ≡ id.side → price ≡ order.price
        → Follows start book.now (us ++ result ∷ []) }
    ensures executed { (start old : Book T) (us : List LevelUpdate) (id : Id) (quantity : ℕ) (trade : Trade T)
        → Follows start old us → Some trade ≡ executed (named old id) quantity
        → book.now ≡ with_less old id (left_of (named old id) quantity)
        → side ≡ id.side → price ≡ trade.price
        → Follows start book.now (us ++ result ∷ []) }
{
    update_now(book, side, price)
}

// What rests at a price of a side, as an update.
pub(crate) fn update_now<T: Copy, A: Allocator>(
    book: &OrderBook<T, A>,
    side: Side,
    price: u64,
) -> LevelUpdate
    ensures { result ≡ update_of book.now side price }
{
    let (quantity, count) = match book.level_at(side, price) {
        Some(level) => (level.quantity, level.count),
        None => (0, 0),
    };
    LevelUpdate {
        side,
        price,
        quantity,
        count,
    }
}
