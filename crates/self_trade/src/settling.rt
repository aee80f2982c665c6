//! An order that is placed where nothing can refuse it.

ghost use Rattle.std.specs.Prelude.{◌≡◌, ◌≢◌, ◌+◌, ◌≤◌, ◌<◌, ◌++◌, true, false, Some, None, IfSome, length, vec_capacity};
ghost use Rattle.order_book.specs.Queue.{resting, HasRoomFor};
ghost use Rattle.order_book.specs.Book.{named, queue, limit_of, only_rests, can_rest, is_whole, trades_for, trades_of, untraded, rest_of, IsBook, IsUncrossed, IsUntraded, Places};
ghost use Rattle.order_book.specs.Names.{IsStep};

use order_book::{NewOrder, OrderBook, OrderId, Trade};
use std::alloc::Allocator;

/// Places an order that nothing refuses. One for nothing changes nothing.
pub(crate) fn settle<T: Copy, A: Allocator, B: Allocator>(
    book: &mut OrderBook<T, A>,
    order: NewOrder<T>,
    trades: &mut Vec<Trade<T>, B>,
) -> Option<OrderId>
    requires quiet { only_rests order.kind ≡ true → trades_for book.old order ≡ 0 }
    requires whole { is_whole order.kind ≡ true → untraded book.old order ≡ 0 }
    requires room { 0 < rest_of book.old order → HasRoomFor 1 (queue book.old order.side) }
    requires room_for_trades { length trades.old.items + length (trades_of book.old order)
        ≤ vec_capacity trades.old }
    ensures placed { Places book.old order result book.new }
    ensures trades { trades.new.items ≡ trades.old.items ++ trades_of book.old order }
    ensures named { IfSome result (λ id. named book.new id
        ≡ Some (resting order.side id.pointer (limit_of order.side order.kind)
        (rest_of book.old order) order.tag)) }
    ensures others { (other : _) → Some other ≢ result → IsUntraded other (trades_of book.old order)
        → named book.new other ≡ named book.old other }
    ensures kept_room { vec_capacity trades.old ≤ vec_capacity trades.new }
    ensures step { IsStep book.old book.new }
    ensures uncrossed { IsUncrossed book.old → IsUncrossed book.new }
{
    // For the prover: what holds of every book.
    let _ = book.count(order.side);
    if order.quantity == 0 {
        return None;
    }
    match book.place(order, trades) {
        Ok(id) => id,
        Err(_) => unreachable!(),
    }
}
