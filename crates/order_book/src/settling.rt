//! What an order does to the two sides of a book.

ghost use Rattle.std.specs.Prelude.{◌≡◌, ◌≢◌, ◌↔◌, ◌+◌, ◌≤◌, ◌<◌, ◌⊎◌, ℕ, Err, Some, None, length, vec_capacity, if◌then◌else◌};
ghost use Rattle.std.specs.Prelude.{IfOk, OnOk, OnErr, IfSome, IsOk};
ghost use Rattle.order_book.specs.Queue.{most_entries, order_of, resting, with_left, HasRoomFor};
ghost use Rattle.order_book.specs.Book.{limit_of, can_rest, dealt, deals, remainder, IsFull, LacksRoom, RestsOrNot};
ghost use Rattle.order_book.specs.Layout.{Settles};

use crate::new_order::NewOrder;
use crate::order::{OrderId, Trade};
use crate::queue::OrderQueue;
use sorted_arena::{P0, ReallocationError};
use std::alloc::{AllocError, Allocator};

// Puts what is left of an order on its side.
fn rest<T: Copy, A: Allocator>(
    own: &mut OrderQueue<T, A>,
    price: u64,
    left: u64,
    tag: T,
) -> Result<Option<OrderId>, ReallocationError>
    ensures rests { IfOk result (λ id. RestsOrNot own.old price left tag id own.new) }
    ensures names { IfOk result (λ id. IfSome id (λ i. order_of own.new.orders i.pointer
        ≡ Some (resting own.old.side i.pointer price left tag))) }
    ensures full { (result ≡ Err ReallocationError.BeyondMaxCapacity)
        ↔ ((0 < left) × (length own.old.orders ≡ most_entries)) }
    ensures memory { result ≡ Err ReallocationError.AllocError
        → (0 < left) × IsFull own.old × (length own.old.orders ≢ most_entries) }
    ensures fits { HasRoomFor 1 own.old → IsOk result }
    ensures side { own.new.side ≡ own.old.side }
    ensures err { OnErr result (own.new ≡ own.old) }
{
    if left == 0 {
        return Ok(None);
    }
    let pointer = own.put(price, left, tag)?;
    Ok(Some(OrderId::new(own.side(), pointer)))
}

// How much of an order rests, of which so much is left.
fn rest_of<T: Copy>(order: NewOrder<T>, left: u64) -> u64
    ensures { result ≡ (if can_rest order.kind then left else 0) }
{
    if order.kind.can_rest() { left } else { 0 }
}

/// Trades with the other side, and puts what is left on its own if the order's kind rests.
pub(crate) fn settle<T: Copy, A: Allocator, B: Allocator>(
    own: &mut OrderQueue<T, A>,
    other: &mut OrderQueue<T, A>,
    order: NewOrder<T>,
    trades: &mut Vec<Trade<T>, B>,
) -> Result<Option<OrderId>, ReallocationError>
    ensures rests { IfOk result (λ id. RestsOrNot own.old (limit_of order.side order.kind)
        (remainder other.old order) order.tag id own.new) }
    ensures settles { Settles own.old other.old order trades.old.items result
        own.new other.new trades.new.items }
    ensures full { (result ≡ Err ReallocationError.BeyondMaxCapacity)
        ↔ ((0 < remainder other.old order) × (length own.old.orders ≡ most_entries)) }
    ensures memory { result ≡ Err ReallocationError.AllocError
        → LacksRoom (vec_capacity trades.old) (length trades.old.items) (deals other.old order)
        ⊎ ((0 < remainder other.old order) × IsFull own.old
        × (length own.old.orders ≢ most_entries)) }
    ensures own_others { IfOk result (λ id. (p : ℕ × ℕ)
        → Some (record { side = own.old.side; pointer = p }) ≢ id
        → order_of own.new.orders p ≡ order_of own.old.orders p) }
    ensures quiet { dealt other.old order ≡ 0
        → OnOk result (trades.new.items ≡ trades.old.items) }
    ensures room { OnOk result
        ((n : ℕ) → HasRoomFor (n + 1) own.old → HasRoomFor n own.new) }
    ensures other_room { OnOk result
        ((n : ℕ) → HasRoomFor n other.old → HasRoomFor n other.new) }
    ensures kept_room { vec_capacity trades.old ≤ vec_capacity trades.new }
    ensures own_side { own.new.side ≡ own.old.side }
    ensures other_side { other.new.side ≡ other.old.side }
{
    let price = order.kind.limit(order.side);
    // If the side is full, that is the refusal, also if the trades would be refused memory.
    if own.len() == OrderQueue::<T, A>::limit() {
        let offered = other.offered(price, order.quantity);
        if rest_of(order, order.quantity - offered) > 0 {
            return Err(ReallocationError::BeyondMaxCapacity);
        }
    }
    let before = trades.len();
    let Ok(left) = other.offer(price, order.quantity, trades) else {
        return Err(ReallocationError::AllocError);
    };
    match rest(own, price, rest_of(order, left), order.tag) {
        Ok(id) => {
            other.take(order.quantity - left);
            Ok(id)
        }
        Err(refusal) => {
            trades.truncate(before);
            Err(refusal)
        }
    }
}

/// Removes an order, and settles another one in its place. It needs no room on its own side.
pub(crate) fn settle_anew<T: Copy, A: Allocator, B: Allocator>(
    own: &mut OrderQueue<T, A>,
    other: &mut OrderQueue<T, A>,
    pointer: P0,
    order: NewOrder<T>,
    trades: &mut Vec<Trade<T>, B>,
) -> Result<Option<OrderId>, AllocError>
    requires { order_of own.old.orders pointer ≢ None }
    ensures rests { IfOk result
        (λ id. RestsOrNot (with_left own.old pointer) (limit_of order.side order.kind)
        (remainder other.old order) order.tag id own.new) }
    ensures settles { Settles own.old other.old order trades.old.items result
        own.new other.new trades.new.items }
    ensures memory { OnErr result (LacksRoom (vec_capacity trades.old)
        (length trades.old.items) (deals other.old order)) }
    ensures quiet { dealt other.old order ≡ 0
        → OnOk result (trades.new.items ≡ trades.old.items) }
    ensures own_others { IfOk result (λ id. (p : ℕ × ℕ)
        → Some (record { side = own.old.side; pointer = p }) ≢ id → p ≢ pointer
        → order_of own.new.orders p ≡ order_of own.old.orders p) }
    ensures room { OnOk result
        ((n : ℕ) → HasRoomFor n own.old → HasRoomFor n own.new) }
    ensures other_room { OnOk result
        ((n : ℕ) → HasRoomFor n other.old → HasRoomFor n other.new) }
    ensures kept_room { vec_capacity trades.old ≤ vec_capacity trades.new }
    ensures own_side { own.new.side ≡ own.old.side }
    ensures other_side { other.new.side ≡ other.old.side }
{
    let price = order.kind.limit(order.side);
    let left = other.offer(price, order.quantity, trades)?;
    let _ = own.remove(pointer);
    other.take(order.quantity - left);
    match rest(own, price, rest_of(order, left), order.tag) {
        Ok(id) => Ok(id),
        // the removed order has left its room
        Err(_) => unreachable!(),
    }
}
