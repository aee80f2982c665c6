//! `place`: an order that may not trade with each of those that it meets.

ghost use Rattle.std.specs.Prelude.{◌≡◌, ◌≢◌, ◌↔◌, ◌⊎◌, ◌+◌, ◌-◌, ◌≤◌, ◌<◌, ◌++◌, Bool, List, true, false, Ok, Err, Some, None, length, vec_capacity, if◌then◌else◌};
ghost use Rattle.std.specs.Prelude.{IfOk, OnOk, OnErr, IfSome, IfNone};
ghost use Rattle.order_book.specs.Queue.{most_entries, HasRoomFor};
ghost use Rattle.order_book.specs.declared.{order.Order.Order, order.Trade.Trade};
ghost use Rattle.order_book.specs.Book.{named, opposite, queue, limit_of, can_rest, only_rests, is_whole, IsBook, IsFull, IsUncrossed, IsUntraded};
ghost use Rattle.order_book.specs.Names.{IsStep};
ghost use Rattle.self_trade.specs.Prevention.{answers_by, appended, facing, AllowsOnly, ArePassing, AreTested, Asks, IsNoneOf, IsTest, Outcome, RefusesOnly};
ghost use Rattle.self_trade.specs.Survey.{rest_after, MakesRoom};

use crate::cancelling::cancel_each;
use crate::policy::SelfTrade;
use crate::settling::settle;
use crate::survey::{Survey, survey_of};
use order_book::{NewOrder, Order, OrderBook, OrderId, OrderKind, OrderQueue, PlacingError, Trade};
use std::alloc::Allocator;

/// Places an order that may not trade with some of the resting orders, as with those of its own owner.
///
/// The order meets the resting orders of the other side within its limit, the best first, until nothing is left of it. `may_trade` is asked
/// once about each order that it meets. It trades with those for which the answer is `true`; where it is `false`, `policy` says which of the
/// two orders is cancelled. Otherwise it is placed as by [`OrderBook::place`]: its trades are appended to `trades`, and the id of what rests is
/// returned. The resting orders that are cancelled are appended to `cancelled`.
///
/// An order that is cancelled on the way keeps its trades and does not rest: it is placed as an immediate-or-cancel order for what it could
/// trade before. In contracts the answers are a list: `outcome` says what comes of the answers of the run, and `by_test` of those that a test
/// computes.
///
/// ```
/// let mut book = OrderBook::new(rt.alloc());
/// let mut trades = Vec::new(rt.alloc());
/// let mut cancelled = Vec::new(rt.alloc());
/// book.place(NewOrder::limit(Side::Sell, 101, 10).with_tag(7), &mut trades)?;
/// book.place(NewOrder::limit(Side::Sell, 102, 10).with_tag(8), &mut trades)?;
/// let order = NewOrder::limit(Side::Buy, 102, 4).with_tag(7);
/// let is_foreign = |resting: Order| resting.tag != 7;
/// place(&mut book, order, SelfTrade::CancelResting, is_foreign, &mut trades, &mut cancelled)?;
/// assert_eq!(rt; cancelled.len(), 1);
/// assert_eq!(rt; trades.len(), 1);
/// assert_eq!(rt; book.best_ask().map(|ask| (ask.price, ask.quantity)), Some((102, 6)));
/// ```
///
/// # Errors
///
/// The book and both lists are unchanged. The first that holds is returned.
/// - `NoQuantity`: the quantity is 0.
/// - `WouldTrade`: a post-only order meets an order with which it may trade.
/// - `WouldNotFill`: a fill-or-kill order may not trade as a whole with the orders that it meets.
/// - `BeyondMaxCapacity`: something would rest, and its side has 4,294,967,294 orders.
/// - `AllocError`: memory is refused to one of the lists, or to the order's side, which grows only if something would rest and it is full.
///
/// # Complexity
///
/// One call of `may_trade` for each order that is met, and O(1) beside; then as [`OrderBook::cancel`] for each order that is cancelled, and as
/// [`OrderBook::place`].
pub fn place<T: Copy, A: Allocator, F: FnMut(Order<T>) -> bool, B: Allocator, C: Allocator>(
    book: &mut OrderBook<T, A>,
    order: NewOrder<T>,
    policy: SelfTrade,
    may_trade: F,
    trades: &mut Vec<Trade<T>, B>,
    cancelled: &mut Vec<Order<T>, C>,
) -> Result<Option<OrderId>, PlacingError>
    requires { F.IsAlwaysCallable may_trade }
    ensures outcome { (answers : List Bool) × Asks F.FnMut may_trade policy book.old order answers
        × Outcome policy book.old order answers result book.new
        trades.old.items trades.new.items cancelled.old.items cancelled.new.items
        (vec_capacity trades.old - length trades.old.items)
        (vec_capacity cancelled.old - length cancelled.old.items) }
    // The same, where the closure computes a test.
    ensures by_test { (allows : Order T → Bool) → IsTest F.FnMut may_trade allows
        → Outcome policy book.old order (answers_by allows policy (opposite order.side)
        (limit_of order.side order.kind) order.quantity (facing book.old order)) result book.new
        trades.old.items trades.new.items cancelled.old.items cancelled.new.items
        (vec_capacity trades.old - length trades.old.items)
        (vec_capacity cancelled.old - length cancelled.old.items) }
    ensures allowed { (test : Trade T → Bool) → AllowsOnly F.FnMut may_trade test
        → OnOk result (ArePassing test (appended trades.old.items trades.new.items)) }
    ensures refused { (test : Order T → Bool) → RefusesOnly F.FnMut may_trade test
        → OnOk result (AreTested test
        (appended cancelled.old.items cancelled.new.items)) }
    ensures kept_room { vec_capacity trades.old ≤ vec_capacity trades.new }
    ensures kept_room_for_cancelled { vec_capacity cancelled.old
        ≤ vec_capacity cancelled.new }
    ensures nothing { (result ≡ Err PlacingError.NoQuantity) ↔ (order.quantity ≡ 0) }
    ensures incoming { policy ≡ SelfTrade.CancelIncoming
        → cancelled.new.items ≡ cancelled.old.items }
    ensures others { IfOk result (λ id. (other : _) → Some other ≢ id
        → IsUntraded other (appended trades.old.items trades.new.items)
        → IsNoneOf other (appended cancelled.old.items cancelled.new.items)
        → named book.new other ≡ named book.old other) }
    ensures at_once { can_rest order.kind ≡ false → IfOk result (λ id. id ≡ None) }
    ensures step { IsStep book.old book.new }
    ensures uncrossed { IsUncrossed book.old → IsUncrossed book.new }
    ensures err { OnErr result (book.new ≡ book.old) }
    ensures kept { OnErr result (trades.new.items ≡ trades.old.items) }
    ensures kept_cancelled { OnErr result (cancelled.new.items ≡ cancelled.old.items) }
{
    // For the prover: what holds of every book.
    let _ = book.count(order.side);
    if order.quantity == 0 {
        return Err(PlacingError::NoQuantity);
    }
    let before = cancelled.len();
    let survey = survey_of(book, order, policy, may_trade, cancelled);
    match make_room(book, order, survey, trades) {
        Ok(()) => {
            cancel_each(book, &cancelled[before..]);
            Ok(settle(book, admitted(order, survey), trades))
        }
        Err(refusal) => {
            cancelled.truncate(before);
            Err(refusal)
        }
    }
}

// The order as it is placed: as it came, or if it is cancelled on the way, as one that trades what it could before.
fn admitted<T: Copy>(order: NewOrder<T>, survey: Survey) -> NewOrder<T>
    requires { survey.left ≤ order.quantity }
    ensures { result ≡ (if survey.is_stopped then record order {
      kind = OrderKind.ImmediateOrCancel (limit_of order.side order.kind);
      quantity = order.quantity - survey.left;
    } else order) }
{
    if !survey.is_stopped {
        return order;
    }
    NewOrder {
        kind: OrderKind::ImmediateOrCancel(order.kind.limit(order.side)),
        quantity: order.quantity - survey.left,
        ..order
    }
}

// Why an order's kind or a full side does not let it in, if so.
fn refusal<T: Copy, A: Allocator>(
    book: &OrderBook<T, A>,
    order: NewOrder<T>,
    survey: Survey,
) -> Option<PlacingError>
    ensures would_trade { (result ≡ Some PlacingError.WouldTrade)
        ↔ ((only_rests order.kind ≡ true) × (survey.left < order.quantity)) }
    ensures would_not_fill { (result ≡ Some PlacingError.WouldNotFill)
        ↔ ((is_whole order.kind ≡ true) × (0 < survey.left)) }
    ensures full { (result ≡ Some PlacingError.BeyondMaxCapacity)
        ↔ ((0 < rest_after survey order)
        × (length (queue book.now order.side).orders ≡ most_entries)
        × (only_rests order.kind ≡ true → order.quantity ≤ survey.left)) }
    ensures something { result ≢ Some PlacingError.NoQuantity }
    ensures memory { result ≢ Some PlacingError.AllocError }
    ensures quiet { IfNone result (only_rests order.kind ≡ true → order.quantity ≤ survey.left) }
    ensures whole { IfNone result (is_whole order.kind ≡ true → survey.left ≡ 0) }
    ensures not_full { IfNone result (0 < rest_after survey order
        → length (queue book.now order.side).orders ≢ most_entries) }
{
    if order.kind.only_rests() && survey.left < order.quantity {
        return Some(PlacingError::WouldTrade);
    }
    if order.kind.is_whole() && survey.left > 0 {
        return Some(PlacingError::WouldNotFill);
    }
    if survey.rest(order) > 0 && book.count(order.side) == OrderQueue::<T, A>::limit() {
        return Some(PlacingError::BeyondMaxCapacity);
    }
    None
}

// Makes room for the trades, and on the order's side for what rests of it. If it is refused, the book stays as it is.
fn make_room<T: Copy, A: Allocator, B: Allocator>(
    book: &mut OrderBook<T, A>,
    order: NewOrder<T>,
    survey: Survey,
    trades: &mut Vec<Trade<T>, B>,
) -> Result<(), PlacingError>
    ensures would_trade { (result ≡ Err PlacingError.WouldTrade)
        ↔ ((only_rests order.kind ≡ true) × (survey.left < order.quantity)) }
    ensures would_not_fill { (result ≡ Err PlacingError.WouldNotFill)
        ↔ ((is_whole order.kind ≡ true) × (0 < survey.left)) }
    ensures full { (result ≡ Err PlacingError.BeyondMaxCapacity)
        ↔ ((0 < rest_after survey order)
        × (length (queue book.old order.side).orders ≡ most_entries)
        × (only_rests order.kind ≡ true → order.quantity ≤ survey.left)) }
    ensures something { result ≢ Err PlacingError.NoQuantity }
    ensures memory { result ≡ Err PlacingError.AllocError
        → (vec_capacity trades.old < length trades.old.items + survey.count)
        ⊎ (survey.lacks_room ≡ true)
        ⊎ ((0 < rest_after survey order) × IsFull (queue book.old order.side)
        × (length (queue book.old order.side).orders ≢ most_entries)) }
    ensures quiet { OnOk result (only_rests order.kind ≡ true → order.quantity ≤ survey.left) }
    ensures whole { OnOk result (is_whole order.kind ≡ true → survey.left ≡ 0) }
    ensures listed { OnOk result (survey.lacks_room ≡ false) }
    ensures room_for_trades { OnOk result (length trades.new.items + survey.count
        ≤ vec_capacity trades.new) }
    ensures room { OnOk result (0 < rest_after survey order
        → HasRoomFor 1 (queue book.new order.side)) }
    ensures made { OnOk result (MakesRoom book.old book.new order.side
        (rest_after survey order)) }
    ensures lawful { OnOk result (IsBook book.new) }
    ensures uncrossed { IsUncrossed book.old → IsUncrossed book.new }
    ensures trades { trades.new.items ≡ trades.old.items }
    ensures kept_room { vec_capacity trades.old ≤ vec_capacity trades.new }
    ensures err { OnErr result (book.new ≡ book.old) }
{
    if let Some(refusal) = refusal(book, order, survey) {
        return Err(refusal);
    }
    if survey.lacks_room || trades.reserve(survey.count).is_err() {
        return Err(PlacingError::AllocError);
    }
    // For the prover: what holds of every book.
    let _ = book.count(order.side);
    if survey.rest(order) > 0 && book.reserve(order.side, 1).is_err() {
        return Err(PlacingError::AllocError);
    }
    let _ = book.count(order.side);
    Ok(())
}
