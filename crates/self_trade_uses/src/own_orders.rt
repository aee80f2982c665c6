//! A trader whose orders never trade with each other.

ghost use Rattle.std.specs.Prelude.{◌≡◌, ◌≢◌, ◌++◌, ◌==◌, not, false, Some, IfOk, OnErr, OnOk};
ghost use Rattle.self_trade.specs.Book.{named, IsUncrossed, IsUntraded};
ghost use Rattle.self_trade.specs.Prevention.{appended, ArePassing, AreTested};

use order_book::{NewOrder, Order, OrderBook, OrderId, PlacingError, Trade};
use self_trade::{SelfTrade, place};

/// Places an order of the owner whose number is its tag. Whatever the policy, none of its trades is with an order of the same owner, and only
/// orders of that owner are cancelled. On `Err` nothing has changed.
pub fn place_own(
    book: &mut OrderBook,
    order: NewOrder,
    policy: SelfTrade,
    trades: &mut Vec<Trade>,
    cancelled: &mut Vec<Order>,
) -> Result<Option<OrderId>, PlacingError>
    ensures apart { OnOk result (ArePassing (λ trade. not (trade.tag == order.tag))
        (appended trades.old.items trades.new.items)) }
    ensures own { OnOk result (AreTested (λ resting. resting.tag == order.tag)
        (appended cancelled.old.items cancelled.new.items)) }
    ensures uncrossed { IsUncrossed book.old → IsUncrossed book.new }
    ensures refused { OnErr result (book.new ≡ book.old) }
    ensures kept { OnErr result (trades.new.items ≡ trades.old.items) }
    ensures kept_cancelled { OnErr result (cancelled.new.items ≡ cancelled.old.items) }
{
    let owner = order.tag;
    let is_foreign = |resting: Order| resting.tag != owner;
    place(book, order, policy, is_foreign, trades, cancelled)
}

/// Places an order of an owner whose resting orders have precedence. None of them is cancelled: orders leave by trades alone, and none of these is
/// with an order of the owner.
pub fn place_behind_own(
    book: &mut OrderBook,
    order: NewOrder,
    trades: &mut Vec<Trade>,
    cancelled: &mut Vec<Order>,
) -> Result<Option<OrderId>, PlacingError>
    ensures apart { OnOk result (ArePassing (λ trade. not (trade.tag == order.tag))
        (appended trades.old.items trades.new.items)) }
    ensures kept { IfOk result (λ id. (other : _) → Some other ≢ id
        → IsUntraded other (appended trades.old.items trades.new.items)
        → named book.new other ≡ named book.old other) }
    ensures cancelled { cancelled.new.items ≡ cancelled.old.items }
{
    let owner = order.tag;
    let is_foreign = |resting: Order| resting.tag != owner;
    place(
        book,
        order,
        SelfTrade::CancelIncoming,
        is_foreign,
        trades,
        cancelled,
    )
}
