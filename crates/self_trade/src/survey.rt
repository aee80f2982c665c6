//! `Survey`: what is found out about the orders that an incoming order meets, before anything is changed.

ghost use Rattle.std.specs.Prelude.{◌≡◌, ◌⊎◌, ◌+◌, ◌-◌, ◌≤◌, ◌<◌, ◌^◌, ◌++◌, ◌&&◌, [], ◌∷◌, true, false, not, length, vec_capacity, if◌then◌else◌};
ghost use Rattle.order_book.specs.Queue.{meets};
ghost use Rattle.order_book.specs.Book.{opposite, IsBook};
ghost use Rattle.self_trade.specs.Prevention.{cancels_incoming, cancels_resting};
ghost use Rattle.self_trade.specs.Survey.{rest_after, Surveys};

use crate::policy::SelfTrade;
use order_book::{NewOrder, Order, OrderBook, Side};
use std::alloc::Allocator;

/// What an order comes to among the resting orders that it meets.
#[derive(Clone, Copy)]
pub(crate) struct Survey {
    /// How much of it is left.
    pub(crate) left: u64,
    /// With how many orders it trades.
    pub(crate) count: usize,
    /// Whether it is cancelled, because it may not trade with one of them.
    pub(crate) is_stopped: bool,
    /// Whether the list of the cancelled orders was refused memory.
    pub(crate) lacks_room: bool,
}

/// Returns the side with which a side trades.
pub(crate) fn opposite(side: Side) -> Side
    ensures { result ≡ opposite side }
{
    match side {
        Side::Buy => Side::Sell,
        Side::Sell => Side::Buy,
    }
}

impl Survey {
    /// Returns how much of the order rests.
    pub(crate) fn rest<T: Copy>(self, order: NewOrder<T>) -> u64
        ensures { result ≡ rest_after self order }
    {
        if !self.is_stopped && order.kind.can_rest() {
            self.left
        } else {
            0
        }
    }

    // Returns whether the order does not meet this one of a side.
    fn is_done<T: Copy>(self, side: Side, limit: u64, resting: Order<T>) -> bool
        ensures done { result ≡ true → (self.is_stopped ≡ true)
            ⊎ (self.left ≡ 0) ⊎ (meets side resting.price limit ≡ false) }
        ensures met { result ≡ false → (self.is_stopped ≡ false)
            × (0 < self.left) × (meets side resting.price limit ≡ true) }
    {
        self.is_stopped || self.left == 0 || !side.meets(resting.price, limit)
    }

    // Returns the survey after an order was met. One that is cancelled is appended to the list.
    fn after<T: Copy, C: Allocator>(
        self,
        policy: SelfTrade,
        resting: Order<T>,
        is_allowed: bool,
        cancelled: &mut Vec<Order<T>, C>,
    ) -> Survey
        requires { self.count + 1 < 2 ^ 64 }
        ensures left { result.left
            ≡ (if is_allowed then self.left - resting.quantity else self.left) }
        ensures count { result.count ≡ (if is_allowed then self.count + 1 else self.count) }
        ensures stopped { result.is_stopped
            ≡ (if is_allowed then self.is_stopped else cancels_incoming policy) }
        ensures listed { result.lacks_room ≡ false → (self.lacks_room ≡ false)
            × (cancelled.new.items ≡ cancelled.old.items
            ++ (if not is_allowed && cancels_resting policy then resting ∷ [] else [])) }
        ensures lacks { result.lacks_room ≡ true → (self.lacks_room ≡ true)
            ⊎ ((not is_allowed && cancels_resting policy ≡ true)
            × (vec_capacity cancelled.old ≤ length cancelled.old.items)) }
        ensures kept { (cancelled.new.items ≡ cancelled.old.items)
            ⊎ ((not is_allowed && cancels_resting policy ≡ true)
            × (cancelled.new.items ≡ cancelled.old.items ++ resting ∷ [])) }
        ensures capacity { vec_capacity cancelled.old ≤ vec_capacity cancelled.new }
    {
        if is_allowed {
            return Survey {
                left: self.left.saturating_sub(resting.quantity),
                count: self.count + 1,
                ..self
            };
        }
        let is_refused = policy.cancels_resting() && cancelled.push(resting).is_err();
        Survey {
            is_stopped: policy.cancels_incoming(),
            lacks_room: self.lacks_room || is_refused,
            ..self
        }
    }
}

/// Asks about each order that `order` meets, and appends those that are to be cancelled to the list. The book stays as it is.
pub(crate) fn survey_of<T: Copy, A: Allocator, F: FnMut(Order<T>) -> bool, C: Allocator>(
    book: &OrderBook<T, A>,
    order: NewOrder<T>,
    policy: SelfTrade,
    mut may_trade: F,
    cancelled: &mut Vec<Order<T>, C>,
) -> Survey
    requires { F.IsAlwaysCallable may_trade }
    ensures surveys { Surveys F.FnMut may_trade policy book.now order
        (vec_capacity cancelled.old - length cancelled.old.items)
        cancelled.old.items result cancelled.new.items }
    ensures lawful { IsBook book.now }
    ensures capacity { vec_capacity cancelled.old ≤ vec_capacity cancelled.new }
{
    let side = opposite(order.side);
    let limit = order.kind.limit(order.side);
    // For the prover: what holds of every book.
    let _ = book.count(side);
    let mut survey = Survey {
        left: order.quantity,
        count: 0,
        is_stopped: false,
        lacks_room: false,
    };
    for resting in book.iter(side) {
        if survey.is_done(side, limit, resting) {
            break;
        }
        survey = survey.after(policy, resting, may_trade(resting), cancelled);
    }
    survey
}
