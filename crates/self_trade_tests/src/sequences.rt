//! Every sequence of four orders of two owners, with each policy, compared with a plain list.
use super::plain::{Resting, are_alike, came_of};
use order_book::{NewOrder, Order, OrderBook, OrderId, OrderKind, PlacingError, Side, Trade};
use self_trade::{SelfTrade, place};
use std::alloc::{AllocError, Global};

/// Returns the order with this number, of the ten that make up the sequences. Its tag is its owner.
fn order_of(number: u32) -> NewOrder {
    let (side, kind, quantity, tag) = match number % 10 {
        0 => (Side::Buy, OrderKind::Limit(10), 2, 1),
        1 => (Side::Buy, OrderKind::Limit(11), 3, 2),
        2 => (Side::Sell, OrderKind::Limit(10), 2, 1),
        3 => (Side::Sell, OrderKind::Limit(11), 4, 2),
        4 => (Side::Sell, OrderKind::Limit(10), 1, 2),
        5 => (Side::Buy, OrderKind::Market, 5, 1),
        6 => (Side::Sell, OrderKind::Market, 3, 1),
        7 => (Side::Buy, OrderKind::PostOnly(11), 2, 1),
        8 => (Side::Sell, OrderKind::FillOrKill(10), 3, 2),
        _ => (Side::Buy, OrderKind::ImmediateOrCancel(11), 4, 2),
    };
    NewOrder {
        side,
        kind,
        quantity,
        tag,
    }
}

/// What a call appended and asked about.
#[derive(Drop)]
struct Told {
    trades: Vec<Trade>,
    cancelled: Vec<Order>,
    met: Vec<OrderId>,
}

/// Places an order on the book, and says what was appended and asked about.
fn placed(
    alloc: Global,
    book: &mut OrderBook,
    order: NewOrder,
    policy: SelfTrade,
    told: &mut Told,
) -> Result<Option<OrderId>, PlacingError> {
    told.trades = Vec::new(alloc);
    told.cancelled = Vec::new(alloc);
    let mut met = Vec::new(alloc);
    let owner = order.tag;
    let is_foreign = |resting: Order| {
        let _ = met.push(resting.id);
        resting.tag != owner
    };
    let result = place(
        book,
        order,
        policy,
        is_foreign,
        &mut told.trades,
        &mut told.cancelled,
    );
    told.met = met;
    result
}

/// Places an order on the book and in the list. Returns whether they agree on everything.
fn agree(
    alloc: Global,
    book: &mut OrderBook,
    list: &mut Vec<Resting>,
    order: NewOrder,
    policy: SelfTrade,
) -> Result<bool, AllocError> {
    let came = came_of(alloc, list, order, policy)?;
    let mut told = Told {
        trades: Vec::new(alloc),
        cancelled: Vec::new(alloc),
        met: Vec::new(alloc),
    };
    let result = placed(alloc, book, order, policy, &mut told);
    if told.met != came.met {
        return Ok(false);
    }
    match result {
        Err(error) => Ok(
            came.refusal(order) == Some(error)
                && told.trades.is_empty()
                && told.cancelled.is_empty(),
        ),
        Ok(id) => {
            let is_same = came.refusal(order).is_none()
                && told.trades == came.trades
                && told.cancelled == came.cancelled;
            match came.rested(order, id) {
                Some(after) if is_same => {
                    *list = after;
                    Ok(true)
                }
                _ => Ok(false),
            }
        }
    }
}

/// Returns whether a new book behaves like a new list along the sequence with this number, one order for each of its four digits.
fn is_plain(alloc: Global, number: u32, policy: SelfTrade) -> Result<bool, AllocError> {
    let mut book = OrderBook::new(alloc);
    let mut list = Vec::new(alloc);
    let mut digits = number;
    for _ in 0..4u32 {
        let is_same = agree(alloc, &mut book, &mut list, order_of(digits), policy)?;
        if !is_same || !are_alike(alloc, &book, &list) {
            return Ok(false);
        }
        digits /= 10;
    }
    Ok(true)
}

#[test]
fn every_sequence_with_each_policy_agrees_with_a_plain_list(
    rt: HostRuntime,
) -> Result<(), AllocError> {
    for number in 0..10_000u32 {
        for policy in [
            SelfTrade::CancelResting,
            SelfTrade::CancelIncoming,
            SelfTrade::CancelBoth,
        ] {
            assert!(rt; is_plain(rt.alloc(), number, policy)?);
        }
    }
    Ok(())
}

#[test]
fn an_order_for_nothing_is_refused(rt: HostRuntime) -> Result<(), AllocError> {
    let mut book = OrderBook::new(rt.alloc());
    let order = NewOrder::limit(Side::Buy, 10, 0);
    let mut list = Vec::new(rt.alloc());
    assert!(rt;
        agree(
            rt.alloc(),
            &mut book,
            &mut list,
            order,
            SelfTrade::CancelBoth
        )?
    );
    Ok(())
}
