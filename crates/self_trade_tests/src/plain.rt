//! A plain list of orders in the order of age, which places an order as an exchange's rules say.
use order_book::{NewOrder, Order, OrderBook, OrderId, OrderKind, PlacingError, Side, Trade};
use self_trade::SelfTrade;
use std::alloc::{AllocError, Global};

/// An order in the list. One that is filled or cancelled stays with quantity 0.
#[derive(Clone, Copy)]
pub(super) struct Resting {
    id: OrderId,
    side: Side,
    price: u64,
    quantity: u64,
    tag: u64,
}

/// What an order came to: the list after it, its trades, the orders that were cancelled, and those that it met.
#[derive(Drop)]
pub(super) struct Came {
    list: Vec<Resting>,
    pub(super) trades: Vec<Trade>,
    pub(super) cancelled: Vec<Order>,
    pub(super) met: Vec<OrderId>,
    left: u64,
    is_stopped: bool,
}

/// Returns an order of the list as the book shows it.
fn shown(order: &Resting) -> Order {
    Order {
        id: order.id,
        price: order.price,
        quantity: order.quantity,
        tag: order.tag,
    }
}

/// Returns whether the first price ranks better for orders of this side.
fn is_better(side: Side, price: u64, than: u64) -> bool {
    match side {
        Side::Buy => price > than,
        Side::Sell => price < than,
    }
}

/// Returns the place of the order that an order of a side at this limit meets first: the oldest at the best price.
fn best(list: &[Resting], side: Side, limit: u64) -> Option<usize> {
    let mut found: Option<usize> = None;
    let mut price = limit;
    for (at, order) in list.iter().enumerate() {
        if order.side == side || order.quantity == 0 || is_better(order.side, limit, order.price) {
            continue;
        }
        if found.is_none() || is_better(order.side, order.price, price) {
            found = Some(at);
            price = order.price;
        }
    }
    found
}

/// Meets one resting order.
fn meet(came: &mut Came, at: usize, order: NewOrder, policy: SelfTrade) -> Result<(), AllocError> {
    let Some(resting) = came.list.get_mut(at) else {
        return Ok(());
    };
    if came.met.push(resting.id).is_err() {
        return Err(AllocError);
    }
    if resting.tag != order.tag {
        let quantity = came.left.min(resting.quantity);
        let trade = Trade {
            order: resting.id,
            price: resting.price,
            quantity,
            left: resting.quantity.wrapping_sub(quantity),
            tag: resting.tag,
        };
        resting.quantity = trade.left;
        came.left = came.left.wrapping_sub(quantity);
        return match came.trades.push(trade) {
            Ok(()) => Ok(()),
            Err(_) => Err(AllocError),
        };
    }
    came.is_stopped = policy != SelfTrade::CancelResting;
    if policy == SelfTrade::CancelIncoming {
        return Ok(());
    }
    let gone = shown(resting);
    resting.quantity = 0;
    match came.cancelled.push(gone) {
        Ok(()) => Ok(()),
        Err(_) => Err(AllocError),
    }
}

/// Returns what an order comes to in the list, if it is not refused.
pub(super) fn came_of(
    alloc: Global,
    list: &[Resting],
    order: NewOrder,
    policy: SelfTrade,
) -> Result<Came, AllocError> {
    let mut came = Came {
        list: list.to_vec(alloc)?,
        trades: Vec::new(alloc),
        cancelled: Vec::new(alloc),
        met: Vec::new(alloc),
        left: order.quantity,
        is_stopped: false,
    };
    let limit = order.kind.limit(order.side);
    for _ in 0..list.len() {
        if came.left == 0 || came.is_stopped {
            break;
        }
        if let Some(at) = best(&came.list, order.side, limit) {
            meet(&mut came, at, order, policy)?;
        }
    }
    Ok(came)
}

impl Came {
    /// Returns why the order is refused, if it is.
    pub(super) fn refusal(&self, order: NewOrder) -> Option<PlacingError> {
        match order.kind {
            _ if order.quantity == 0 => Some(PlacingError::NoQuantity),
            OrderKind::PostOnly(_) if !self.trades.is_empty() => Some(PlacingError::WouldTrade),
            OrderKind::FillOrKill(_) if self.left > 0 => Some(PlacingError::WouldNotFill),
            _ => None,
        }
    }

    /// Returns the list after the order, whose rest has this name if something of it rests; `None` if it has a name exactly if nothing rests.
    pub(super) fn rested(self, order: NewOrder, id: Option<OrderId>) -> Option<Vec<Resting>> {
        let rests = self.left > 0 && !self.is_stopped && order.kind.can_rest();
        let mut list = self.list;
        match id {
            None => (!rests).then_some(list),
            Some(id) => {
                let resting = Resting {
                    id,
                    side: order.side,
                    price: order.kind.limit(order.side),
                    quantity: self.left,
                    tag: order.tag,
                };
                if rests && list.push(resting).is_ok() {
                    Some(list)
                } else {
                    None
                }
            }
        }
    }
}

/// Returns whether the orders of the book on the side other than this one are those of the list, in the order in which they trade.
fn is_alike_for(alloc: Global, book: &OrderBook, list: &[Resting], side: Side) -> Option<bool> {
    let (other, limit) = match side {
        Side::Buy => (Side::Sell, u64::MAX),
        Side::Sell => (Side::Buy, 0),
    };
    let mut left = list.to_vec(alloc).ok()?;
    for order in book.iter(other) {
        let resting = left.get_mut(best(&left, side, limit)?)?;
        if shown(resting) != order {
            return Some(false);
        }
        resting.quantity = 0;
    }
    Some(best(&left, side, limit).is_none())
}

/// Returns whether the book and the list have the same orders.
pub(super) fn are_alike(alloc: Global, book: &OrderBook, list: &[Resting]) -> bool {
    is_alike_for(alloc, book, list, Side::Buy) == Some(true)
        && is_alike_for(alloc, book, list, Side::Sell) == Some(true)
}
