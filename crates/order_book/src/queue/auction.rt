//! What an auction trades with a side.

ghost use Rattle.std.specs.Prelude.{◌≡◌, ◌+◌, ◌≤◌, ◌<◌, ◌++◌, length, map, min, vec_capacity, OnOk, OnErr};
ghost use Rattle.order_book.specs.Queue.{trades_of_first};
ghost use Rattle.order_book.specs.Auction.{at_price};

use super::OrderQueue;
use crate::order::Trade;
use std::alloc::{AllocError, Allocator};

impl<T: Copy, A: Allocator> OrderQueue<T, A> {
    /// Appends the trades of so many units at one price, the first order's first. The orders stay as they are, and the list's capacity
    /// never shrinks. O(1) for each trade.
    ///
    /// # Errors
    ///
    /// `AllocError`: the list has no room for all trades, and growing it failed. The list is unchanged.
    pub(crate) fn fill<B: Allocator>(
        &self,
        price: u64,
        quantity: u128,
        trades: &mut Vec<Trade<T>, B>,
    ) -> Result<(), AllocError>
        ensures trades { OnOk result (trades.new.items ≡ trades.old.items
            ++ map (at_price price) (trades_of_first quantity self.now.orders)) }
        ensures memory { OnErr result (vec_capacity trades.old < length trades.old.items
            + length (map (at_price price) (trades_of_first quantity self.now.orders))) }
        ensures err { OnErr result (trades.new.items ≡ trades.old.items) }
        ensures kept_room { vec_capacity trades.old ≤ vec_capacity trades.new }
    {
        let before = trades.len();
        let mut left = quantity;
        for order in self.iter() {
            if left == 0 {
                break;
            }
            let part = part_of(order.quantity, left);
            let trade = Trade {
                price,
                ..order.trade(part)
            };
            if trades.push(trade).is_err() {
                trades.truncate(before);
                return Err(AllocError);
            }
            left -= u128::from(part);
        }
        Ok(())
    }
}

// How much of an order trades where so much is left.
fn part_of(quantity: u64, left: u128) -> u64
    ensures { result ≡ min left quantity }
{
    match u64::try_from(left) {
        Ok(left) => left.min(quantity),
        Err(_) => quantity,
    }
}
