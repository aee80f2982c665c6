//! Orders that leave, and orders of which less is left.

ghost use Rattle.std.specs.Prelude.{◌≡◌, ◌+◌, ◌≤◌, ◌<◌, OnSome, IfNone};
ghost use Rattle.std.specs.Ordering.{nat_cmp};
ghost use Rattle.sorted_arena.specs.PlainPointer.{greatest_generation};
ghost use Rattle.sorted_arena.specs.Sorted.{count, get, with_value, without_entry, IsSound};
ghost use Rattle.order_book.specs.Queue.{most_entries};
ghost use Rattle.order_book.specs.QueueLayout.{most_price};
ghost use Rattle.order_book.specs.Ladder.{rows_of, without_order, with_other, IsLadder, KeepsRows};

use super::{Ladder, Totals};
use crate::order::Lot;
use arena_base::ItemsMut;
use sorted_arena::{BasePtr, P0};
use std::alloc::Allocator;

impl<T: Copy, A: Allocator> Ladder<T, A> {
    /// Removes the order that the pointer names, and returns its rank and its lot.
    pub(crate) fn remove(&mut self, pointer: P0) -> Option<(u64, Lot<T>)>
        requires { IsLadder self.old.orders self.old.levels }
        ensures ladder { IsLadder self.new.orders self.new.levels }
        ensures value { result ≡ get (rows_of self.old.orders) pointer }
        ensures after { rows_of self.new.orders
            ≡ without_entry greatest_generation (rows_of self.old.orders) pointer }
        ensures count { OnSome result (count (rows_of self.old.orders)
            ≡ count (rows_of self.new.orders) + 1) }
        ensures none { IfNone result (KeepsRows self.old.orders self.new.orders) }
        ensures sound { IsSound nat_cmp most_entries (rows_of self.old.orders) }
    {
        // For the prover: what holds of every ladder, and of its levels.
        let _ = self.len();
        let _ = self.levels.len();
        let order = *self.orders.get(pointer)?;
        let (_, link) = self.orders.remove_entry(pointer.inx()).allow();
        let (_, totals) = self.levels.get(order.level).unwrap();
        if totals.count == 1 {
            let _ = self.levels.remove(order.level);
        } else {
            let after = without_order(*totals, order.lot.quantity, pointer.inx(), link.prev());
            let _ = self.levels.set_value(order.level, after);
        }
        Some((order.rank, order.lot))
    }

    /// Gives the order that the pointer names another lot.
    pub(crate) fn set_lot(&mut self, pointer: P0, lot: Lot<T>)
        requires ladder { IsLadder self.old.orders self.old.levels }
        requires few { lot.quantity ≤ most_price }
        requires some { 0 < lot.quantity }
        ensures ladder { IsLadder self.new.orders self.new.levels }
        ensures after { rows_of self.new.orders ≡ with_value (rows_of self.old.orders) pointer
            (get (rows_of self.old.orders) pointer) lot }
    {
        // For the prover: what holds of every ladder, and of its levels.
        let _ = self.len();
        let _ = self.levels.len();
        let Some(order) = self.orders.get(pointer) else {
            return;
        };
        let (level, before) = (order.level, order.lot.quantity);
        let pair = self.orders.pair_mut(pointer.inx());
        let place = pair.1;
        place.lot = lot;
        let (_, totals) = self.levels.get(level).unwrap();
        let after = with_other_lot(*totals, before, lot.quantity);
        let _ = self.levels.set_value(level, after);
    }
}

// What a level sums up without an order of this quantity, at this index, behind the one at the other index.
fn without_order(totals: Totals, quantity: u64, index: u32, before: Option<u32>) -> Totals
    requires part { quantity ≤ totals.quantity }
    requires some { 0 < totals.count }
    ensures { result ≡ without_order totals quantity index before }
{
    let last = match before {
        Some(before) if totals.last == index => before,
        _ => totals.last,
    };
    Totals {
        quantity: totals.quantity - u128::from(quantity),
        count: totals.count - 1,
        last,
    }
}

// What a level sums up after an order got another quantity.
fn with_other_lot(totals: Totals, before: u64, after: u64) -> Totals
    requires part { before ≤ totals.quantity }
    requires fits { totals.quantity ≤ 79228162477370849441829879810 }
    ensures { result ≡ with_other totals before after }
{
    Totals {
        quantity: totals.quantity - u128::from(before) + u128::from(after),
        count: totals.count,
        last: totals.last,
    }
}
