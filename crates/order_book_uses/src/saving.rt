//! A book that is saved as a list of its orders, and made of the list again.

ghost use Rattle.std.specs.Prelude.{IfOk};
ghost use Rattle.order_book.specs.Snapshot.{HaveSameOrders};

use order_book::{AddingError, OrderBook, Side};
use std::alloc::Global;

/// Returns a book with the same orders in the same order, under new ids, as after a program has saved its book and started again.
pub fn made_again(book: &OrderBook, alloc: Global) -> Result<OrderBook, AddingError>
    ensures same { IfOk result (λ again. HaveSameOrders again book.now) }
{
    // For the prover: what holds of every book.
    let _ = book.count(Side::Buy);
    let mut orders = Vec::new(alloc);
    if book.snapshot(&mut orders).is_err() {
        return Err(AddingError::AllocError);
    }
    OrderBook::restored(&orders, alloc)
}
