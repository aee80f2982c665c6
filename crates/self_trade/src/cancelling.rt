//! Orders that are cancelled one after another.

ghost use Rattle.std.specs.Prelude.{◌≡◌};
ghost use Rattle.order_book.specs.Id.{Id};
ghost use Rattle.order_book.specs.Book.{named, IsBook, IsUncrossed};
ghost use Rattle.self_trade.specs.Prevention.{without_all, IsNoneOf};
ghost use Rattle.self_trade.specs.Survey.{AreNamed};

use order_book::{Order, OrderBook, Side};
use std::alloc::Allocator;

/// Cancels these orders, one after another.
pub(crate) fn cancel_each<T: Copy, A: Allocator>(book: &mut OrderBook<T, A>, orders: &[Order<T>])
    requires { AreNamed book.old orders.now }
    ensures after { book.new ≡ without_all book.old orders.now }
    ensures others { (id : Id) → IsNoneOf id orders.now → named book.new id ≡ named book.old id }
    ensures uncrossed { IsUncrossed book.old → IsUncrossed book.new }
    ensures lawful { IsBook book.new }
{
    for order in orders {
        let _ = book.cancel(order.id);
    }
    // For the prover: what holds of every book.
    let _ = book.count(Side::Buy);
}
