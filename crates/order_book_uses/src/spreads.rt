//! A book of spreads: the price of one delivery month less that of another, which may be below zero.

ghost use Rattle.std.specs.Prelude.{IfSome};
ghost use Rattle.order_book.specs.Price.{StandsFor};
ghost use Rattle.order_book.specs.Words.{first_of};

use order_book::{AddingError, OrderBook, OrderId, Side, price_from_signed, price_to_signed};

/// Puts an order for a spread at rest.
pub fn add_spread(
    book: &mut OrderBook,
    side: Side,
    spread: i64,
    quantity: u64,
) -> Result<OrderId, AddingError> {
    book.add(side, price_from_signed(spread), quantity, 0)
}

/// Returns the best bid and the best ask as spreads.
pub fn best_spreads(book: &OrderBook) -> Option<(i64, i64)>
    ensures bid { IfSome result (λ best. IfSome (first_of book.now.bids.orders)
        (λ order. StandsFor order.price best.0)) }
    ensures ask { IfSome result (λ best. IfSome (first_of book.now.asks.orders)
        (λ order. StandsFor order.price best.1)) }
{
    let (bid, ask) = (book.best_bid()?, book.best_ask()?);
    Some((price_to_signed(bid.price), price_to_signed(ask.price)))
}
