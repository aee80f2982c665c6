//! A quote that moves with the market.

ghost use Rattle.std.specs.Prelude.{◌≡◌, OnOk, OnErr};
ghost use Rattle.order_book.specs.Book.{IsUncrossed};

use order_book::{OrderBook, OrderId, OrderKind, ReplacingError, Trade};

/// Moves a quote to another price, where it rests behind the others. It never trades: if it would, it stays where it was. Returns its new id.
pub fn move_quote(
    book: &mut OrderBook,
    quote: OrderId,
    price: u64,
    quantity: u64,
    trades: &mut Vec<Trade>,
) -> Result<Option<OrderId>, ReplacingError>
    ensures quiet { OnOk result (trades.new.items ≡ trades.old.items) }
    ensures refused { OnErr result (book.new ≡ book.old) }
    ensures uncrossed { IsUncrossed book.old → IsUncrossed book.new }
{
    book.replace(quote, OrderKind::PostOnly(price), quantity, trades)
}
