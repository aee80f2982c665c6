//! A book whose orders carry their owners.

ghost use Rattle.std.specs.Prelude.{◌≡◌, IfOk, IfSome};
ghost use Rattle.std.specs.Option.{option_map};
ghost use Rattle.order_book.specs.Words.{first_of};
ghost use Rattle.order_book.specs.Book.{IsUncrossed, named, queue};

use order_book::{NewOrder, OrderBook, OrderId, PlacingError, Side, Trade};

/// Whose an order is, and what that one calls it.
#[derive(Clone, Copy, PartialEq, Eq, Debug)]
pub struct Owner {
    /// The account that trades.
    pub account: u32,
    /// The account's own number of the order.
    pub reference: u64,
}

/// Places a limit order for an owner. What rests of it shows the owner, and so does each later trade with that.
pub fn place_for(
    book: &mut OrderBook<Owner>,
    owner: Owner,
    side: Side,
    price: u64,
    quantity: u64,
    trades: &mut Vec<Trade<Owner>>,
) -> Result<Option<OrderId>, PlacingError>
    ensures owned { IfOk result (λ id. IfSome id (λ i. IfSome (named book.new i)
        (λ order. order.tag ≡ owner))) }
{
    let order = NewOrder::limit(side, price, quantity).with_tag(owner);
    book.place(order, trades)
}

/// Returns whose the order is that trades first on a side.
pub fn owner_of_best(book: &OrderBook<Owner>, side: Side) -> Option<Owner>
    ensures { result ≡ option_map (λ order. order.tag) (first_of (queue book.now side).orders) }
{
    let order = match side {
        Side::Buy => book.best_bid()?,
        Side::Sell => book.best_ask()?,
    };
    Some(order.tag)
}

/// Cancels all orders of an account on a side, and returns how many there were.
pub fn cancel_all_of(book: &mut OrderBook<Owner>, side: Side, account: u32) -> usize
    ensures { IsUncrossed book.old → IsUncrossed book.new }
{
    book.cancel_where(side, |order| order.tag.account == account)
}
