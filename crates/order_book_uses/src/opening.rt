//! The opening of a market: its orders are collected without trading, and then trade at one price.

ghost use Rattle.std.specs.Prelude.{◌≡◌, true, false, Ok, OnErr, IfOk, IfSome};
ghost use Rattle.order_book.specs.Auction.{IsBestAuction};
ghost use Rattle.order_book.specs.Book.{IsUncrossed};

use order_book::laws::best_auction_law;
use order_book::{Auction, OrderBook, Trade};
use std::alloc::AllocError;

/// Opens a market whose orders were collected by `add`: what can trade at one price does. It waits for more orders if the price would be outside
/// of these bounds, and nothing changes. Returns whether it is open.
pub fn open_market(
    book: &mut OrderBook,
    lowest: u64,
    highest: u64,
    trades: &mut Vec<Trade>,
) -> Result<bool, AllocError>
    ensures open { result ≡ Ok true → IsUncrossed book.new }
    ensures waits { result ≡ Ok false → book.new ≡ book.old }
    ensures refused { OnErr result (book.new ≡ book.old) }
    ensures kept { OnErr result (trades.new.items ≡ trades.old.items) }
{
    if let Some(auction) = book.auction() {
        if auction.price < lowest || auction.price > highest {
            return Ok(false);
        }
    }
    book.uncross(trades)?;
    Ok(true)
}

/// Holds an auction that was looked at before. It comes to what the look said.
pub fn hold_auction(
    book: &mut OrderBook,
    seen: Auction,
    trades: &mut Vec<Trade>,
) -> Result<Option<Auction>, AllocError>
    requires { IsBestAuction book.old seen }
    ensures same { IfOk result (λ held. IfSome held (λ auction. auction ≡ seen)) }
{
    // For the prover: there is one auction.
    best_auction_law::<u64>();
    book.uncross(trades)
}
