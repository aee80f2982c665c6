//! Laws of order books. The function here does nothing, and its contract is the law: a fact about every run of calls.

ghost use Rattle.order_book.specs.Names.{EndedNameLaw};
ghost use Rattle.order_book.specs.Auction.{BestAuctionLaw};
ghost use Rattle.order_book.specs.Price.{PriceOrderLaw};

/// The name of an order that has ended names no order again, however many calls follow, until the generations of its side overflow.
///
/// A name has ended if it names no order and its generation is below its side's. If no name has a generation above its side's, a name that
/// names an order before a call and none after it has ended. That is so of a new book, and stays so until an overflow. Every call that
/// changes a book has a clause `step`, to which the law applies.
pub fn ended_name_law<T>()
    ensures { EndedNameLaw T }
{}

/// A book has at most one auction: what [`auction`](crate::OrderBook::auction) returns, [`uncross`](crate::OrderBook::uncross) trades.
pub fn best_auction_law<T>()
    ensures { BestAuctionLaw T }
{}

/// Of two prices the lower one stands for the lower number: [`price_from_signed`](crate::price_from_signed) keeps the order.
pub fn price_order_law()
    ensures { PriceOrderLaw }
{}
