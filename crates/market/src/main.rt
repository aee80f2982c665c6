//! A market: orders meet by price, and at equal prices by age.
#![tactic(auto)]

use anyhow::Result;
use order_book::{NewOrder, OrderBook, Side};

fn main(rt: HostRuntime) -> Result<()> {
    let mut book = OrderBook::new(rt.alloc());
    let mut trades = Vec::new(rt.alloc());

    // Two sellers at 101, the older one first, and one at 103.
    let older = book.place(NewOrder::limit(Side::Sell, 101, 5), &mut trades)?;
    let younger = book.place(NewOrder::limit(Side::Sell, 101, 5), &mut trades)?;
    let _ = book.place(NewOrder::limit(Side::Sell, 103, 20), &mut trades)?;

    // A buyer takes 7 at up to 102: all of the older order, and 2 of the younger one.
    let rest = book.place(NewOrder::limit(Side::Buy, 102, 7), &mut trades)?;
    for trade in &trades {
        println!(rt; "{} at {}", trade.quantity, trade.price)?;
    }
    println!(rt; "anything left of the buyer's order: {}", rest.is_some())?;

    // The older order has ended, and the younger one has 3 left.
    for id in [older, younger] {
        if let Some(id) = id {
            println!(rt; "{:?}", book.get(id).map(|order| order.quantity))?;
        }
    }

    println!(rt; "offered, by price:")?;
    for level in book.depth(Side::Sell, 5) {
        println!(rt; "  {} at {}", level.quantity, level.price)?;
    }
    Ok(())
}
