//! What is answered in JSON.

use crate::COMMANDS;
use crate::answers::{Figures, left_of};
use crate::command::Question;
use crate::exchange::{Exchange, Label};
use order_book::{Auction, Level, Order, Side};
use serde_json::{Number, Value, json};
use std::alloc::Global;
use std::io;

// Returns a quantity: a number, or its digits as text from 2^64 on.
fn quantity_value(alloc: Global, quantity: u128) -> io::Result<Value> {
    match Number::from_u128(quantity) {
        Some(number) => Ok(Value::Number(number)),
        None => Ok(Value::from(format!(in alloc; "{quantity}")?)),
    }
}

// Returns the trades of an incoming order or an auction.
fn trades_value(alloc: Global, exchange: &Exchange) -> io::Result<Value> {
    let mut trades = Vec::new(alloc);
    for trade in &exchange.trades {
        let (price, quantity) = (trade.price, trade.quantity);
        let Label { number, tag } = trade.tag;
        trades.push(
            json!(in alloc; {"quantity": quantity, "price": price, "order": number, "tag": tag})?,
        )?;
    }
    Ok(Value::from(trades))
}

/// Returns what became of an incoming order: its trades, what of it rests, and how much of it was dropped.
///
/// # Errors
///
/// An allocation failed.
pub fn order_value(
    alloc: Global,
    exchange: &Exchange,
    rests: Option<u64>,
    quantity: u64,
) -> io::Result<Value> {
    let trades = trades_value(alloc, exchange)?;
    let (rests, dropped) = match rests {
        Some(number) => {
            let left = exchange.left(number);
            (json!(in alloc; {"quantity": left, "order": number})?, 0)
        }
        None => (Value::Null, left_of(exchange, quantity)),
    };
    Ok(json!(in alloc; {"trades": trades, "rests": rests, "dropped": dropped})?)
}

/// Returns an execution: its trade, and what is left of the order.
///
/// # Errors
///
/// An allocation failed.
pub fn executed_value(alloc: Global, exchange: &Exchange, left: u64) -> io::Result<Value> {
    let trades = trades_value(alloc, exchange)?;
    Ok(json!(in alloc; {"trades": trades, "left": left})?)
}

// Returns what an auction comes to.
fn auction_value(alloc: Global, auction: Option<Auction>) -> io::Result<Value> {
    let Some(auction) = auction else {
        return Ok(Value::Null);
    };
    let quantity = quantity_value(alloc, auction.quantity)?;
    let surplus = quantity_value(alloc, auction.surplus)?;
    Ok(json!(in alloc; {"quantity": quantity, "price": auction.price, "surplus": surplus})?)
}

/// Returns an auction: its trades, and what it came to.
///
/// # Errors
///
/// An allocation failed.
pub fn uncrossed_value(
    alloc: Global,
    exchange: &Exchange,
    auction: Option<Auction>,
) -> io::Result<Value> {
    let trades = trades_value(alloc, exchange)?;
    let auction = auction_value(alloc, auction)?;
    Ok(json!(in alloc; {"trades": trades, "auction": auction})?)
}

/// Returns what is left of a reduced order.
///
/// # Errors
///
/// An allocation failed.
pub fn left_value(alloc: Global, left: u64) -> io::Result<Value> {
    Ok(json!(in alloc; {"left": left})?)
}

/// Returns a cancelled order.
///
/// # Errors
///
/// An allocation failed.
pub fn cancelled_value(alloc: Global, price: u64, quantity: u64) -> io::Result<Value> {
    Ok(json!(in alloc; {"cancelled": {"quantity": quantity, "price": price}})?)
}

// Returns the best order of a side.
fn best_value(alloc: Global, best: Option<Order<Label>>) -> io::Result<Value> {
    let Some(order) = best else {
        return Ok(Value::Null);
    };
    let (price, quantity, number) = (order.price, order.quantity, order.tag.number);
    Ok(json!(in alloc; {"quantity": quantity, "price": price, "order": number})?)
}

// Returns a level.
fn level_value(alloc: Global, level: Level) -> io::Result<Value> {
    let quantity = quantity_value(alloc, level.quantity)?;
    Ok(json!(in alloc; {"quantity": quantity, "price": level.price, "orders": level.count})?)
}

// Returns the best level of a side.
fn top_value(alloc: Global, top: Option<Level>) -> io::Result<Value> {
    match top {
        Some(level) => level_value(alloc, level),
        None => Ok(Value::Null),
    }
}

// Returns the first levels of a side, the best first.
fn levels_value(
    alloc: Global,
    exchange: &Exchange,
    side: Side,
    levels: usize,
) -> io::Result<Value> {
    let mut values = Vec::new(alloc);
    for level in exchange.book.depth(side, levels) {
        values.push(level_value(alloc, level)?)?;
    }
    Ok(Value::from(values))
}

// Returns the first levels of both sides.
fn depth_value(alloc: Global, exchange: &Exchange, levels: usize) -> io::Result<Value> {
    let bids = levels_value(alloc, exchange, Side::Buy, levels)?;
    let asks = levels_value(alloc, exchange, Side::Sell, levels)?;
    Ok(json!(in alloc; {"bids": bids, "asks": asks})?)
}

/// Returns the answer to a question. A chart has the levels alone.
///
/// # Errors
///
/// An allocation failed.
pub fn value_of(alloc: Global, exchange: &Exchange, question: Question) -> io::Result<Value> {
    match question {
        Question::Best => {
            let bid = best_value(alloc, exchange.book.best_bid())?;
            let ask = best_value(alloc, exchange.book.best_ask())?;
            Ok(json!(in alloc; {"bid": bid, "ask": ask})?)
        }
        Question::Top(side) => {
            let top = top_value(alloc, exchange.book.top(side))?;
            Ok(json!(in alloc; {"top": top})?)
        }
        Question::Depth(levels) | Question::Chart(levels) => depth_value(alloc, exchange, levels),
        Question::Auction => {
            let auction = auction_value(alloc, exchange.book.auction())?;
            Ok(json!(in alloc; {"auction": auction})?)
        }
        Question::Help => Ok(json!(in alloc; {"help": COMMANDS})?),
    }
}

/// Returns the totals. What was traded is null if it can't be counted.
///
/// # Errors
///
/// An allocation failed.
pub fn totals_value(alloc: Global, exchange: &Exchange, figures: &Figures) -> io::Result<Value> {
    let traded = match figures.traded {
        Some(traded) => quantity_value(alloc, traded)?,
        None => Value::Null,
    };
    let (lines, done, bad) = (figures.lines, figures.done, figures.bad);
    let bids = exchange.book.count(Side::Buy);
    let asks = exchange.book.count(Side::Sell);
    Ok(json!(in alloc; {
        "lines": lines, "done": done, "bad": bad, "traded": traded, "bids": bids, "asks": asks
    })?)
}
