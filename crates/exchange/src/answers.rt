//! What the exchange answers to each line.

use crate::COMMANDS;
use crate::chart::write_chart;
use crate::command::{Command, Fault, Question};
use crate::exchange::{Exchange, Label};
use crate::values::{
    cancelled_value, executed_value, left_value, order_value, totals_value, uncrossed_value,
    value_of,
};
use line_service::{Style, complaint, write_json};
use order_book::{Auction, Level, Order, OrderKind, Side};
use std::alloc::Global;
use std::io;
use std::io::Write;

/// How many lines there were, how many of them were obeyed, and how many weren't; and how much was traded, if that can be counted.
#[derive(Drop)]
pub struct Figures {
    pub lines: u64,
    pub done: u64,
    pub bad: u64,
    pub traded: Option<u128>,
}

impl Figures {
    /// Returns the figures of an exchange that hasn't been asked anything.
    pub fn new() -> Figures {
        Figures {
            lines: 0,
            done: 0,
            bad: 0,
            traded: Some(0),
        }
    }

    // Counts the trades of an incoming order.
    fn count(&mut self, exchange: &Exchange) {
        for trade in &exchange.trades {
            self.count_units(u128::from(trade.quantity));
        }
    }

    // Counts what an auction traded: each unit once, though there is a trade of each side.
    fn count_auction(&mut self, auction: Option<Auction>) {
        if let Some(auction) = auction {
            self.count_units(auction.quantity);
        }
    }

    fn count_units(&mut self, quantity: u128) {
        self.traded = match self.traded {
            Some(traded) => traded.checked_add(quantity),
            None => None,
        };
    }
}

/// Writes the trades of an incoming order or an auction.
fn write_trades<W: Write>(writer: &mut W, exchange: &Exchange) -> io::Result<()> {
    for trade in &exchange.trades {
        let (price, quantity) = (trade.price, trade.quantity);
        let Label { number, tag } = trade.tag;
        match tag {
            0 => writeln!(writer, "trade {quantity} at {price} with {number}")?,
            tag => writeln!(
                writer,
                "trade {quantity} at {price} with {number}, tag {tag}"
            )?,
        }
    }
    Ok(())
}

/// Returns how much of an order the last trades leave.
pub fn left_of(exchange: &Exchange, quantity: u64) -> u64 {
    let mut left = quantity;
    for trade in &exchange.trades {
        left = left.saturating_sub(trade.quantity);
    }
    left
}

/// Writes what became of an incoming order that isn't traded.
fn write_rest<W: Write>(
    writer: &mut W,
    exchange: &Exchange,
    rests: Option<u64>,
    quantity: u64,
) -> io::Result<()> {
    match (rests, left_of(exchange, quantity)) {
        (Some(number), _) => writeln!(writer, "rests {} as {number}", exchange.left(number)),
        (None, 0) => writeln!(writer, "filled"),
        (None, left) => writeln!(writer, "dropped {left}"),
    }
}

/// Returns what the orders of a side are called.
fn word_of(side: Side) -> &'static str {
    match side {
        Side::Buy => "bid",
        Side::Sell => "ask",
    }
}

/// Writes a level of a side, or that there is none.
fn write_top<W: Write>(writer: &mut W, side: Side, top: Option<Level>) -> io::Result<()> {
    let word = word_of(side);
    match top {
        Some(level) => {
            let (price, quantity, count) = (level.price, level.quantity, level.count);
            writeln!(writer, "{word} {quantity} at {price}, orders {count}")
        }
        None => writeln!(writer, "no {word}"),
    }
}

/// Writes how much is left of an order.
fn write_left<W: Write>(writer: &mut W, number: u64, left: u64) -> io::Result<()> {
    match left {
        0 => writeln!(writer, "gone {number}"),
        left => writeln!(writer, "left {left} of {number}"),
    }
}

/// Writes the best order of a side.
fn write_best<W: Write>(writer: &mut W, word: &str, best: Option<Order<Label>>) -> io::Result<()> {
    match best {
        Some(order) => {
            let (price, quantity, number) = (order.price, order.quantity, order.tag.number);
            writeln!(writer, "{word} {quantity} at {price}, order {number}")
        }
        None => writeln!(writer, "no {word}"),
    }
}

/// Writes what an auction comes to.
fn write_auction<W: Write>(writer: &mut W, auction: Option<Auction>) -> io::Result<()> {
    match auction {
        Some(auction) => {
            let (price, quantity, surplus) = (auction.price, auction.quantity, auction.surplus);
            writeln!(writer, "auction {quantity} at {price}, surplus {surplus}")
        }
        None => writeln!(writer, "no auction"),
    }
}

/// Writes the first levels of both sides, or that there is none.
fn write_depths<W: Write>(writer: &mut W, exchange: &Exchange, levels: usize) -> io::Result<()> {
    if !exchange.has_levels(levels) {
        return writeln!(writer, "no level");
    }
    write_depth(writer, exchange, Side::Buy, levels)?;
    write_depth(writer, exchange, Side::Sell, levels)
}

/// Writes the first levels of a side.
fn write_depth<W: Write>(
    writer: &mut W,
    exchange: &Exchange,
    side: Side,
    levels: usize,
) -> io::Result<()> {
    for level in exchange.book.depth(side, levels) {
        write_top(writer, side, Some(level))?;
    }
    Ok(())
}

/// Writes what became of an incoming order, which has just traded. What rests has a number.
fn write_order<W: Write>(
    alloc: Global,
    writer: &mut W,
    style: Style,
    exchange: &Exchange,
    rests: Option<u64>,
    quantity: u64,
) -> io::Result<()> {
    if style.is_json {
        return write_json(
            alloc,
            writer,
            &order_value(alloc, exchange, rests, quantity)?,
        );
    }
    write_trades(writer, exchange)?;
    write_rest(writer, exchange, rests, quantity)
}

/// Trades as an auction does, and writes its trades and what it came to.
fn uncross<W: Write>(
    alloc: Global,
    writer: &mut W,
    style: Style,
    exchange: &mut Exchange,
    figures: &mut Figures,
) -> Result<(), Fault> {
    let auction = exchange.uncross()?;
    figures.count_auction(auction);
    if style.is_json {
        write_json(alloc, writer, &uncrossed_value(alloc, exchange, auction)?)?;
    } else {
        write_trades(writer, exchange)?;
        write_auction(writer, auction)?;
    }
    Ok(())
}

/// Changes a resting order, and writes what became of it.
fn change<W: Write>(
    alloc: Global,
    writer: &mut W,
    style: Style,
    exchange: &mut Exchange,
    figures: &mut Figures,
    command: Command,
) -> Result<(), Fault> {
    match command {
        Command::Replace(number, price, quantity) => {
            let rests = exchange.replace(number, price, quantity)?;
            figures.count(exchange);
            write_order(alloc, writer, style, exchange, rests, quantity)?;
        }
        Command::Execute(number, quantity) => {
            let left = exchange.execute(number, quantity)?;
            figures.count(exchange);
            if style.is_json {
                write_json(alloc, writer, &executed_value(alloc, exchange, left)?)?;
            } else {
                write_trades(writer, exchange)?;
                write_left(writer, number, left)?;
            }
        }
        Command::Reduce(number, quantity) => {
            let left = exchange.reduce(number, quantity)?;
            if style.is_json {
                write_json(alloc, writer, &left_value(alloc, left)?)?;
            } else {
                write_left(writer, number, left)?;
            }
        }
        Command::Cancel(number) => {
            let (price, quantity) = exchange.cancel(number)?;
            if style.is_json {
                let value = cancelled_value(alloc, price, quantity)?;
                write_json(alloc, writer, &value)?;
            } else {
                writeln!(writer, "cancelled {quantity} at {price}")?;
            }
        }
        _ => {}
    }
    Ok(())
}

/// Writes what a question is answered.
fn tell<W: Write>(
    alloc: Global,
    writer: &mut W,
    exchange: &Exchange,
    question: Question,
) -> Result<(), Fault> {
    match question {
        Question::Best => {
            write_best(writer, "bid", exchange.book.best_bid())?;
            write_best(writer, "ask", exchange.book.best_ask())?;
        }
        Question::Top(side) => write_top(writer, side, exchange.book.top(side))?,
        Question::Depth(levels) => write_depths(writer, exchange, levels)?,
        Question::Chart(levels) => write_chart(alloc, writer, exchange, levels)?,
        Question::Auction => write_auction(writer, exchange.book.auction())?,
        Question::Help => writer.write_all(COMMANDS.as_bytes())?,
    }
    Ok(())
}

/// Does what a line says, and answers it.
pub fn obey<W: Write>(
    alloc: Global,
    writer: &mut W,
    style: Style,
    exchange: &mut Exchange,
    figures: &mut Figures,
    line: &str,
) -> Result<(), Fault> {
    match Command::read(line)? {
        Command::Place(side, kind, quantity, tag) => {
            let rests = exchange.place(side, kind, quantity, tag)?;
            figures.count(exchange);
            write_order(alloc, writer, style, exchange, rests, quantity)?;
        }
        Command::Add(side, price, quantity, tag) => {
            let rests = exchange.add(side, price, quantity, tag)?;
            write_order(alloc, writer, style, exchange, rests, quantity)?;
        }
        Command::Uncross => uncross(alloc, writer, style, exchange, figures)?,
        Command::Ask(question) if style.is_json => {
            let value = value_of(alloc, exchange, question)?;
            write_json(alloc, writer, &value)?;
        }
        Command::Ask(question) => tell(alloc, writer, exchange, question)?,
        command => change(alloc, writer, style, exchange, figures, command)?,
    }
    Ok(())
}

/// Counts a line, and writes why it wasn't obeyed, if so.
///
/// # Errors
///
/// Writing failed, now or when the line was answered.
pub fn report<W: Write>(
    alloc: Global,
    writer: &mut W,
    style: Style,
    figures: &mut Figures,
    outcome: Result<(), Fault>,
) -> io::Result<()> {
    match outcome {
        Ok(()) => {
            figures.done = figures.done.saturating_add(1);
            Ok(())
        }
        Err(Fault::Device(error)) => Err(error),
        Err(fault) => {
            figures.bad = figures.bad.saturating_add(1);
            if style.is_json {
                return write_json(alloc, writer, &complaint(alloc, figures.lines, fault)?);
            }
            writeln!(writer, "line {}: {fault}", figures.lines)
        }
    }
}

/// Writes the totals, as the last line.
pub fn write_totals<W: Write>(
    alloc: Global,
    writer: &mut W,
    style: Style,
    exchange: &Exchange,
    figures: &Figures,
) -> io::Result<()> {
    if style.is_json {
        return write_json(alloc, writer, &totals_value(alloc, exchange, figures)?);
    }
    let (lines, done, bad) = (figures.lines, figures.done, figures.bad);
    write!(writer, "lines {lines}, done {done}, bad {bad}, ")?;
    match figures.traded {
        Some(traded) => write!(writer, "traded {traded}, ")?,
        None => write!(writer, "traded more than can be counted, ")?,
    }
    let bids = exchange.book.count(Side::Buy);
    let asks = exchange.book.count(Side::Sell);
    writeln!(writer, "bids {bids}, asks {asks}")
}
