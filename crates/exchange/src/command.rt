//! What a line says, and what may be wrong with it.

use line_service::{NumberError, number};
use order_book::{AddingError, OrderKind, PlacingError, ReplacingError, Side};
use std::alloc::AllocError;
use std::io;
use std::str::SplitAsciiWhitespace;
use thiserror::Error;

/// What a line says. Orders that come to rest are numbered from 1 on.
#[derive(Clone, Copy)]
pub enum Command {
    /// An order of a side and kind for this quantity, with its owner's tag.
    Place(Side, OrderKind, u64, u64),
    /// An order of a side at a price for this quantity, with its owner's tag, that rests without trading.
    Add(Side, u64, u64, u64),
    Cancel(u64),
    Execute(u64, u64),
    Reduce(u64, u64),
    Replace(u64, u64, u64),
    /// All that can trade at one price does.
    Uncross,
    Ask(Question),
}

/// What a line asks.
#[derive(Clone, Copy)]
pub enum Question {
    Best,
    Top(Side),
    Depth(usize),
    Chart(usize),
    Auction,
    Help,
}

/// Why a line is no command.
#[derive(Debug, Clone, Copy, PartialEq, Eq, Drop, Error)]
pub enum Misread {
    #[error("unknown command")]
    UnknownCommand,
    #[error("neither buy nor sell")]
    NoSide,
    #[error("{0}")]
    Number(#[from] NumberError),
    #[error("a word too many")]
    WordTooMany,
}

/// Why a line wasn't obeyed: every order is as it was.
#[derive(Debug, Drop, Error)]
pub enum Fault {
    #[error("{0}")]
    Misread(#[from] Misread),
    #[error("not text")]
    NotText,
    #[error("no such order")]
    NoOrder,
    #[error("an execution of nothing")]
    NoExecution,
    #[error("{0}")]
    Placing(#[from] PlacingError),
    #[error("{0}")]
    Adding(#[from] AddingError),
    #[error("{0}")]
    Replacing(#[from] ReplacingError),
    #[error("{0}")]
    Memory(#[from(alloc)] AllocError),
    #[error(transparent)]
    Device(#[from] io::Error),
}

impl Command {
    /// Reads what a line says.
    pub fn read(line: &str) -> Result<Command, Misread> {
        let mut words = line.split_ascii_whitespace();
        let word = words.next().unwrap_or("");
        let command = read_named(word, &mut words)?;
        match words.next() {
            None => Ok(command),
            Some(_) => Err(Misread::WordTooMany),
        }
    }
}

// The command of this name, with the words that follow.
fn read_named(name: &str, words: &mut SplitAsciiWhitespace) -> Result<Command, Misread> {
    match name {
        "buy" => limit(Side::Buy, words),
        "sell" => limit(Side::Sell, words),
        "post" | "ioc" | "fok" => of_kind(name, words),
        "market" => market(words),
        "add" => add(words),
        _ => read_other(name, words),
    }
}

// A command that places no order.
fn read_other(name: &str, words: &mut SplitAsciiWhitespace) -> Result<Command, Misread> {
    match name {
        "cancel" => Ok(Command::Cancel(number(words.next())?)),
        "execute" => execute(words),
        "reduce" => reduce(words),
        "replace" => replace(words),
        "uncross" => Ok(Command::Uncross),
        _ => Ok(Command::Ask(read_question(name, words)?)),
    }
}

// The question of this name, with the words that follow.
fn read_question(name: &str, words: &mut SplitAsciiWhitespace) -> Result<Question, Misread> {
    match name {
        "best" => Ok(Question::Best),
        "top" => Ok(Question::Top(side(words.next())?)),
        "depth" => Ok(Question::Depth(levels(words)?)),
        "chart" => Ok(Question::Chart(levels(words)?)),
        "auction" => Ok(Question::Auction),
        "help" => Ok(Question::Help),
        _ => Err(Misread::UnknownCommand),
    }
}

// A limit order: a price, a quantity and perhaps a tag.
fn limit(side: Side, words: &mut SplitAsciiWhitespace) -> Result<Command, Misread> {
    let price = number(words.next())?;
    let quantity = number(words.next())?;
    let tag = tag(words)?;
    Ok(Command::Place(side, OrderKind::Limit(price), quantity, tag))
}

// An order of the kind with this name: a side, and then as a limit order.
fn of_kind(name: &str, words: &mut SplitAsciiWhitespace) -> Result<Command, Misread> {
    let side = side(words.next())?;
    let price = number(words.next())?;
    let quantity = number(words.next())?;
    let tag = tag(words)?;
    let kind = match name {
        "post" => OrderKind::PostOnly(price),
        "ioc" => OrderKind::ImmediateOrCancel(price),
        _ => OrderKind::FillOrKill(price),
    };
    Ok(Command::Place(side, kind, quantity, tag))
}

fn add(words: &mut SplitAsciiWhitespace) -> Result<Command, Misread> {
    let side = side(words.next())?;
    let price = number(words.next())?;
    let quantity = number(words.next())?;
    let tag = tag(words)?;
    Ok(Command::Add(side, price, quantity, tag))
}

fn market(words: &mut SplitAsciiWhitespace) -> Result<Command, Misread> {
    let side = side(words.next())?;
    let quantity = number(words.next())?;
    let tag = tag(words)?;
    Ok(Command::Place(side, OrderKind::Market, quantity, tag))
}

fn execute(words: &mut SplitAsciiWhitespace) -> Result<Command, Misread> {
    let order = number(words.next())?;
    let quantity = number(words.next())?;
    Ok(Command::Execute(order, quantity))
}

fn reduce(words: &mut SplitAsciiWhitespace) -> Result<Command, Misread> {
    let order = number(words.next())?;
    let quantity = number(words.next())?;
    Ok(Command::Reduce(order, quantity))
}

fn replace(words: &mut SplitAsciiWhitespace) -> Result<Command, Misread> {
    let order = number(words.next())?;
    let price = number(words.next())?;
    let quantity = number(words.next())?;
    Ok(Command::Replace(order, price, quantity))
}

// How many levels to show: five, if the line doesn't say.
fn levels(words: &mut SplitAsciiWhitespace) -> Result<usize, Misread> {
    match words.next() {
        Some(word) => Ok(number(Some(word))? as usize),
        None => Ok(5),
    }
}

// The side that a word names.
fn side(word: Option<&str>) -> Result<Side, Misread> {
    match word {
        Some("buy") => Ok(Side::Buy),
        Some("sell") => Ok(Side::Sell),
        _ => Err(Misread::NoSide),
    }
}

// The tag at the end of a line: 0, if there is none.
fn tag(words: &mut SplitAsciiWhitespace) -> Result<u64, Misread> {
    match words.next() {
        Some(word) => Ok(number(Some(word))?),
        None => Ok(0),
    }
}
