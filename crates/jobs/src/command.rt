//! What a line says, and what may be wrong with it.

use line_service::{NumberError, TimeError, now, number, time};
use std::time::Clock;
use thiserror::Error;

/// What a line says: a job with its deadline, what becomes of one by its number, or what it asks. Times are in seconds since
/// 1970-01-01T00:00:00Z.
#[derive(Clone, Copy)]
pub enum Command<'a> {
    At(u64, &'a [u8]),
    Cancel(u64),
    Move(u64, u64),
    Due(u64),
    Claim(u64, u64),
    Next,
    List,
    Compact,
    Help,
    Blank,
}

/// Why a line is no command.
#[derive(Debug, Clone, Copy, PartialEq, Eq, Drop, Error)]
pub enum Misread {
    #[error("unknown command")]
    UnknownCommand,
    #[error("{0}")]
    Number(#[from] NumberError),
    #[error("{0}")]
    Time(#[from] TimeError),
    #[error("a payload is missing")]
    PayloadMissing,
    #[error("a word too many")]
    WordTooMany,
    #[error("not text")]
    NotText,
}

impl<'a> Command<'a> {
    /// What a line says. A time that it leaves out is that of the clock.
    pub fn read(clock: &impl Clock, line: &'a [u8]) -> Result<Command<'a>, Misread> {
        if str::from_utf8(line).is_err() {
            return Err(Misread::NotText);
        }
        let (word, rest) = split_word(line);
        match word {
            b"" => Ok(Command::Blank),
            b"at" => at(rest),
            b"cancel" | b"done" => cancel(rest),
            b"move" => relocate(rest),
            b"due" => due(clock, rest),
            b"claim" => claim(clock, rest),
            b"next" => alone(Command::Next, rest),
            b"list" => alone(Command::List, rest),
            b"compact" => alone(Command::Compact, rest),
            b"help" => alone(Command::Help, rest),
            _ => Err(Misread::UnknownCommand),
        }
    }
}

// Splits a text behind its first word.
fn split_word(text: &[u8]) -> (&[u8], &[u8]) {
    let text = text.trim_ascii_start();
    match text.iter().position(|byte| byte.is_ascii_whitespace()) {
        Some(end) => text.split_at(end),
        None => (text, &[]),
    }
}

// Returns the word in front, if there is one, and what follows it.
fn first_word(text: &[u8]) -> Result<(Option<&str>, &[u8]), Misread> {
    let (word, rest) = split_word(text);
    match str::from_utf8(word) {
        Ok("") => Ok((None, rest)),
        Ok(word) => Ok((Some(word), rest)),
        Err(_) => Err(Misread::NotText),
    }
}

// The number in front, and what follows it.
fn first_number(text: &[u8]) -> Result<(u64, &[u8]), Misread> {
    let (word, rest) = first_word(text)?;
    Ok((number(word)?, rest))
}

// The time in front, and what follows it.
fn first_time(text: &[u8]) -> Result<(u64, &[u8]), Misread> {
    let (word, rest) = first_word(text)?;
    Ok((time(word)?, rest))
}

fn cancel<'a>(text: &[u8]) -> Result<Command<'a>, Misread> {
    let (id, rest) = first_number(text)?;
    alone(Command::Cancel(id), rest)
}

fn relocate<'a>(text: &[u8]) -> Result<Command<'a>, Misread> {
    let (id, rest) = first_number(text)?;
    let (deadline, rest) = first_time(rest)?;
    alone(Command::Move(id, deadline), rest)
}

// What is due by now, or by the time that is given.
fn due<'a>(clock: &impl Clock, text: &[u8]) -> Result<Command<'a>, Misread> {
    if text.trim_ascii().is_empty() {
        return Ok(Command::Due(now(clock)?));
    }
    let (time, rest) = first_time(text)?;
    alone(Command::Due(time), rest)
}

// A claim until a time; if two times are given, the first is taken for now.
fn claim<'a>(clock: &impl Clock, text: &[u8]) -> Result<Command<'a>, Misread> {
    let (first, rest) = first_time(text)?;
    if rest.trim_ascii().is_empty() {
        return Ok(Command::Claim(now(clock)?, first));
    }
    let (until, rest) = first_time(rest)?;
    alone(Command::Claim(first, until), rest)
}

fn nothing_more(text: &[u8]) -> Result<(), Misread> {
    if text.trim_ascii().is_empty() {
        Ok(())
    } else {
        Err(Misread::WordTooMany)
    }
}

fn alone<'a>(command: Command<'a>, rest: &[u8]) -> Result<Command<'a>, Misread> {
    nothing_more(rest)?;
    Ok(command)
}

// The payload is the rest of the line, without the white space at its ends.
fn at(text: &[u8]) -> Result<Command<'_>, Misread> {
    let (deadline, rest) = first_time(text)?;
    let payload = rest.trim_ascii();
    if payload.is_empty() {
        return Err(Misread::PayloadMissing);
    }
    Ok(Command::At(deadline, payload))
}
