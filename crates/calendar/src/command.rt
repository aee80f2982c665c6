//! What a line says, and what may be wrong with it.

use line_service::{TimeError, time};
use std::alloc::AllocError;
use std::io;
use std::str::SplitAsciiWhitespace;
use thiserror::Error;
use timeline::ReallocationError;

/// What a line says: which word holds from one time until before another, or for ever, or that none does; or what it asks. A date stands for
/// its seconds since 1970-01-01T00:00:00Z.
#[derive(Clone, Copy)]
pub enum Command<'a> {
    Set(u64, Option<u64>, &'a str),
    Clear(u64, Option<u64>),
    Ask(Question),
    Blank,
}

/// What a line asks.
#[derive(Clone, Copy)]
pub enum Question {
    Get(u64),
    At(u64),
    Spans(u64, u64),
    Gaps(u64, u64),
    Strip(u64, u64),
    Help,
}

/// Why a line is no command.
#[derive(Debug, Clone, Copy, PartialEq, Eq, Drop, Error)]
pub enum Misread {
    #[error("unknown command")]
    UnknownCommand,
    #[error("{0}")]
    Time(#[from] TimeError),
    #[error("a word is missing")]
    WordMissing,
    #[error("a word too many")]
    WordTooMany,
}

/// Why a line wasn't obeyed: every time has the word that it had.
#[derive(Debug, Drop, Error)]
pub enum Fault {
    #[error("{0}")]
    Misread(#[from] Misread),
    #[error("not text")]
    NotText,
    #[error("{0}, so nothing has changed")]
    Refused(#[from] ReallocationError),
    #[error("{0}, so nothing has changed")]
    Memory(#[from(alloc)] AllocError),
    #[error(transparent)]
    Device(#[from] io::Error),
}

impl<'a> Command<'a> {
    /// What a line says. Words are separated by white space of ASCII.
    pub fn read(line: &'a str) -> Result<Command<'a>, Misread> {
        let mut words = line.split_ascii_whitespace();
        let Some(word) = words.next() else {
            return Ok(Command::Blank);
        };
        let command = read_named(word, &mut words)?;
        match words.next() {
            None => Ok(command),
            Some(_) => Err(Misread::WordTooMany),
        }
    }
}

// The command of this name, with what follows.
fn read_named<'a>(
    name: &str,
    words: &mut SplitAsciiWhitespace<'a>,
) -> Result<Command<'a>, Misread> {
    match name {
        "set" => set(words),
        "clear" => clear(words),
        _ => Ok(Command::Ask(read_question(name, words)?)),
    }
}

// The question of this name, with what follows.
fn read_question(name: &str, words: &mut SplitAsciiWhitespace) -> Result<Question, Misread> {
    match name {
        "get" => Ok(Question::Get(time(words.next())?)),
        "at" => Ok(Question::At(time(words.next())?)),
        "spans" => stretch(words).map(|(from, until)| Question::Spans(from, until)),
        "gaps" => stretch(words).map(|(from, until)| Question::Gaps(from, until)),
        "strip" => stretch(words).map(|(from, until)| Question::Strip(from, until)),
        "help" => Ok(Question::Help),
        _ => Err(Misread::UnknownCommand),
    }
}

fn set<'a>(words: &mut SplitAsciiWhitespace<'a>) -> Result<Command<'a>, Misread> {
    let from = time(words.next())?;
    let until = end(words.next())?;
    let word = words.next().ok_or(Misread::WordMissing)?;
    Ok(Command::Set(from, until, word))
}

fn clear<'a>(words: &mut SplitAsciiWhitespace<'a>) -> Result<Command<'a>, Misread> {
    let from = time(words.next())?;
    let until = end(words.next())?;
    Ok(Command::Clear(from, until))
}

// A stretch of time: the time at which it begins, and the one at which it has ended.
fn stretch(words: &mut SplitAsciiWhitespace) -> Result<(u64, u64), Misread> {
    let from = time(words.next())?;
    let until = time(words.next())?;
    Ok((from, until))
}

// The end that a word says: a time, or none if the word is `-`.
fn end(word: Option<&str>) -> Result<Option<u64>, Misread> {
    match word {
        Some("-") => Ok(None),
        word => Ok(Some(time(word)?)),
    }
}
