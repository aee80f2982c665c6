//! What is done for a command, and what is answered as text.

use crate::COMMANDS;
use crate::command::{Command, Fault, Question};
use crate::values::value_of;
use line_service::{Style, blank_value, done_value, write_json};
use std::alloc::{AllocError, Global};
use std::io;
use std::io::Write;
use timeline::{Text, Timeline};

/// Which word holds at which time. Each stretch owns its word.
pub type Calendar = Timeline<Text>;

// Writes the spans of words from one time until before another, one a line.
fn tell_spans<W: Write>(
    out: &mut W,
    style: Style,
    calendar: &Calendar,
    from: u64,
    until: u64,
) -> io::Result<()> {
    let mut is_free = true;
    for span in calendar.spans(from, until) {
        let (from, until) = (style.shown(span.from), style.shown(span.until));
        let word = span.value.as_str();
        writeln!(out, "{from} {until} {word}")?;
        is_free = false;
    }
    if is_free {
        writeln!(out, "no word")?;
    }
    Ok(())
}

// Writes the gaps from one time until before another, one a line.
fn tell_gaps<W: Write>(
    out: &mut W,
    style: Style,
    calendar: &Calendar,
    from: u64,
    until: u64,
) -> io::Result<()> {
    let mut is_full = true;
    for gap in calendar.gaps(from, until) {
        let (from, until) = (style.shown(gap.from), style.shown(gap.until));
        writeln!(out, "{from} {until}")?;
        is_full = false;
    }
    if is_full {
        writeln!(out, "no gap")?;
    }
    Ok(())
}

// Writes the whole span around a time.
fn tell_whole<W: Write>(
    out: &mut W,
    style: Style,
    calendar: &Calendar,
    time: u64,
) -> io::Result<()> {
    let Some(span) = calendar.span_at(time) else {
        return writeln!(out, "no word");
    };
    let (from, word) = (style.shown(span.from), span.value.as_str());
    match span.until {
        Some(until) => writeln!(out, "{from} {} {word}", style.shown(until)),
        None => writeln!(out, "{from} - {word}"),
    }
}

/// The most parts of a strip.
const PARTS: u64 = 48;

/// Returns a time as a row of equal parts, each by the first letter of the word that holds at its beginning, `.` for none. An empty time has
/// no part.
pub fn strip(
    alloc: Global,
    calendar: &Calendar,
    from: u64,
    until: u64,
) -> Result<String, AllocError> {
    let mut row = String::new(alloc);
    let part = until.saturating_sub(from).div_ceil(PARTS);
    let mut time = from;
    for _ in 0..PARTS {
        if time >= until {
            break;
        }
        row.push(match calendar.get(time) {
            Some(word) => word.as_str().chars().next().unwrap_or(' '),
            None => '.',
        })?;
        time = time.saturating_add(part);
    }
    Ok(row)
}

// Writes what a question is answered.
fn tell<W: Write>(
    alloc: Global,
    out: &mut W,
    style: Style,
    calendar: &Calendar,
    question: Question,
) -> Result<(), Fault> {
    match question {
        Question::Get(time) => match calendar.get(time) {
            Some(word) => writeln!(out, "{}", word.as_str())?,
            None => writeln!(out, "no word")?,
        },
        Question::At(time) => tell_whole(out, style, calendar, time)?,
        Question::Spans(from, until) => tell_spans(out, style, calendar, from, until)?,
        Question::Gaps(from, until) => tell_gaps(out, style, calendar, from, until)?,
        Question::Strip(from, until) if from >= until => writeln!(out, "no time")?,
        Question::Strip(from, until) => {
            let row = strip(alloc, calendar, from, until)?;
            writeln!(out, "{}", row.as_str())?;
        }
        Question::Help => out.write_all(COMMANDS.as_bytes())?,
    }
    Ok(())
}

// Writes that something was done.
fn confirm<W: Write>(alloc: Global, out: &mut W, style: Style) -> io::Result<()> {
    if style.is_json {
        write_json(alloc, out, &done_value(alloc)?)
    } else {
        writeln!(out, "done")
    }
}

// Makes a word hold, or none, until an end or for ever.
fn put(
    alloc: Global,
    calendar: &mut Calendar,
    from: u64,
    until: Option<u64>,
    word: Option<&str>,
) -> Result<(), Fault> {
    match (until, word) {
        (Some(until), Some(word)) => {
            calendar.set(from, until, Text::new(String::from_str(alloc, word)?))?;
        }
        (None, Some(word)) => {
            calendar.set_from(from, Text::new(String::from_str(alloc, word)?))?;
        }
        (Some(until), None) => calendar.clear(from, until)?,
        (None, None) => calendar.clear_from(from)?,
    }
    Ok(())
}

/// Does what a line says, and answers it. Returns whether it said anything.
pub fn obey<W: Write>(
    alloc: Global,
    out: &mut W,
    style: Style,
    calendar: &mut Calendar,
    line: &str,
) -> Result<bool, Fault> {
    match Command::read(line)? {
        Command::Set(from, until, word) => {
            put(alloc, calendar, from, until, Some(word))?;
            confirm(alloc, out, style)?;
        }
        Command::Clear(from, until) => {
            put(alloc, calendar, from, until, None)?;
            confirm(alloc, out, style)?;
        }
        Command::Ask(question) if style.is_json => {
            let value = value_of(alloc, style, calendar, question)?;
            write_json(alloc, out, &value)?;
        }
        Command::Ask(question) => tell(alloc, out, style, calendar, question)?,
        Command::Blank if style.is_json => {
            write_json(alloc, out, &blank_value(alloc))?;
            return Ok(false);
        }
        Command::Blank => return Ok(false),
    }
    Ok(true)
}
