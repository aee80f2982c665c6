//! What is answered in JSON.

use crate::COMMANDS;
use crate::answers::{Calendar, strip};
use crate::command::Question;
use line_service::Style;
use serde_json::{Value, json};
use std::alloc::Global;
use std::io;

// Returns a span of a word; without an end it is null.
fn span_value(
    alloc: Global,
    style: Style,
    from: u64,
    until: Option<u64>,
    word: &str,
) -> io::Result<Value> {
    let from = style.time_value(alloc, from)?;
    let until = match until {
        Some(until) => style.time_value(alloc, until)?,
        None => Value::Null,
    };
    Ok(json!(in alloc; {"from": from, "until": until, "word": word})?)
}

// Returns the spans of words from one time until before another.
fn spans_value(
    alloc: Global,
    style: Style,
    calendar: &Calendar,
    from: u64,
    until: u64,
) -> io::Result<Value> {
    let mut spans = Vec::new(alloc);
    for span in calendar.spans(from, until) {
        let word = span.value.as_str();
        spans.push(span_value(alloc, style, span.from, Some(span.until), word)?)?;
    }
    Ok(json!(in alloc; {"spans": spans})?)
}

// Returns the gaps from one time until before another.
fn gaps_value(
    alloc: Global,
    style: Style,
    calendar: &Calendar,
    from: u64,
    until: u64,
) -> io::Result<Value> {
    let mut gaps = Vec::new(alloc);
    for gap in calendar.gaps(from, until) {
        let from = style.time_value(alloc, gap.from)?;
        let until = style.time_value(alloc, gap.until)?;
        gaps.push(json!(in alloc; {"from": from, "until": until})?)?;
    }
    Ok(json!(in alloc; {"gaps": gaps})?)
}

// Returns the whole span around a time.
fn whole_value(alloc: Global, style: Style, calendar: &Calendar, time: u64) -> io::Result<Value> {
    let span = match calendar.span_at(time) {
        Some(span) => span_value(alloc, style, span.from, span.until, span.value.as_str())?,
        None => Value::Null,
    };
    Ok(json!(in alloc; {"span": span})?)
}

// Returns the word at a time.
fn word_value(alloc: Global, calendar: &Calendar, time: u64) -> io::Result<Value> {
    match calendar.get(time) {
        Some(word) => Ok(json!(in alloc; {"word": word.as_str()})?),
        None => Ok(json!(in alloc; {"word": null})?),
    }
}

/// Returns the answer to a question.
///
/// # Errors
///
/// An allocation failed.
pub fn value_of(
    alloc: Global,
    style: Style,
    calendar: &Calendar,
    question: Question,
) -> io::Result<Value> {
    match question {
        Question::Get(time) => word_value(alloc, calendar, time),
        Question::At(time) => whole_value(alloc, style, calendar, time),
        Question::Spans(from, until) => spans_value(alloc, style, calendar, from, until),
        Question::Gaps(from, until) => gaps_value(alloc, style, calendar, from, until),
        Question::Strip(from, until) => {
            Ok(json!(in alloc; {"strip": strip(alloc, calendar, from, until)?})?)
        }
        Question::Help => Ok(json!(in alloc; {"help": COMMANDS})?),
    }
}
