//! Times: seconds since 1970-01-01T00:00:00Z, in digits or as a date with a zone.

ghost use Rattle.std.specs.Prelude.{◌≡◌, ◌↔◌, ◌<◌, ◌≤◌, ◌^◌, ◌*◌, ℕ, pos, Err, None, IfOk, IfErr, IfSome, IsOk, IsSome, IsSomeAnd, string_bytes};
ghost use Rattle.line_service.specs.Times.{IsDate, IsTime, IsTimeData, IsTimeText, ReadsAsDate, last_date};
ghost use Rattle.serde_json.specs.View.{view};

use crate::numbers::{NumberError, number};
use crate::style::Style;
use jiff::Timestamp;
use jiff::fmt::temporal::DateTimePrinter;
use serde_json::Value;
use std::alloc::{AllocError, Global};
use std::fmt;
use std::time::Clock;
use thiserror::Error;

/// Why a word is no time, or there is no time.
#[derive(Debug, Clone, Copy, PartialEq, Eq, Drop, Error)]
pub enum TimeError {
    /// The word is no number, and isn't meant as a date.
    #[error("{0}")]
    Number(NumberError),
    /// The word is meant as a date, and stands for no time.
    #[error("{0}")]
    Date(DateError),
    /// The clock can't be read, or is set to before 1970.
    #[error("no clock")]
    NoClock,
}

/// Why a word is no date that stands for a time.
#[derive(Debug, Clone, Copy, PartialEq, Eq, Drop, Error)]
pub enum DateError {
    /// It is no date with a time of day and a zone.
    #[error("not a date: {0}")]
    Unreadable(jiff::Error),
    /// It has a part of a second.
    #[error("not a date of whole seconds")]
    Fraction,
    /// It is before 1970-01-01T00:00:00Z.
    #[error("a date before 1970")]
    TooEarly,
}

/// Returns the time that a word says, in seconds since 1970-01-01T00:00:00Z: a number in decimal digits alone, or a date of RFC 3339 with a
/// zone, as `2026-12-01T08:00:00Z` or `2026-12-01T09:00:00+01:00`.
///
/// # Errors
///
/// - `Number`: there is no word, the number has more than 64 bits, or the word is neither a number nor has a dash behind its first four bytes.
/// - `Date`: the word has a dash there, and is no date, or one that isn't a whole number of seconds from 1970 on.
pub fn time(word: Option<&str>) -> Result<u64, TimeError>
    ensures missing { (result ≡ Err (TimeError.Number NumberError.Missing)) ↔ (word.entry ≡ None) }
    ensures value { IfOk result (λ n. IsSomeAnd word.entry (λ w. IsTime w.now n)) }
    ensures ok { IfSome word.entry (λ w. (n : ℕ) → n < 2 ^ 64 → IsTime w.now n → IsOk result) }
{
    match number(word) {
        Ok(seconds) => Ok(seconds),
        Err(error) => match word {
            Some(word) => time_of_date(word, error),
            None => Err(TimeError::Number(error)),
        },
    }
}

// Returns the time of a word that is no number, for this reason: that of a date, if it is one. It stands apart since most words are numbers,
// and would have to move the large error of a date.
#[cold]
#[inline(never)]
fn time_of_date(word: &str, error: NumberError) -> Result<u64, TimeError>
    ensures number { (e : NumberError) → result ≡ Err (TimeError.Number e) → e ≡ error }
    ensures value { IfOk result (λ n. ReadsAsDate word.now n) }
    ensures ok { (n : ℕ) → ReadsAsDate word.now n → IsOk result }
{
    match date(word) {
        Ok(seconds) => Ok(seconds),
        Err(DateError::Unreadable(_)) if !is_meant_as_date(word) => Err(TimeError::Number(error)),
        Err(error) => Err(TimeError::Date(error)),
    }
}

// Returns the seconds from 1970 to a date.
fn date(word: &str) -> Result<u64, DateError>
    ensures value { IfOk result (λ n. ReadsAsDate word.now n) }
    ensures ok { (n : ℕ) → ReadsAsDate word.now n → IsOk result }
{
    let instant: Timestamp = match word.parse() {
        Ok(instant) => instant,
        Err(error) => return Err(DateError::Unreadable(error)),
    };
    let seconds = instant.as_second();
    if instant.as_nanosecond() != seconds as i128 * 1_000_000_000 {
        return Err(DateError::Fraction);
    }
    if seconds < 0 {
        return Err(DateError::TooEarly);
    }
    Ok(seconds as u64)
}

// Returns whether a word has a dash where a date has one behind its year.
fn is_meant_as_date(word: &str) -> bool {
    word.as_bytes().get(4) == Some(&b'-')
}

/// Returns the time of a clock, in whole seconds since 1970-01-01T00:00:00Z.
///
/// # Errors
///
/// - `NoClock`: the clock can't be read, or is set to before 1970.
pub fn now(clock: &impl Clock) -> Result<u64, TimeError>
    ensures err { IfErr result (λ error. error ≡ TimeError.NoClock) }
{
    match Timestamp::now(clock) {
        Ok(instant) => Ok(instant.as_second() as u64),
        Err(_) => Err(TimeError::NoClock),
    }
}

// Returns the instant so many seconds after 1970-01-01T00:00:00Z, if it has a date.
fn instant_of(seconds: u64) -> Option<Timestamp>
    ensures value { IfSome result (λ t. t.nanosecond ≡ pos (seconds * 1_000_000_000)) }
    ensures some { IsSome result ↔ seconds ≤ last_date }
{
    Timestamp::from_second(i64::try_from(seconds).ok()?).ok()
}

// Returns the text of a date, if there is one.
fn date_text(alloc: Global, seconds: u64) -> Result<Option<String>, AllocError>
    ensures value { IfOk result (λ told. IfSome told (λ text. IsDate seconds (string_bytes text))) }
    ensures some { IfOk result (λ told. IsSome told ↔ seconds ≤ last_date) }
{
    let Some(instant) = instant_of(seconds) else {
        return Ok(None);
    };
    let text = DateTimePrinter::new().timestamp_text(instant.to_plain());
    Ok(Some(String::from_str(alloc, text.as_str())?))
}

impl Style {
    /// Returns a time as text: its digits, or if dates are asked for its date by UTC, as `2026-12-01T08:00:00Z`. Times after
    /// 9999-12-30T22:00:00Z have no date.
    pub fn time_text(self, alloc: Global, seconds: u64) -> Result<String, AllocError>
        ensures { IfOk result (λ text. IsTimeText self.has_dates seconds (string_bytes text)) }
    {
        if self.has_dates {
            if let Some(text) = date_text(alloc, seconds)? {
                return Ok(text);
            }
        }
        format!(in alloc; "{seconds}")
    }

    /// Returns a time in JSON: a number, or if dates are asked for its date as text.
    pub fn time_value(self, alloc: Global, seconds: u64) -> Result<Value, AllocError>
        ensures { IfOk result (λ value. IsTimeData self.has_dates seconds (view value)) }
    {
        if self.has_dates {
            if let Some(text) = date_text(alloc, seconds)? {
                return Ok(Value::from(text));
            }
        }
        Ok(Value::from(seconds))
    }

    /// Returns a time, to be written as this style asks for.
    pub fn shown(self, seconds: u64) -> ShownTime
        ensures { (result.seconds ≡ seconds) × (result.has_dates ≡ self.has_dates) }
    {
        ShownTime {
            seconds,
            has_dates: self.has_dates,
        }
    }
}

/// A time that is written in digits, or as a date if it has one.
#[derive(Clone, Copy)]
pub struct ShownTime {
    seconds: u64,
    has_dates: bool,
}

impl fmt::Display for ShownTime {
    fn fmt<W: fmt::Write>(&self, f: &mut fmt::Formatter<W>) -> fmt::Result {
        if self.has_dates {
            if let Some(instant) = instant_of(self.seconds) {
                let text = DateTimePrinter::new().timestamp_text(instant.to_plain());
                return f.write_str(text.as_str());
            }
        }
        self.seconds.fmt(f)
    }
}
