//! Bytes in unusual places, numbers at and beyond their limits, and lines of the greatest length.
use crate::support::{is_answered, served};
use ord_script::ScriptEnd;
use std::alloc::{AllocError, Global};

/// The greatest length of an input.
const LONGEST: usize = 1_048_576;

/// The answer to a line that isn't a command.
const UNKNOWN: &str = "line 1: unknown command\n";

/// The answer to a line with too few words or too many.
const WRONG: &str = "line 1: wrong arguments\n";

/// The answer to a line with an invalid number.
const BAD: &str = "line 1: bad number\n";

/// The answer to a search, and then to a line that isn't a command.
const FOUND_AND_UNKNOWN: &str = "none\nline 2: unknown command\n";

/// A place for a byte, the bytes that fit there, those that part two words, and the line's answer with these, with a line feed, and with
/// others.
struct Place {
    before: &'static str,
    after: &'static str,
    fitting: &'static str,
    parting: &'static str,
    answer: &'static str,
    line_feed: &'static str,
    other: &'static str,
}

/// As a first word, inside a word, before a number, and inside a number.
const PLACES: [Place; 4] = [
    Place {
        before: "",
        after: "\n",
        fitting: "\r \t#",
        parting: "",
        answer: "",
        line_feed: "",
        other: UNKNOWN,
    },
    Place {
        before: "ran",
        after: "ks\n",
        fitting: "",
        parting: "",
        answer: "",
        line_feed: UNKNOWN,
        other: UNKNOWN,
    },
    Place {
        before: "find ",
        after: "2\n",
        fitting: "0123456789- \t",
        parting: "",
        answer: "none\n",
        line_feed: WRONG,
        other: BAD,
    },
    Place {
        before: "find 1",
        after: "2\n",
        fitting: "0123456789",
        parting: " \t",
        answer: "none\n",
        line_feed: FOUND_AND_UNKNOWN,
        other: BAD,
    },
];

/// Returns the answer to a script with this byte at a place.
fn wanted(place: &Place, byte: u8) -> &'static str {
    if byte == b'\n' {
        place.line_feed
    } else if place.fitting.as_bytes().contains(&byte) {
        place.answer
    } else if place.parting.as_bytes().contains(&byte) {
        WRONG
    } else {
        place.other
    }
}

/// Returns whether a script with this byte at a place has the right answer.
fn is_byte_answered(alloc: Global, place: &Place, byte: u8) -> Result<bool, AllocError> {
    let script = filled(alloc, place.before, byte, 1, place.after)?;
    Ok(is_answered(alloc, &script, wanted(place, byte)))
}

#[test]
fn each_byte_is_accepted_only_where_it_fits(rt: HostRuntime) -> Result<(), AllocError> {
    for place in &PLACES {
        for byte in 0u8..=255 {
            assert!(rt; is_byte_answered(rt.alloc(), place, byte)?);
        }
    }
    Ok(())
}

/// Numbers at their limits, each with what precedes it in a line, and the next number; each with what follows it.
const LIMITS: &[(&str, &str, &str)] = &[
    ("find ", "9223372036854775807", "9223372036854775808"),
    ("find -", "9223372036854775808", "9223372036854775809"),
    ("insert -", "9223372036854775808 0", "9223372036854775809 0"),
    ("insert 5 ", "18446744073709551615", "18446744073709551616"),
    ("neighbours ", "4294967295", "4294967296"),
    ("remove-index ", "4294967295", "4294967296"),
    ("get ", "4294967295.2", "4294967296.2"),
    ("get 1.", "18446744073709551615", "18446744073709551616"),
    ("max ", "18446744073709551615", "18446744073709551616"),
    ("drain ", "18446744073709551615", "18446744073709551616"),
    (
        "find-linear 1.2 ",
        "18446744073709551615 4",
        "18446744073709551616 4",
    ),
    ("similar-linear ", "4294967295 1 4", "4294967296 1 4"),
    (
        "similar-linear 1 ",
        "18446744073709551615 4",
        "18446744073709551616 4",
    ),
    ("compress ", "1", "2"),
    ("canonical ", "1", "2"),
];

/// Appends this many equal bytes between two texts to a line.
fn fill(
    line: &mut Vec<u8>,
    before: &str,
    byte: u8,
    count: usize,
    after: &str,
) -> Result<(), AllocError> {
    line.extend_from_slice(before.as_bytes())?;
    for _ in 0..count {
        line.push(byte)?;
    }
    line.extend_from_slice(after.as_bytes())
}

/// Returns this many equal bytes between two texts.
fn filled(
    alloc: Global,
    before: &str,
    byte: u8,
    count: usize,
    after: &str,
) -> Result<Vec<u8>, AllocError> {
    let mut line = Vec::new(alloc);
    fill(&mut line, before, byte, count, after)?;
    Ok(line)
}

/// Returns the number of line feeds in an answer.
fn count_lines(answer: &[u8]) -> usize {
    let mut count = 0usize;
    for byte in answer {
        if *byte == b'\n' {
            count = count.saturating_add(1);
        }
    }
    count
}

/// Returns whether a number after this many zeros makes a line a command with a one-line answer.
fn is_command(alloc: Global, before: &str, zeros: usize, most: &str) -> Result<bool, AllocError> {
    let line = filled(alloc, before, b'0', zeros, most)?;
    let (output, end) = served(alloc, &line);
    Ok(end == ScriptEnd::Done && count_lines(output.as_slice()) == 1)
}

/// Returns whether a number after this many equal digits is invalid.
fn is_bad(
    alloc: Global,
    before: &str,
    digit: u8,
    count: usize,
    next: &str,
) -> Result<bool, AllocError> {
    let line = filled(alloc, before, digit, count, next)?;
    Ok(is_answered(alloc, &line, BAD))
}

#[test]
fn numbers_are_valid_up_to_their_limits_and_bad_beyond(rt: HostRuntime) -> Result<(), AllocError> {
    for count in [0usize, 1, 50, 3000] {
        for (before, most, next) in LIMITS {
            assert!(rt; is_command(rt.alloc(), *before, count, *most)?);
            assert!(rt; is_bad(rt.alloc(), *before, b'0', count, *next)?);
            assert!(rt; is_bad(rt.alloc(), *before, b'9', count + 1, *next)?);
        }
    }
    Ok(())
}

/// Returns whether a script of the greatest length, of equal bytes between two texts, has this answer.
fn is_longest_answered(
    alloc: Global,
    before: &str,
    byte: u8,
    after: &str,
    answer: &str,
) -> Result<bool, AllocError> {
    let count = LONGEST.saturating_sub(before.len().saturating_add(after.len()));
    let script = filled(alloc, before, byte, count, after)?;
    Ok(script.len() == LONGEST && is_answered(alloc, &script, answer))
}

/// Scripts of the greatest length, each with its answer.
const LONG: &[(&str, u8, &str, &str)] = &[
    ("#", b'x', "", ""),
    ("", b'\n', "", ""),
    ("", b'\n', "x", "line 1048576: unknown command\n"),
    ("", b' ', "list", "list\n"),
    ("insert -", b'0', "5 7\nlist", "new 1.2\nlist 1.2=-5:7\n"),
    ("", b'x', "", UNKNOWN),
    ("list", b'\r', "\n", UNKNOWN),
    ("find 1 2", b'\t', "3", WRONG),
    ("find ", b'9', "", BAD),
];

#[test]
fn lines_of_a_megabyte_are_answered(rt: HostRuntime) -> Result<(), AllocError> {
    for (before, byte, after, answer) in LONG {
        assert!(rt; is_longest_answered(rt.alloc(), *before, *byte, *after, *answer)?);
    }
    Ok(())
}

#[test]
fn a_megabyte_and_one_byte_is_too_long(rt: HostRuntime) -> Result<(), AllocError> {
    let more = filled(rt.alloc(), "", b'\n', LONGEST, "\n")?;
    let (output, end) = served(rt.alloc(), &more);
    assert!(rt; end == ScriptEnd::TooLong && output.is_empty());
    Ok(())
}
