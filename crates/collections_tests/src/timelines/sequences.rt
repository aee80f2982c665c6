//! Every sequence of three settings, compared with a plain array.
use super::Numbers;
use std::alloc::Global;
use timeline::ReallocationError;

/// The times that the test looks at: 0, 1, 2, 3 and the greatest.
fn time(index: usize) -> u64 {
    if index < 4 { index as u64 } else { u64::MAX }
}

/// A setting of a plain array: from the time at one index until before the time at another, or for ever.
type Call = (usize, Option<usize>, Option<u8>);

/// Returns the call with this number, of all from a time until another or for ever, to nothing, 1 or 2.
fn call(n: usize) -> Call {
    let value = match n % 3 {
        0 => None,
        1 => Some(1),
        _ => Some(2),
    };
    let until = match (n / 15) % 5 {
        0 => None,
        index => Some(index),
    };
    ((n / 3) % 5, until, value)
}

/// Makes a call on a timeline.
fn make(numbers: &mut Numbers, (from, until, value): Call) -> Result<(), ReallocationError> {
    let from = time(from);
    match (until, value) {
        (Some(until), Some(value)) => numbers.set(from, time(until), value),
        (Some(until), None) => numbers.clear(from, time(until)),
        (None, Some(value)) => numbers.set_from(from, value),
        (None, None) => numbers.clear_from(from),
    }
}

/// Makes a call on a plain array.
fn make_plainly(values: &mut [Option<u8>; 5], (from, until, value): Call) {
    let until = until.unwrap_or(5);
    let mut index = 0usize;
    for held in values.iter_mut() {
        if from <= index && index < until {
            *held = value;
        }
        index = index.wrapping_add(1);
    }
}

/// Returns whether the value at each time is that of the array, and each time without one is in a gap, unless it is the greatest.
fn has_values(numbers: &Numbers, values: &[Option<u8>; 5]) -> bool {
    let mut gaps = 0u64;
    for gap in numbers.gaps(0, 4) {
        gaps = gaps.wrapping_add(gap.until.wrapping_sub(gap.from));
    }
    let mut index = 0usize;
    for value in values.iter() {
        if numbers.get(time(index)).copied() != *value {
            return false;
        }
        if index < 4 && value.is_none() {
            gaps = gaps.wrapping_sub(1);
        }
        index = index.wrapping_add(1);
    }
    gaps == 0
}

/// Returns the first and the last time of the array with a value.
fn ends(values: &[Option<u8>; 5]) -> Option<(usize, usize)> {
    let mut first = None;
    let mut last = None;
    let mut index = 0usize;
    for value in values.iter() {
        if value.is_some() {
            last = Some(index);
            if first.is_none() {
                first = Some(index);
            }
        }
        index = index.wrapping_add(1);
    }
    Some((first?, last?))
}

/// Returns whether the first and the last span, and the times without a value, are those of the array.
fn has_ends(numbers: &Numbers, values: &[Option<u8>; 5]) -> bool {
    let first = match numbers.first_span() {
        Some(span) => Some((span.from, numbers.is_free(0, span.from))),
        None => None,
    };
    let last = match numbers.last_span() {
        Some(span) => Some(match span.until {
            Some(until) => (until, numbers.is_free(until, u64::MAX)),
            None => (0, true),
        }),
        None => None,
    };
    let (wanted_first, wanted_last) = match ends(values) {
        // a value at the greatest time holds for ever; so does one whose end is not before that
        Some((from, 4)) => (Some((time(from), true)), Some((0, true))),
        Some((from, until)) => (Some((time(from), true)), Some((end(until), true))),
        None => (None, None),
    };
    first == wanted_first && last == wanted_last
}

/// The time at which the value at the time of an index ends, if none holds at the next.
fn end(index: usize) -> u64 {
    time(index.wrapping_add(1))
}

/// Makes three calls on a timeline and a plain array. Returns whether they agree.
fn is_plain(alloc: Global, calls: (usize, usize, usize)) -> Result<bool, ReallocationError> {
    let mut numbers = Numbers::new(alloc);
    let mut values = [None; 5];
    make(&mut numbers, call(calls.0))?;
    make(&mut numbers, call(calls.1))?;
    make(&mut numbers, call(calls.2))?;
    make_plainly(&mut values, call(calls.0));
    make_plainly(&mut values, call(calls.1));
    make_plainly(&mut values, call(calls.2));
    Ok(has_values(&numbers, &values) && has_ends(&numbers, &values))
}

// The first call sets 1: 2 would be 1 by another name, and on an empty timeline clearing does nothing.
#[test]
fn every_sequence_of_three_settings_agrees_with_a_plain_array(rt: HostRuntime) {
    for first in 0..25usize {
        let first = first * 3 + 1;
        for second in 0..75usize {
            for third in 0..75usize {
                assert!(rt; is_plain(rt.alloc(), (first, second, third)).expect(&rt, "memory"));
            }
        }
    }
}
