//! The entries between two of an arena, over every order of up to four keys, beside a stretch of the plain vector.
use crate::support::{Beside, ORDERS, gives, start_of};
use std::alloc::Global;
use std::cmp::Ordering;

/// Whether the entries between each two pointers are those between their places.
fn are_right(beside: &Beside) -> bool {
    for (i, first) in beside.entries.iter().enumerate() {
        for (j, last) in beside.entries.iter().enumerate() {
            let Some(range) = beside.arena.iter_between(first.p, last.p) else {
                return false;
            };
            let wanted = if i <= j { &beside.entries[i..=j] } else { &[] };
            if !gives(range, wanted, i) {
                return false;
            }
        }
    }
    true
}

/// Whether an arena of n keys in this order is right, and gives nothing for pointers that are stale.
fn is_right(alloc: Global, n: usize, number: usize, is_compact: bool) -> Option<bool> {
    let mut beside = start_of(alloc, n, number, is_compact)?;
    if !are_right(&beside) {
        return Some(false);
    }
    let Some(entry) = beside.entries.pop() else {
        return Some(true);
    };
    beside.arena.remove(entry.p);
    let stale = beside.arena.iter_between(entry.p, entry.p).is_none();
    Some(stale && are_right(&beside))
}

#[test]
fn two_pointers_enclose_the_entries_between_them(rt: HostRuntime) {
    for (n, orders) in &ORDERS[..5] {
        for number in 0..*orders {
            assert_eq!(rt; is_right(rt.alloc(), *n, number, false), Some(true));
            assert_eq!(rt; is_right(rt.alloc(), *n, number, true), Some(true));
        }
    }
}

/// The answers of closures for the keys 1, 3 and 5: those of a key, those of several keys, and those that are in no order.
const ANSWERS: [[Ordering; 3]; 7] = [
    [Ordering::Equal, Ordering::Greater, Ordering::Greater],
    [Ordering::Less, Ordering::Equal, Ordering::Greater],
    [Ordering::Less, Ordering::Equal, Ordering::Equal],
    [Ordering::Less, Ordering::Less, Ordering::Less],
    [Ordering::Equal, Ordering::Equal, Ordering::Equal],
    [Ordering::Greater, Ordering::Equal, Ordering::Less],
    [Ordering::Equal, Ordering::Less, Ordering::Equal],
];

/// The answer for a key.
fn answer(answers: &[Ordering; 3], k: u64) -> Ordering {
    match k {
        1 => answers[0],
        3 => answers[1],
        _ => answers[2],
    }
}

/// Whether a closure finds the entries for which it answers `Equal`; or else, if its answers are in no order, entries that follow one
/// another.
fn is_found(beside: &Beside, number: usize) -> bool {
    let answers = &ANSWERS[number % 7];
    let mut first = 0usize;
    let mut end = 0usize;
    for entry in beside.entries.iter() {
        match answer(answers, entry.k) {
            Ordering::Less => {
                first = first.saturating_add(1);
                end = end.saturating_add(1);
            }
            Ordering::Equal => end = end.saturating_add(1),
            Ordering::Greater => {}
        }
    }
    let range = beside.arena.range_by(|k| answer(answers, *k));
    if number < 5 {
        let is_part = first <= end && end <= beside.entries.len();
        return is_part && gives(range, &beside.entries[first..end], number);
    }
    range.count() <= beside.entries.len()
}

#[test]
fn a_closure_finds_the_entries_that_it_calls_equal(rt: HostRuntime) {
    for (n, orders) in &ORDERS[..5] {
        for number in 0..*orders {
            let beside = start_of(rt.alloc(), *n, number, false).expect(&rt, "memory");
            for answers in 0usize..7 {
                assert!(rt; is_found(&beside, answers));
            }
        }
    }
}
