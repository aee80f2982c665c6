//! All bounds of ranges over every order of up to six keys, beside a stretch of the plain vector.
use crate::support::{BOUNDS, Entry, Numbers, ORDERS, bound, gives, is_from, is_until, start_of};
use sorted_arena::{P0, Range};
use std::alloc::Global;
use std::ops::Bound;
use std::process::Abort;

/// The entries whose keys are between these bounds, as a stretch of the vector. There are none if the range runs backwards.
fn stretch<'e>(entries: &'e [Entry], from: Bound<u64>, until: Bound<u64>) -> &'e [Entry] {
    let mut first = 0usize;
    let mut end = 0usize;
    for entry in entries {
        if !is_from(from, entry.k) {
            first = first.saturating_add(1);
        }
        if is_until(until, entry.k) {
            end = end.saturating_add(1);
        }
    }
    if first < end && end <= entries.len() {
        &entries[first..end]
    } else {
        &[]
    }
}

/// How many ways there are to take so many entries, each from the front or from the back.
const WAYS: [usize; 6] = [1, 2, 4, 8, 16, 32];

/// Whether a range gives its stretch of the vector in each way.
fn is_right(arena: &Numbers, entries: &[Entry], from: Bound<u64>, until: Bound<u64>) -> bool {
    let wanted = stretch(entries, from, until);
    for bits in 0..WAYS[wanted.len() % 6] {
        if !gives(arena.range((from, until)), wanted, bits) {
            return false;
        }
    }
    arena.range((from, until)).count() == wanted.len()
}

/// The first bounds between which an arena of n keys in this order, compacted or not, gives anything else than the vector.
fn wrong_bounds(alloc: Global, n: usize, number: usize, is_compact: bool) -> Option<(u64, u64)> {
    let Some(beside) = start_of(alloc, n, number, is_compact) else {
        return Some((BOUNDS, BOUNDS));
    };
    for from in 0..BOUNDS {
        for until in 0..BOUNDS {
            if !is_right(&beside.arena, &beside.entries, bound(from), bound(until)) {
                return Some((from, until));
            }
        }
    }
    None
}

#[test]
fn a_range_gives_its_entries_from_both_ends(rt: HostRuntime) {
    for (n, orders) in &ORDERS {
        for number in 0..*orders {
            assert_eq!(rt; wrong_bounds(rt.alloc(), *n, number, false), None);
            assert_eq!(rt; wrong_bounds(rt.alloc(), *n, number, true), None);
        }
    }
}

/// An arena with equal keys.
fn tens(alloc: Global) -> Option<Numbers> {
    let mut arena = Numbers::new(alloc);
    for (k, v) in &[(30u64, 3usize), (10, 0), (20, 1), (20, 2), (40, 4)] {
        arena.insert(*k, *v).ok()?;
    }
    Some(arena)
}

/// Whether a range has these values, and as many keys and items.
fn has_values(alloc: Global, range: Range<'_, u64, usize, P0>, wanted: &[usize]) -> bool {
    match range.values().copied().collect::<Vec<usize>>(alloc) {
        Ok(values) => values.as_slice() == wanted,
        Err(_) => false,
    }
}

#[test]
fn range_expressions_select_entries_by_key(rt: HostRuntime) {
    let arena = tens(rt.alloc()).expect(&rt, "memory");
    check_expressions(&rt, rt.alloc(), &arena);
    check_empty(&rt, rt.alloc(), &arena);
}

fn check_expressions(rt: &impl Abort, alloc: Global, arena: &Numbers) {
    assert!(rt; has_values(alloc, arena.range(..), &[0, 1, 2, 3, 4]));
    assert!(rt; has_values(alloc, arena.range(20..40), &[1, 2, 3]));
    assert!(rt; has_values(alloc, arena.range(20..=40), &[1, 2, 3, 4]));
    assert!(rt; has_values(alloc, arena.range(21..), &[3, 4]));
    assert!(rt; has_values(alloc, arena.range(..20), &[0]));
    assert!(rt; has_values(alloc, arena.range(..=20), &[0, 1, 2]));
}

/// Ranges at which std's maps panic.
fn check_empty(rt: &impl Abort, alloc: Global, arena: &Numbers) {
    assert!(rt; has_values(alloc, arena.range(40..20), &[]));
    let nothing = (Bound::Excluded(20), Bound::Excluded(20));
    assert!(rt; has_values(alloc, arena.range(nothing), &[]));
}
