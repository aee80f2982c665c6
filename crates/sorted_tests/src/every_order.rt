//! Every order of up to six keys, equal ones among them, and each change of such an arena, beside a plain vector.
mod changes;

use crate::support::{ORDERS, are_alike, are_found, start_of};
use changes::{Change, is_made};
use std::alloc::Global;

/// The changes that take neither an entry nor a key, those that take a key, those that take an entry, and those that take both.
const PLAIN: [Change; 3] = [Change::PopFirst, Change::PopLast, Change::Clear];

const BY_KEY: [Change; 8] = [
    Change::Insert,
    Change::Replace,
    Change::InsertUnique,
    Change::RemoveKey,
    Change::PopFirstUntil,
    Change::PopFirstIf,
    Change::PopUntil,
    Change::RemoveUntil,
];

const BY_PLACE: [Change; 2] = [Change::SetValue, Change::Remove];

const BY_BOTH: [Change; 2] = [Change::Rekey, Change::RekeyUnique];

/// An arena of so many keys, in the order with this number, and whether it is compacted.
type Start = (usize, usize, bool);

/// Whether an arena has the entries of the vector, and finds them.
fn is_right(alloc: Global, (n, number, is_compact): Start) -> bool {
    match start_of(alloc, n, number, is_compact) {
        Some(beside) => {
            are_alike(&beside.arena, &beside.entries) && are_found(&beside.arena, &beside.entries)
        }
        None => false,
    }
}

/// A change, the place of its entry, and its key.
type Step = (Change, usize, u64);

/// Whether arena and vector answer alike, and are alike afterwards.
fn is_right_after(alloc: Global, (n, number, is_compact): Start, step: Step) -> bool {
    let Some(mut beside) = start_of(alloc, n, number, is_compact) else {
        return false;
    };
    let is_made = is_made(&mut beside, step, alloc);
    is_made
        && are_alike(&beside.arena, &beside.entries)
        && are_found(&beside.arena, &beside.entries)
}

/// The first of some changes that goes wrong, at places below one number and with keys below another.
fn wrong_step(
    alloc: Global,
    start: Start,
    changes: &[Change],
    places: usize,
    keys: u64,
) -> Option<Step> {
    for change in changes {
        for place in 0..places {
            for k in 0..keys {
                let step = (*change, place, k);
                if !is_right_after(alloc, start, step) {
                    return Some(step);
                }
            }
        }
    }
    None
}

/// The first change of such an arena that goes wrong.
fn wrong_change(alloc: Global, start: Start) -> Option<Step> {
    wrong_step(alloc, start, &PLAIN, 1, 1)
        .or(wrong_step(alloc, start, &BY_KEY, 1, 7))
        .or(wrong_step(alloc, start, &BY_PLACE, start.0, 1))
        .or(wrong_step(alloc, start, &BY_BOTH, start.0, 7))
}

#[test]
fn entries_are_in_order_and_found_by_key(rt: HostRuntime) {
    for (n, orders) in &ORDERS {
        for number in 0..*orders {
            assert!(rt; is_right(rt.alloc(), (*n, number, false)));
            assert!(rt; is_right(rt.alloc(), (*n, number, true)));
        }
    }
}

#[test]
fn each_change_acts_as_on_a_vector(rt: HostRuntime) {
    for (n, orders) in &ORDERS {
        for number in 0..*orders {
            assert_eq!(rt; wrong_change(rt.alloc(), (*n, number, false)), None);
        }
    }
}

#[test]
fn each_change_of_a_compact_arena_acts_as_on_a_vector(rt: HostRuntime) {
    for (n, orders) in &ORDERS {
        for number in 0..*orders {
            assert_eq!(rt; wrong_change(rt.alloc(), (*n, number, true)), None);
        }
    }
}
