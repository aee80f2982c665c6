//! Clones and their changes: insertions, removals, drains and rebuilds.
use super::insertions::{is_inserted, kind_numbered};
use super::places::is_changed;
use super::trees::{has_ranks, moved};
use super::{Numbers, Row, cloned, put, row_of, rows};
use std::alloc::Global;
use std::process::Abort;
use triple_ord::{BasePtr, OrdEntryKind, OrdInsertionError, OrdPair, P0};

/// A change of a clone.
#[derive(Clone, Copy)]
enum Change {
    /// The clone is unchanged.
    Nothing,
    /// An insertion by the kind with a number, and a key.
    Insert(u32, u64),
    /// The removal of the entry at a position.
    Remove(usize),
    /// A drain in order that takes this many entries and keeps the rest.
    Drain(usize),
    /// A rebuild.
    Compress,
    /// A rebuild that gives the entries the indexes of their positions.
    Canonical,
}

/// The number of insertions: each kind with each key.
const INSERTIONS: u32 = 91 * 8;

/// The number of changes.
const CHANGES: u32 = INSERTIONS + 18;

/// The change with each number, for an arena of `len` entries.
fn change_numbered(number: u32, len: usize) -> Change {
    if number < INSERTIONS {
        return Change::Insert(number % 91, number as u64 / 91);
    }
    let place = (number % 8) as usize;
    match number.saturating_sub(INSERTIONS) {
        0..=7 => Change::Drain(place),
        8..=15 if place < len => Change::Remove(place),
        16 => Change::Compress,
        17 => Change::Canonical,
        _ => Change::Nothing,
    }
}

/// Removes an entry.
fn take(rt: &impl Abort, b: &mut Numbers, p: P0) -> Row {
    let taken = b.remove(p).allow().expect(rt, "the entry");
    row_of(p, &taken)
}

/// Whether a drain in order returns the first entries.
fn gives(b: &mut Numbers, old: &[Row], count: usize) -> bool {
    let mut is_right = true;
    let mut drain = b.drain_ordered();
    for place in 0..count {
        if let Some(taken) = drain.next() {
            let (p, pair) = taken.allow();
            is_right = is_right && old.get(place) == Some(&row_of(p, &pair));
        }
    }
    drain.keep_rest();
    is_right
}

/// The result of an insertion.
type Answer = Result<OrdEntryKind<P0>, OrdInsertionError>;

/// Makes a change. An inserted item has another key than its kind.
fn make(rt: &impl Abort, b: &mut Numbers, old: &[Row], change: Change) -> Option<Answer> {
    match change {
        Change::Insert(number, k) => {
            return Some(put(b, kind_numbered(number, &k), OrdPair::new(9, 99)));
        }
        Change::Remove(place) => {
            let row = *old.get(place).expect(rt, "an entry");
            assert!(rt; take(rt, b, row.p) == row && !b.contains(row.p) && b.generation() == 3);
        }
        Change::Drain(count) => {
            assert!(rt; gives(b, old, count));
        }
        Change::Compress => {
            let _ = b.compress(false);
        }
        Change::Canonical => {
            let _ = b.compress_canonical(false);
        }
        Change::Nothing => {}
    }
    None
}

/// The maximum number of visits in a rebuilt tree: the number of binary digits of its size.
const DIGITS: [u128; 8] = [0, 1, 2, 2, 3, 3, 3, 3];

/// Whether each search is as short as in a rebuilt tree.
fn has_short_searches(b: &Numbers) -> bool {
    for k in 0u64..=7 {
        if b.find_key_counted(&k).1.count() > DIGITS[b.len() % 8] {
            return false;
        }
    }
    true
}

/// Whether the entries have the old items in the old order, and if required the indexes of their positions, after one compression.
fn are_rebuilt(old: &[Row], new: &[Row], is_canonical: bool) -> bool {
    let mut index = 0u32;
    for (before, row) in old.iter().zip(new) {
        index = index.saturating_add(1);
        let is_numbered = row.p == P0::_from_raw(index, 3);
        if before.key != row.key || before.value != row.value || (is_canonical && !is_numbered) {
            return false;
        }
    }
    old.len() == new.len()
}

/// Whether the entries are right after a change, and few have a new parent in the tree.
fn is_right(
    a: &Numbers,
    b: &Numbers,
    old: &[Row],
    new: &[Row],
    change: Change,
    answer: Option<Answer>,
) -> bool {
    let most = match change {
        Change::Nothing => 0,
        Change::Insert(_, _) => 5,
        _ => 9,
    };
    let is_done = match change {
        Change::Nothing => is_changed(old, new, 0, 0, 0),
        Change::Insert(number, k) => is_inserted(old, new, number, k, answer),
        Change::Remove(place) => is_changed(old, new, place, 1, 0),
        Change::Drain(count) => is_changed(old, new, 0, count.min(old.len()), 0),
        Change::Compress => are_rebuilt(old, new, false) && has_short_searches(b),
        Change::Canonical => are_rebuilt(old, new, true) && has_short_searches(b),
    };
    is_done && moved(a, b) <= most && has_ranks(b)
}

/// Whether the first entry can be removed until there is none, from a tree that obeys the rank rules.
fn is_emptied(b: &mut Numbers) -> bool {
    for _ in 0..b.len() {
        if let Some(p) = b.first() {
            let _ = b.remove(p);
        }
        if !has_ranks(b) {
            return false;
        }
    }
    b.is_empty()
}

/// A change of a clone; after a removal all other entries are removed too.
fn holds(rt: &impl Abort, alloc: Global, a: &Numbers, old: &[Row], change: Change) -> bool {
    let mut b = cloned(rt, a);
    let answer = make(rt, &mut b, old, change);
    let new = rows(rt, alloc, &b);
    let is_removal = matches!(change, Change::Remove(_));
    is_right(a, &b, old, new.as_slice(), change, answer) && (!is_removal || is_emptied(&mut b))
}

/// Every change.
pub(super) fn hold(rt: &impl Abort, alloc: Global, a: &Numbers, old: &[Row]) -> bool {
    for number in 0..CHANGES {
        if !holds(rt, alloc, a, old, change_numbered(number, old.len())) {
            return false;
        }
    }
    true
}
