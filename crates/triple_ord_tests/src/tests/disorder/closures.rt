//! Searches by closures with a fixed sequence of answers, whatever they are shown.
use super::places::{equal_of, place_of};
use super::{Item, Numbers, Row};
use std::cmp::Ordering;
use triple_ord::{BasePtr, P0};

/// The answers.
const WORDS: [Ordering; 3] = [Ordering::Less, Ordering::Equal, Ordering::Greater];

/// What a closure answers and is shown.
#[derive(Clone, Copy)]
struct Talk {
    /// The next three answers, as digits to the base of three; they are given in turn, again and again.
    next: usize,
    /// The number of answers given.
    calls: usize,
    /// The indexes of the shown entries, as digits to the base of eight.
    shown: usize,
    /// The last entry shown, with its answer.
    last: Option<(P0, Ordering)>,
    /// The positions that the answers leave, from the first of these up to the second. An entry outside them leaves none.
    left: (usize, usize),
}

/// Gives the next answer for an entry at a position, if it has one.
fn after(talk: Talk, p: P0, place: Option<usize>) -> Talk {
    let (low, high) = talk.left;
    let word = WORDS[talk.next % 3];
    let left = match place {
        Some(place) if low <= place && place < high => match word {
            Ordering::Less => (low, place),
            Ordering::Equal => (place, place),
            Ordering::Greater => (place.wrapping_add(1), high),
        },
        _ => (1, 0),
    };
    Talk {
        next: (talk.next / 3).wrapping_add((talk.next % 3).wrapping_mul(9)),
        calls: talk.calls.wrapping_add(1),
        shown: talk.shown.wrapping_mul(8).wrapping_add(p.inx() as usize),
        last: Some((p, word)),
        left,
    }
}

/// Gives the next answer.
fn say(talk: &mut Talk, rows: &[Row], p: P0) -> Ordering {
    let word = WORDS[talk.next % 3];
    *talk = after(*talk, p, place_of(rows, p));
    word
}

/// The state before any answer, for `len` entries.
fn silent(next: usize, len: usize) -> Talk {
    Talk {
        next,
        calls: 0,
        shown: 0,
        last: None,
        left: (0, len),
    }
}

/// The result of a search for a similar entry, its visits, and the answers given.
fn similar_by(a: &Numbers, rows: &[Row], next: usize) -> (Option<(P0, Ordering)>, u128, Talk) {
    let mut talk = silent(next, rows.len());
    let mut closure = |p: P0, _item: &Item| say(&mut talk, rows, p);
    let (similar, visits) = a.find_similar_with_counted(&mut closure);
    (similar, visits.count(), talk)
}

/// The result of the search for an equal entry, its visits, and the answers given.
fn equal_by(a: &Numbers, rows: &[Row], next: usize) -> (Option<P0>, u128, Talk) {
    let mut talk = silent(next, rows.len());
    let mut closure = |p: P0, _item: &Item| say(&mut talk, rows, p);
    let (found, visits) = a.find_with_counted(&mut closure);
    (found, visits.count(), talk)
}

/// Whether the visits equal the calls, of which there are at most four among six entries.
fn is_counted(visits: u128, calls: usize) -> bool {
    visits == calls as u128 && calls <= 4
}

/// Whether both searches with the same answers show the same entries. Each must be one that the answers before have left, until none is
/// left. The visits must be counted, and the results must match the last answer.
fn hold_by(a: &Numbers, rows: &[Row], next: usize) -> bool {
    let (similar, visits, said) = similar_by(a, rows, next);
    let (found, visits_again, again) = equal_by(a, rows, next);
    let is_last = similar == said.last;
    let is_found = found == equal_of(similar);
    is_last
        && is_found
        && said.left.0 == said.left.1
        && said.shown == again.shown
        && is_counted(visits, said.calls)
        && is_counted(visits_again, said.calls)
}

/// Every sequence of three answers.
pub(super) fn hold(a: &Numbers, rows: &[Row]) -> bool {
    for next in 0usize..27 {
        if !hold_by(a, rows, next) {
            return false;
        }
    }
    true
}
