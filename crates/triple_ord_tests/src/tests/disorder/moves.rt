//! Clones in which one entry gets another key and moves to the place of that key.
use super::places::{gap_at, place_of};
use super::trees::has_ranks;
use super::{Numbers, Row, cloned, row_of, rows};
use std::alloc::Global;
use std::process::Abort;
use triple_ord::{OrdPair, P0};

/// A move: the position of an entry, its new key, and whether the key is written before the entry moves.
#[derive(Clone, Copy)]
struct Move {
    from: usize,
    key: u64,
    is_written: bool,
}

/// The number of moves of each entry: to each key, in both ways.
const MOVES: usize = 16;

/// The move with each number.
fn move_numbered(number: usize) -> Move {
    Move {
        from: number / MOVES,
        key: (number / 2 % 8) as u64,
        is_written: number % 2 == 1,
    }
}

/// Gives the entry of a row another key and the value 99. Returns whether the result is right.
fn is_made(b: &mut Numbers, row: &Row, step: Move) -> bool {
    if step.is_written {
        if let Some(pair) = b.get_mut(row.p) {
            *pair = OrdPair::new(step.key, 99);
        }
        return b.reposition(row.p);
    }
    match b.rekey(row.p, OrdPair::new(step.key, 99)) {
        Ok(before) => row_of(row.p, &before) == *row,
        Err(_) => false,
    }
}

/// Whether the entry before a position, if any, has a key at most this one, and the entry after it, if any, a greater one.
fn fits(rows: &[Row], place: usize, key: u64) -> bool {
    let (least, _) = gap_at(rows, place);
    let (_, next) = gap_at(rows, place.saturating_add(1));
    least <= key.saturating_add(1) && key < next
}

/// Whether two lists are equal apart from one entry each, at position `low` of the first and at position `high >= low` of the second.
fn are_shifted(first: &[Row], second: &[Row], low: usize, high: usize) -> bool {
    let behind = high.saturating_add(1);
    first.get(..low) == second.get(..low)
        && first.get(low.saturating_add(1)..behind) == second.get(low..high)
        && first.get(behind..) == second.get(behind..)
}

/// Whether the entry of a pointer has moved to where its new key fits, with the value 99, and the others have kept their order.
fn is_moved(old: &[Row], new: &[Row], step: Move, p: P0) -> bool {
    let Some(to) = place_of(new, p) else {
        return false;
    };
    let has_item = match new.get(to) {
        Some(row) => row.key == step.key && row.value == 99,
        None => false,
    };
    let others_stand = if step.from <= to {
        are_shifted(old, new, step.from, to)
    } else {
        are_shifted(new, old, to, step.from)
    };
    others_stand && new.len() == old.len() && has_item && fits(new, to, step.key)
}

/// A move in a clone.
fn holds(rt: &impl Abort, alloc: Global, a: &Numbers, old: &[Row], step: Move) -> bool {
    let mut b = cloned(rt, a);
    let numbers = (b.capacity(), b.generation());
    let row = old.get(step.from).expect(rt, "an entry");
    let is_made = is_made(&mut b, row, step);
    let new = rows(rt, alloc, &b);
    is_made
        && is_moved(old, new.as_slice(), step, row.p)
        && numbers == (b.capacity(), b.generation())
        && has_ranks(&b)
}

/// Every move.
pub(super) fn hold(rt: &impl Abort, alloc: Global, a: &Numbers, old: &[Row]) -> bool {
    for number in 0..old.len().saturating_mul(MOVES) {
        if !holds(rt, alloc, a, old, move_numbered(number)) {
            return false;
        }
    }
    true
}
