//! Pairs that are inserted as being in order: every sequence of up to four keys behind every arena of up to two.
use crate::support::{Beside, Entry, KEYS, Numbers, ORDERS, beside_of};
use sorted_arena::SortedError;
use std::alloc::Global;

/// A key and a value.
type Pair = (u64, usize);

/// The n pairs with this number, whose digits to the base 3 name their keys.
fn pairs_of(alloc: Global, n: usize, number: usize) -> Option<Vec<Pair>> {
    let mut pairs = Vec::new(alloc);
    let mut digits = number;
    for v in 0..n {
        pairs.push((KEYS[digits % 3], v)).ok()?;
        digits /= 3;
    }
    Some(pairs)
}

/// The greatest key, or 0.
fn greatest(entries: &[Entry]) -> u64 {
    match entries.last() {
        Some(entry) => entry.k,
        None => 0,
    }
}

/// The index of the first pair whose key is smaller than the one before it; the first pair comes behind a key.
fn first_out_of_order(behind: u64, pairs: &[Pair]) -> Option<usize> {
    let mut last = behind;
    for at in 0..pairs.len() {
        let (k, _) = pairs[at];
        if k < last {
            return Some(at);
        }
        last = k;
    }
    None
}

/// The pair at a place of the entries with the pairs behind them.
fn pair_at(entries: &[Entry], pairs: &[Pair], place: usize) -> Option<Pair> {
    match place.checked_sub(entries.len()) {
        Some(place) => pairs.get(place).copied(),
        None => {
            let entry = entries.get(place)?;
            Some((entry.k, entry.v))
        }
    }
}

/// Whether an arena has the entries and behind them as many pairs as this.
fn has_pairs(arena: &Numbers, entries: &[Entry], pairs: &[Pair], count: usize) -> bool {
    let mut place = 0usize;
    for (_, k, v) in arena.iter() {
        if pair_at(entries, pairs, place) != Some((*k, *v)) {
            return false;
        }
        place = place.saturating_add(1);
    }
    place == entries.len().saturating_add(count)
}

/// Whether a call names the pair at a place, and gives the pairs from another place on back; or does all, if there is no such pair.
fn is_answer(
    outcome: Result<(), (Vec<Pair>, SortedError)>,
    pairs: &[Pair],
    at: Option<usize>,
    back: usize,
) -> bool {
    match (outcome, at) {
        (Ok(()), None) => true,
        (Err((rest, refusal)), Some(at)) => {
            refusal == SortedError::OutOfOrder(at) && pairs.get(back..) == Some(rest.as_slice())
        }
        _ => false,
    }
}

/// Whether an extension names the first pair that is out of order and inserts those before it, or inserts all.
fn extends(alloc: Global, beside: Beside, n: usize, number: usize) -> Option<bool> {
    let Beside { mut arena, entries } = beside;
    let pairs = pairs_of(alloc, n, number)?;
    let at = first_out_of_order(greatest(&entries), &pairs);
    let outcome = arena.extend_sorted(pairs_of(alloc, n, number)?);
    let inserted = at.unwrap_or(n);
    Some(is_answer(outcome, &pairs, at, inserted) && has_pairs(&arena, &entries, &pairs, inserted))
}

/// Whether an arena is made of pairs that are in order, and of no others.
fn is_made(alloc: Global, n: usize, number: usize) -> Option<bool> {
    let pairs = pairs_of(alloc, n, number)?;
    let at = first_out_of_order(0, &pairs);
    match Numbers::from_sorted(alloc, pairs_of(alloc, n, number)?) {
        Ok(arena) => Some(at == None && has_pairs(&arena, &[], &pairs, n)),
        Err(refused) => Some(is_answer(Err(refused), &pairs, at, 0)),
    }
}

/// Whether an arena of pairs in any order is as if they were inserted one after another.
fn is_sorted(alloc: Global, n: usize, number: usize) -> Option<bool> {
    let sorted = Numbers::from_unsorted(alloc, pairs_of(alloc, n, number)?).ok()?;
    let mut inserted = Numbers::new(alloc);
    for (k, v) in pairs_of(alloc, n, number)? {
        let _ = inserted.insert(k, v).ok()?;
    }
    Some(sorted.items().eq(inserted.items()) && sorted.capacity() == n)
}

/// The first pairs of up to four that aren't inserted as they should behind this arena.
fn wrong_pairs(alloc: Global, held: usize, order: usize) -> Option<(usize, usize)> {
    for (n, orders) in &ORDERS[..5] {
        for number in 0..*orders {
            let extends = match beside_of(alloc, held, order) {
                Some(beside) => extends(alloc, beside, *n, number),
                None => None,
            };
            let are_made = (is_made(alloc, *n, number), is_sorted(alloc, *n, number));
            if extends != Some(true) || are_made != (Some(true), Some(true)) {
                return Some((*n, number));
            }
        }
    }
    None
}

#[test]
fn the_first_pair_out_of_order_is_named_and_those_before_it_are_inserted(rt: HostRuntime) {
    for (held, orders) in &ORDERS[..3] {
        for order in 0..*orders {
            assert_eq!(rt; wrong_pairs(rt.alloc(), *held, order), None);
        }
    }
}
