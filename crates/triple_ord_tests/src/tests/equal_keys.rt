//! Groups of entries with equal keys, compared with a plain vector.
use super::support::Marks;
use arena_base::{BasePtr, P0};
use std::alloc::Global;
use std::cmp::Ordering;
use triple_ord::{OrdInsertKind, OrdPair};

/// An arena and the vector of its pairs of key and mark.
#[derive(Drop)]
struct Beside {
    arena: Marks,
    pairs: Vec<(u64, u64)>,
}

/// Inserts a pair by a kind. Returns the mark that it replaced, `None` also on `Err`.
fn put(a: &mut Marks, kind: OrdInsertKind<P0, &u64>, (key, mark): (u64, u64)) -> Option<u64> {
    let before = a.entry_insert(kind).ok()?.insert(OrdPair::new(key, mark))?;
    Some(*before.v())
}

/// Inserts a pair into a plain vector, behind all pairs whose keys are at most its own.
fn put_plainly(pairs: &mut Vec<(u64, u64)>, pair: (u64, u64)) {
    let mut place = 0usize;
    for other in pairs.iter() {
        if other.0 <= pair.0 {
            place = place.saturating_add(1);
        }
    }
    if place <= pairs.len() {
        let _ = pairs.insert(place, pair);
    }
}

/// Inserts a key into both, behind all keys that are at most equal.
fn push(beside: &mut Beside, key: u64) {
    let mark = beside.pairs.len() as u64;
    let kind = OrdInsertKind::Nonhereditary(&key);
    let _ = put(&mut beside.arena, kind, (key, mark));
    put_plainly(&mut beside.pairs, (key, mark));
}

/// Entries with the keys 3, 5 and 7, added in turns. The number, below 54, selects up to two smaller and two greater ones and one to six
/// between.
fn group(alloc: Global, number: usize) -> Beside {
    let mut beside = Beside {
        arena: Marks::new(alloc),
        pairs: Vec::new(alloc),
    };
    for round in 0..6usize {
        for (key, count) in &[(7u64, number / 3 % 3), (5, number / 9 + 1), (3, number % 3)] {
            if round < *count {
                push(&mut beside, *key);
            }
        }
    }
    beside
}

/// Whether these are the pairs of an arena in order.
fn has_pairs(a: &Marks, pairs: &[(u64, u64)]) -> bool {
    let mut left = pairs.iter();
    for (_, pair) in a {
        if left.next() != Some(&(*pair.k(), *pair.v())) {
            return false;
        }
    }
    left.next().is_none()
}

/// The mark of the first pair with this key in a vector.
fn first_mark(pairs: &[(u64, u64)], key: u64) -> Option<u64> {
    for (k, mark) in pairs {
        if *k == key {
            return Some(*mark);
        }
    }
    None
}

/// The mark of the entry that a pointer finds.
fn mark_at(a: &Marks, p: Option<P0>) -> Option<u64> {
    Some(*a.get(p?)?.v())
}

/// The pointer that a search for a similar key returns with the order `Equal`.
fn equal_alone(found: Option<(P0, Ordering)>) -> Option<P0> {
    match found {
        Some((p, Ordering::Equal)) => Some(p),
        _ => None,
    }
}

/// Whether each search from a hint finds only this entry.
fn finds_from(a: &Marks, hint: P0, key: u64, wanted: Option<P0>) -> bool {
    for num in 0..3usize {
        let similar = a.find_similar_key_linear(hint.inx(), num, &key);
        if a.find_key_linear(hint, num, &key) != wanted || equal_alone(similar) != wanted {
            return false;
        }
    }
    true
}

/// Whether each search, from the root and from each hint, finds the first of the entries with a key, or none.
fn finds_the_first(beside: &Beside, key: u64) -> bool {
    let a = &beside.arena;
    let found = a.find_key(&key);
    let mut is_right = mark_at(a, found) == first_mark(beside.pairs.as_slice(), key)
        && equal_alone(a.find_similar_key(&key)) == found;
    for (p, _) in a {
        is_right = is_right && finds_from(a, p, key, found);
    }
    is_right
}

/// The same for each key.
fn finds_each(beside: &Beside) -> bool {
    for key in 2..=8u64 {
        if !finds_the_first(beside, key) {
            return false;
        }
    }
    true
}

/// Whether an insertion by a key replaces the first of its group and keeps the others.
fn replaces_the_first(beside: &mut Beside, kind: OrdInsertKind<P0, &u64>) -> bool {
    let wanted = first_mark(beside.pairs.as_slice(), 5);
    let before = put(&mut beside.arena, kind, (5, 99));
    for pair in beside.pairs.iter_mut() {
        if Some(pair.1) == wanted {
            pair.1 = 99;
        }
    }
    before == wanted && has_pairs(&beside.arena, beside.pairs.as_slice())
}

/// Whether an insertion goes behind the last of its group.
fn goes_behind(beside: &mut Beside, kind: OrdInsertKind<P0, &u64>) -> bool {
    let before = put(&mut beside.arena, kind, (5, 99));
    put_plainly(&mut beside.pairs, (5, 99));
    before.is_none() && has_pairs(&beside.arena, beside.pairs.as_slice())
}

/// Groups of up to six entries, between up to two smaller and up to two greater ones.
#[test]
fn the_first_of_equal_keys_is_found_and_replaced(rt: HostRuntime) {
    for number in 0..54usize {
        let mut beside = group(rt.alloc(), number);
        assert!(rt; beside.arena.len() == number / 9 + 1 + number / 3 % 3 + number % 3);
        assert!(rt; has_pairs(&beside.arena, beside.pairs.as_slice()));
        assert!(rt; finds_each(&beside));
        assert!(rt; replaces_the_first(&mut beside, OrdInsertKind::Normal(&5)));
    }
}

/// Whether insertions from this hint do the same, whether or not it names an entry.
fn goes_by_hint(alloc: Global, number: usize, p_init: u32) -> bool {
    let (num, k) = (2usize, &5u64);
    let replacing = OrdInsertKind::Linear { p_init, num, k };
    let behind = OrdInsertKind::NonhereditaryLinear { p_init, num, k };
    let is_replaced = replaces_the_first(&mut group(alloc, number), replacing);
    is_replaced && goes_behind(&mut group(alloc, number), behind)
}

#[test]
fn insertions_from_hints_replace_the_first_or_go_behind_the_last(rt: HostRuntime) {
    for number in 0..54usize {
        for p_init in 0u32..12 {
            assert!(rt; goes_by_hint(rt.alloc(), number, p_init));
        }
    }
}
