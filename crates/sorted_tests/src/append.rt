//! Arenas that are merged: every order of up to three keys into every order of up to three, beside a vector.
use crate::support::{Beside, Entry, Numbers, ORDERS, beside_of, put};
use std::alloc::Global;

/// Whether an arena has the keys and values of entries, in order, and those pointers that it had before name them.
fn is_merged(arena: &Numbers, merged: &[Entry], held: &[Entry]) -> bool {
    let mut place = 0usize;
    for (k, v) in arena.iter().items() {
        let Some(entry) = merged.get(place) else {
            return false;
        };
        if (entry.k, entry.v) != (*k, *v) {
            return false;
        }
        place = place.saturating_add(1);
    }
    for entry in held {
        if arena.get(entry.p) != Some((&entry.k, &entry.v)) {
            return false;
        }
    }
    place == merged.len()
}

/// Gives the entries of one arena values from ten on, which tell them from those of the other, and puts them among these. Returns whether there
/// was memory.
fn put_all(merged: &mut Vec<Entry>, others: &mut Beside) -> bool {
    for entry in others.entries.iter() {
        let v = entry.v.saturating_add(10);
        let _ = others.arena.set_value(entry.p, v);
        if !put(merged, Entry { v, ..*entry }) {
            return false;
        }
    }
    true
}

/// Whether an arena takes in another.
fn takes_in(one: &mut Beside, others: &mut Beside) -> Option<bool> {
    let mut merged = one.entries.clone().ok()?;
    if !put_all(&mut merged, others) || one.arena.append(&mut others.arena).is_err() {
        return None;
    }
    Some(others.arena.is_empty() && is_merged(&one.arena, &merged, &one.entries))
}

/// Whether an arena of n keys in one order takes in an arena of m keys in another.
fn merges(alloc: Global, n: usize, number: usize, m: usize, other: usize) -> Option<bool> {
    let mut one = beside_of(alloc, n, number)?;
    takes_in(&mut one, &mut beside_of(alloc, m, other)?)
}

/// The first arena of up to three keys that isn't taken in by this one.
fn wrong_other(alloc: Global, n: usize, number: usize) -> Option<(usize, usize)> {
    for (m, orders) in &ORDERS[..4] {
        for other in 0..*orders {
            if merges(alloc, n, number, *m, other) != Some(true) {
                return Some((*m, other));
            }
        }
    }
    None
}

#[test]
fn append_merges_by_key_and_keeps_the_pointers_of_the_receiver(rt: HostRuntime) {
    for (n, orders) in &ORDERS[..4] {
        for number in 0..*orders {
            assert_eq!(rt; wrong_other(rt.alloc(), *n, number), None);
        }
    }
}
