//! Comparisons by keys and values, beside those of vectors.
use crate::support::{Beside, Entry, ORDERS, beside_of};
use std::alloc::Global;

/// The keys and values of entries.
fn items(alloc: Global, entries: &[Entry]) -> Option<Vec<(u64, usize)>> {
    let mut items = Vec::new(alloc);
    for entry in entries {
        items.push((entry.k, entry.v)).ok()?;
    }
    Some(items)
}

/// Whether two arenas compare as the vectors of their items do.
fn compares(alloc: Global, one: &Beside, other: &Beside) -> Option<bool> {
    let (a, b) = (items(alloc, &one.entries)?, items(alloc, &other.entries)?);
    let is_equal = one.arena == other.arena;
    let order = (
        one.arena.partial_cmp(&other.arena),
        one.arena.cmp(&other.arena),
    );
    Some(is_equal == (a == b) && order == (a.partial_cmp(&b), a.cmp(&b)))
}

/// The first arena of up to three keys that doesn't compare with this one as it should.
fn wrong_other(alloc: Global, n: usize, number: usize) -> Option<(usize, usize)> {
    let Some(one) = beside_of(alloc, n, number) else {
        return Some((n, number));
    };
    for (m, orders) in &ORDERS[..4] {
        for other in 0..*orders {
            let compares = match beside_of(alloc, *m, other) {
                Some(other) => compares(alloc, &one, &other),
                None => None,
            };
            if compares != Some(true) {
                return Some((*m, other));
            }
        }
    }
    None
}

#[test]
fn arenas_compare_as_vectors_of_their_items(rt: HostRuntime) {
    for (n, orders) in &ORDERS[..4] {
        for number in 0..*orders {
            assert_eq!(rt; wrong_other(rt.alloc(), *n, number), None);
        }
    }
}
