//! Arenas that are split at each key, over every order of up to six keys, beside the vector.
use crate::support::{Entry, Numbers, ORDERS, Parts, is_left, parted};
use std::alloc::Global;
use std::ops::Bound;

/// Whether an arena has the items of entries, in order.
fn has_items(arena: &Numbers, entries: &[Entry]) -> bool {
    let mut place = 0usize;
    for (k, v) in arena.iter().items() {
        let Some(entry) = entries.get(place) else {
            return false;
        };
        if (entry.k, entry.v) != (*k, *v) {
            return false;
        }
        place = place.saturating_add(1);
    }
    place == entries.len()
}

/// Whether an arena of n keys in this order is split at a key.
fn is_split(alloc: Global, n: usize, number: usize, k: u64) -> Option<bool> {
    let Parts {
        mut arena,
        within,
        others,
    } = parted(alloc, n, number, Bound::Included(k), Bound::Unbounded)?;
    let moved = arena.split_off(&k).ok()?;
    Some(has_items(&moved, &within) && is_left(&arena, &others, &within))
}

#[test]
fn a_split_moves_the_entries_from_the_key_on(rt: HostRuntime) {
    for (n, orders) in &ORDERS {
        for number in 0..*orders {
            for k in 0u64..7 {
                assert_eq!(rt; is_split(rt.alloc(), *n, number, k), Some(true));
            }
        }
    }
}
