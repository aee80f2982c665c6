//! Clones of every order of up to six keys.
use crate::support::{Beside, Numbers, ORDERS, are_alike, are_found, beside_of};
use std::alloc::Global;

/// Whether a clone has the same entries, and keeps them when the first arena is cleared.
fn stays(beside: &mut Beside, clone: &Numbers) -> bool {
    let is_equal = *clone == beside.arena && are_alike(clone, &beside.entries);
    beside.arena.clear();
    is_equal && are_alike(clone, &beside.entries) && are_found(clone, &beside.entries)
}

/// Whether an arena of n keys in one order has such a clone.
fn is_cloned(alloc: Global, n: usize, number: usize) -> Option<bool> {
    let mut beside = beside_of(alloc, n, number)?;
    let clone = beside.arena.clone().ok()?;
    Some(stays(&mut beside, &clone))
}

#[test]
fn a_clone_has_the_same_entries(rt: HostRuntime) {
    for (n, orders) in &ORDERS {
        for number in 0..*orders {
            assert_eq!(rt; is_cloned(rt.alloc(), *n, number), Some(true));
        }
    }
}
