//! Comparisons of arenas.
use super::support::{Keys, keys};
use std::alloc::Global;
use std::cmp::Ordering;

/// The comparison of one arena with another: equality, order, and partial order.
fn compared(a: &Keys, b: &Keys) -> (bool, Ordering, Option<Ordering>) {
    (
        a.canonical_eq(b),
        a.canonical_cmp(b),
        a.canonical_partial_cmp(b),
    )
}

/// Keys, and how they compare with 1, 2 and 3.
const WORDS: &[(&[u64], Ordering)] = &[
    (&[2, 1, 3], Ordering::Equal),
    (&[2, 1], Ordering::Less),
    (&[], Ordering::Less),
    (&[1, 5], Ordering::Greater),
];

/// Whether each of the words compares so with this one.
fn compare_with(alloc: Global, word: &Keys) -> bool {
    let mut are_right = true;
    for (list, order) in WORDS {
        let found = compared(&keys(alloc, list), word);
        are_right = are_right && found == (order.is_eq(), *order, Some(*order));
    }
    are_right
}

/// An arena is greater than its prefix, and one with a greater key is greater still.
#[test]
fn arenas_compare_by_their_items(rt: HostRuntime) {
    assert!(rt; compare_with(rt.alloc(), &keys(rt.alloc(), &[3, 1, 2])));
}
