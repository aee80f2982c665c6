//! Searches from the root.
use super::support::{
    Counting, CountingKeys, Keys, SOUGHT, at, five, five_counting_keys, has_ranks, is_inserted,
    taken,
};
use arena_base::P0;
use std::cell::Cell;
use std::cmp::Ordering;

/// The result of a search for a similar key, and its visits.
fn similar_key(a: &Keys, key: u64) -> (Option<(P0, Ordering)>, u128) {
    let (similar, visits) = a.find_similar_key_counted(&key);
    (similar, visits.count())
}

#[test]
fn a_search_for_a_missing_key_ends_beside_its_gap(rt: HostRuntime) {
    let a = five(rt.alloc());
    assert!(rt; (a.first(), a.find_key(&50), a.last()) == (Some(at(5)), Some(at(1)), Some(at(3))));
    assert!(rt; similar_key(&a, 53) == (Some((at(4), Ordering::Less)), 3));
    assert!(rt; similar_key(&a, 40) == (Some((at(2), Ordering::Greater)), 2));
    assert!(rt; has_ranks(&a, &[(5, 1), (2, 2), (1, 3), (4, 1), (3, 2)]));
}

/// The visits of a search for a key, if it makes as many comparisons, with the count and without.
fn find_key_compares(a: &CountingKeys, wanted: &Counting) -> Option<u128> {
    let (found, visits) = a.find_key_counted(wanted);
    let compared = taken(wanted.comparisons);
    let plain = a.find_key(wanted);
    let are_alike = plain == found && taken(wanted.comparisons) == compared;
    if are_alike && compared == visits.count() {
        Some(compared)
    } else {
        None
    }
}

/// The same for a search for a similar key.
fn find_similar_key_compares(a: &CountingKeys, wanted: &Counting) -> Option<u128> {
    let (similar, visits) = a.find_similar_key_counted(wanted);
    let compared = taken(wanted.comparisons);
    let plain = a.find_similar_key(wanted);
    let are_alike = plain == similar && taken(wanted.comparisons) == compared;
    if are_alike && compared == visits.count() {
        Some(compared)
    } else {
        None
    }
}

/// The same for a search for the place behind a key.
fn find_behind_key_compares(a: &CountingKeys, wanted: &Counting) -> Option<u128> {
    let (beside, visits) = a.find_behind_key_counted(wanted);
    let compared = taken(wanted.comparisons);
    let plain = a.find_behind_key(wanted);
    let are_alike = plain == beside && taken(wanted.comparisons) == compared;
    if are_alike && compared == visits.count() {
        Some(compared)
    } else {
        None
    }
}

#[test]
fn searches_and_insertions_make_one_comparison_per_visit(rt: HostRuntime) {
    let made = Cell::new(0u128);
    let comparisons = &made;
    let mut a = five_counting_keys(rt.alloc(), comparisons);
    for key in &SOUGHT {
        let wanted = Counting {
            key: *key,
            comparisons,
        };
        let visits = find_key_compares(&a, &wanted);
        assert!(rt; visits.is_some() && visits == find_similar_key_compares(&a, &wanted));
        assert!(rt; find_behind_key_compares(&a, &wanted).is_some());
        assert!(rt; is_inserted(&mut a, wanted));
        assert!(rt; Some(taken(comparisons)) == visits);
    }
    assert!(rt; a.len() == 9);
}
