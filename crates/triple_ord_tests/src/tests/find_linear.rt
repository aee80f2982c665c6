//! Searches from a hint over the five keys: in list order 10, 30, 50, 60, 70, at the indexes 5, 2, 1, 4, 3.
use super::support::{
    Counting, CountingKeys, Keys, SOUGHT, at, five, five_counting_keys, keys, taken, write_key,
};
use arena_base::{BasePtr, P0, PN};
use std::cell::Cell;
use std::cmp::Ordering;

/// The result of a search for a similar key from an index, with at most `num` steps, and its visits. `None` if the search without the
/// count has another result.
fn similar_key_from(
    a: &Keys,
    (hint, num): (u32, usize),
    key: u64,
) -> Option<(Option<(P0, Ordering)>, u128)> {
    let (similar, visits) = a.find_similar_key_linear_counted(hint, num, &key);
    if a.find_similar_key_linear(hint, num, &key) == similar {
        Some((similar, visits.count()))
    } else {
        None
    }
}

/// The same for a search for an equal key from a pointer.
fn equal_key_from(a: &Keys, (p, num): (P0, usize), key: u64) -> Option<(Option<P0>, u128)> {
    let (found, visits) = a.find_key_linear_counted(p, num, &key);
    if a.find_key_linear(p, num, &key) == found {
        Some((found, visits.count()))
    } else {
        None
    }
}

/// Hint, maximum of steps, key; index, order, visits.
const SIMILAR: [((u32, usize), u64, (u32, Ordering), u128); 14] = [
    ((2, 3), 40, (1, Ordering::Less), 2),
    // the order turns at the last comparison
    ((2, 2), 40, (1, Ordering::Less), 2),
    ((1, 2), 40, (2, Ordering::Greater), 2),
    // one step, then a whole search
    ((2, 1), 40, (2, Ordering::Greater), 3),
    ((2, 0), 40, (2, Ordering::Greater), 2),
    ((9, 3), 40, (2, Ordering::Greater), 2),
    ((0, 3), 40, (2, Ordering::Greater), 2),
    // an equal key ends the steps, and a whole search follows
    ((5, 9), 50, (1, Ordering::Equal), 5),
    ((3, 3), 50, (1, Ordering::Equal), 5),
    ((1, 1), 50, (1, Ordering::Equal), 3),
    // both ends
    ((5, 1), 5, (5, Ordering::Less), 1),
    ((3, 1), 100, (3, Ordering::Greater), 1),
    ((5, usize::MAX), 100, (3, Ordering::Greater), 5),
    ((3, usize::MAX), 5, (5, Ordering::Less), 5),
];

#[test]
fn similar_keys_are_found_from_any_hint(rt: HostRuntime) {
    let a = five(rt.alloc());
    for (from, key, (index, order), visits) in &SIMILAR {
        let wanted = Some((Some((at(*index), *order)), *visits));
        assert!(rt; similar_key_from(&a, *from, *key) == wanted);
    }
}

/// Index and generation of a hint, maximum of steps, key; the index found, 0 for none; visits.
const EQUAL: [((u32, u64), usize, u64, u32, u128); 10] = [
    ((2, 2), 3, 40, 0, 4),
    ((2, 9), 3, 40, 0, 2),
    ((9, 2), 3, 40, 0, 2),
    ((5, 2), 2, 60, 4, 5),
    ((5, 2), 0, 60, 4, 3),
    ((5, 2), 3, 50, 1, 5),
    ((4, 2), 1, 60, 4, 4),
    ((4, 3), 1, 60, 4, 3),
    ((5, 2), usize::MAX, 100, 0, 7),
    ((3, 2), usize::MAX, 5, 0, 8),
];

#[test]
fn equal_keys_are_found_from_any_hint(rt: HostRuntime) {
    let a = five(rt.alloc());
    for ((hint, generation), num, key, index, visits) in &EQUAL {
        let p = P0::_from_raw(*hint, *generation);
        let found = if *index > 0 { Some(at(*index)) } else { None };
        assert!(rt; equal_key_from(&a, (p, *num), *key) == Some((found, *visits)));
    }
}

/// The keys are out of order, and the hint still leads to a gap that fits.
#[test]
fn a_hint_leads_to_a_gap_that_fits_keys_out_of_order(rt: HostRuntime) {
    let mut a = keys(rt.alloc(), &[1, 2, 3]);
    write_key(&mut a, at(2), 9);
    for (hint, index, order, visits) in &[(3, 3, Ordering::Greater, 1), (1, 2, Ordering::Less, 2)] {
        let wanted = Some((Some((at(*index), *order)), *visits));
        assert!(rt; similar_key_from(&a, (*hint, 3), 5) == wanted);
    }
}

#[test]
fn no_hint_finds_an_entry_of_an_empty_arena(rt: HostRuntime) {
    let a = Keys::new(rt.alloc());
    for num in &[0, 1, usize::MAX] {
        assert!(rt; similar_key_from(&a, (1, *num), 7) == Some((None, 0)));
        assert!(rt; equal_key_from(&a, (at(1), *num), 7) == Some((None, 0)));
    }
}

/// Whether a search for a key from a hint makes one comparison per visit, with the count and without.
fn find_key_linear_compares(a: &CountingKeys, hint: u32, num: usize, wanted: &Counting) -> bool {
    let p = PN::_from_raw(hint, ());
    let (found, visits) = a.find_key_linear_counted(p, num, wanted);
    let compared = taken(wanted.comparisons);
    let plain = a.find_key_linear(p, num, wanted);
    let compared_again = taken(wanted.comparisons);
    plain == found && (compared, compared_again) == (visits.count(), compared)
}

/// The same for a search for a similar key.
fn find_similar_key_linear_compares(
    a: &CountingKeys,
    hint: u32,
    num: usize,
    wanted: &Counting,
) -> bool {
    let (similar, visits) = a.find_similar_key_linear_counted(hint, num, wanted);
    let compared = taken(wanted.comparisons);
    let plain = a.find_similar_key_linear(hint, num, wanted);
    let compared_again = taken(wanted.comparisons);
    plain == similar && (compared, compared_again) == (visits.count(), compared)
}

/// Whether both searches for a key from any hint make one comparison per visit.
fn steps_compare(a: &CountingKeys, wanted: &Counting) -> bool {
    for hint in 0u32..7 {
        for num in [0, 1, 2, 3, usize::MAX] {
            if !find_key_linear_compares(a, hint, num, wanted)
                || !find_similar_key_linear_compares(a, hint, num, wanted)
            {
                return false;
            }
        }
    }
    true
}

#[test]
fn a_search_from_a_hint_makes_one_comparison_per_visit(rt: HostRuntime) {
    let made = Cell::new(0u128);
    let comparisons = &made;
    let a = five_counting_keys(rt.alloc(), comparisons);
    for key in &SOUGHT {
        let wanted = Counting {
            key: *key,
            comparisons,
        };
        assert!(rt; steps_compare(&a, &wanted));
    }
}
