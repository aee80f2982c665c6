//! Searches by a closure over the five keys: in list order 10, 30, 50, 60, 70, at the indexes 5, 2, 1, 4, 3.
use super::support::{Keys, SOUGHT, at, five, taken};
use arena_base::P0;
use std::cell::Cell;
use std::cmp::Ordering;
use triple_ord::OrdPair;

/// The result of a search by a closure that always answers `Less`, its visits and calls, and the keys that it is shown.
fn always_less_ends(a: &Keys) -> (Option<(P0, Ordering)>, u128, u64, [u64; 3]) {
    let mut calls = 0u64;
    let mut shown = [0u64; 3];
    let (found, visits) = a.find_similar_with_counted(&mut |_p: P0, item| {
        if calls < 3 {
            shown[calls as usize] = *item.k();
        }
        calls = calls.wrapping_add(1);
        Ordering::Less
    });
    (found, visits.count(), calls, shown)
}

#[test]
fn a_closure_that_answers_less_leads_to_the_first_entry(rt: HostRuntime) {
    let a = five(rt.alloc());
    let first = Some((at(5), Ordering::Less));
    assert!(rt; always_less_ends(&a) == (first, 3, 3, [50, 30, 10]));
}

/// Whether a search by a closure for a key calls it once per visit, with the count and without, and finds what a search for the key
/// finds.
fn find_with_calls(a: &Keys, key: u64) -> bool {
    let calls = Cell::new(0u128);
    let mut order = |_p: P0, item: &OrdPair<u64, ()>| {
        calls.set(calls.get().wrapping_add(1));
        key.cmp(item.k())
    };
    let (found, visits) = a.find_with_counted(&mut order);
    let counted = taken(&calls);
    let plain = a.find_with(order);
    let called = taken(&calls);
    (counted, called) == (visits.count(), counted) && plain == found && found == a.find_key(&key)
}

/// The same for a search for a similar key.
fn find_similar_with_calls(a: &Keys, key: u64) -> bool {
    let calls = Cell::new(0u128);
    let mut order = |_p: P0, item: &OrdPair<u64, ()>| {
        calls.set(calls.get().wrapping_add(1));
        key.cmp(item.k())
    };
    let (similar, visits) = a.find_similar_with_counted(&mut order);
    let counted = taken(&calls);
    let plain = a.find_similar_with(order);
    let called = taken(&calls);
    (counted, called) == (visits.count(), counted)
        && plain == similar
        && similar == a.find_similar_key(&key)
}

#[test]
fn a_search_calls_its_closure_once_per_visit(rt: HostRuntime) {
    let a = five(rt.alloc());
    for key in &SOUGHT {
        assert!(rt; find_with_calls(&a, *key) && find_similar_with_calls(&a, *key));
    }
}

#[test]
fn a_search_follows_the_changing_answers_of_its_closure(rt: HostRuntime) {
    let a = five(rt.alloc());
    let mut calls = 0u64;
    let found = a.find_similar_with(|_p: P0, _item| {
        calls = calls.wrapping_add(1);
        if calls == 2 {
            Ordering::Less
        } else {
            Ordering::Greater
        }
    });
    assert!(rt; found == Some((at(4), Ordering::Greater)));
}
