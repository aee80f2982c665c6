//! Insertions and removals in every order of up to five keys, and in some orders of six, compared with a plain vector of the removed
//! keys.
use super::support::{Keys, keys, rank_at, remove_key};
use arena_base::BasePtr;
use std::alloc::Global;

/// The keys from 1 to n in the order with this number.
fn keys_in_order_of(alloc: Global, n: u64, number: u64) -> Vec<u64> {
    let mut keys = Vec::new(alloc);
    let mut rest = number;
    for key in 1..=n {
        let place = (rest % key) as usize;
        rest /= key;
        if place <= keys.len() {
            let _ = keys.insert(place, key);
        }
    }
    keys
}

/// Whether the rank rules hold at one entry, as read from its node and its children.
fn has_right_rank(a: &Keys, index: u32) -> bool {
    let Some((_, entry)) = a.get_inx_node(index) else {
        return false;
    };
    let node = &entry.t;
    let lesser = rank_at(a, node.p_tree0.get().unwrap_or(0));
    let greater = rank_at(a, node.p_tree1.get().unwrap_or(0));
    let is_above = node.rank > lesser && node.rank > greater;
    let is_near = is_above && node.rank - lesser <= 2 && node.rank - greater <= 2;
    is_near && (node.rank == 1 || lesser > 0 || greater > 0)
}

/// Whether the rank rules hold at each entry.
fn has_right_ranks(a: &Keys) -> bool {
    for (p, _) in a {
        if !has_right_rank(a, p.inx()) {
            return false;
        }
    }
    true
}

/// Whether the entries in order have the keys from 1 to n except the removed ones.
fn has_rest(a: &Keys, n: u64, removed: &[u64]) -> bool {
    let mut key = 0u64;
    for (_, pair) in a {
        if *pair.k() <= key || *pair.k() > n || removed.contains(pair.k()) {
            return false;
        }
        key = *pair.k();
    }
    a.len().saturating_add(removed.len()) == n as usize
}

/// Whether a search finds all keys from 1 to n except the removed ones, and visits few enough entries.
fn finds_rest(a: &Keys, n: u64, removed: &[u64]) -> bool {
    for key in 1..=n {
        let (found, visits) = a.find_key_counted(&key);
        if found.is_some() == removed.contains(&key) || visits.count() > 3 {
            return false;
        }
    }
    true
}

/// Whether an arena obeys the rank rules and has exactly the keys from 1 to n that weren't removed.
fn holds(a: &Keys, n: u64, removed: &[u64]) -> bool {
    has_rest(a, n, removed) && has_right_ranks(a) && finds_rest(a, n, removed)
}

/// Inserts n keys in the first order and removes them in the second. Returns whether everything is right at each step.
fn goes_through(alloc: Global, n: u64, first: &[u64], second: &[u64]) -> bool {
    let mut a = keys(alloc, first);
    for count in 0..second.len() {
        let was_right = holds(&a, n, &second[..count]);
        if !was_right || !matches!(remove_key(&mut a, second[count]), Some(0..=9)) {
            return false;
        }
    }
    second.len() == n as usize && a.is_empty()
}

/// Inserts n keys in each of `orders` orders, and removes them in each order whose number plus that of the insertions is a multiple of
/// `stride`.
fn every_so_many(alloc: Global, n: u64, orders: u64, stride: u64) -> bool {
    for first in 0..orders {
        let inserted = keys_in_order_of(alloc, n, first);
        for second in 0..orders {
            if first.wrapping_add(second).checked_rem(stride) == Some(0) {
                let removed = keys_in_order_of(alloc, n, second);
                if !goes_through(alloc, n, inserted.as_slice(), removed.as_slice()) {
                    return false;
                }
            }
        }
    }
    true
}

/// The number of keys, the number of their orders, and the stride.
const ORDERS: [(u64, u64, u64); 6] = [
    (1, 1, 1),
    (2, 2, 1),
    (3, 6, 1),
    (4, 24, 1),
    (5, 120, 1),
    (6, 720, 48),
];

#[test]
fn insertions_and_removals_in_every_order_keep_the_rules(rt: HostRuntime) {
    for (n, orders, stride) in &ORDERS {
        assert!(rt; every_so_many(rt.alloc(), *n, *orders, *stride));
    }
}
