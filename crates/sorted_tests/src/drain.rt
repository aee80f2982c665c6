//! Ranges that are drained or removed, with all bounds over the orders of up to five keys, beside the vector.
use crate::support::{BOUNDS, Entry, ORDERS, Parts, bound, is_left, parted};
use std::alloc::Global;
use std::ops::Bound;

/// A pair that a vector has before an arena's pairs come.
const HELD: (u64, usize) = (9, 9);

/// Whether pairs are those of entries, in order.
fn are_items(items: &[(u64, usize)], entries: &[Entry]) -> bool {
    if items.len() != entries.len() {
        return false;
    }
    for place in 0..entries.len() {
        let Some(Entry { k, v, .. }) = entries.get(place).copied() else {
            return false;
        };
        if items.get(place) != Some(&(k, v)) {
            return false;
        }
    }
    true
}

/// Pairs that are drained.
type Drained = Vec<(u64, usize)>;

/// Whether a range is drained behind what a vector has.
fn is_drained(parts: &mut Parts, bounds: (Bound<u64>, Bound<u64>), drained: &mut Drained) -> bool {
    if drained.push(HELD).is_err() || parts.arena.drain_range(bounds, drained).is_err() {
        return false;
    }
    let Some((first, rest)) = drained.as_slice().split_first() else {
        return false;
    };
    let is_right = *first == HELD && are_items(rest, &parts.within);
    is_right && is_left(&parts.arena, &parts.others, &parts.within)
}

/// Whether a range is removed.
fn is_removed(parts: &mut Parts, bounds: (Bound<u64>, Bound<u64>)) -> bool {
    let count = parts.arena.remove_range(bounds);
    count == parts.within.len() && is_left(&parts.arena, &parts.others, &parts.within)
}

/// The first bounds between which an arena of n keys in this order isn't emptied as the vector is.
fn wrong_bounds(alloc: Global, n: usize, number: usize) -> Option<(u64, u64)> {
    for from in 0..BOUNDS {
        for until in 0..BOUNDS {
            let bounds = (bound(from), bound(until));
            let mut drained = Vec::new(alloc);
            let is_drained = match parted(alloc, n, number, bounds.0, bounds.1) {
                Some(mut parts) => is_drained(&mut parts, bounds, &mut drained),
                None => false,
            };
            let is_removed = match parted(alloc, n, number, bounds.0, bounds.1) {
                Some(mut parts) => is_removed(&mut parts, bounds),
                None => false,
            };
            if !is_drained || !is_removed {
                return Some((from, until));
            }
        }
    }
    None
}

#[test]
fn draining_or_removing_a_range_takes_exactly_its_entries(rt: HostRuntime) {
    for (n, orders) in &ORDERS[..4] {
        for number in 0..*orders {
            assert_eq!(rt; wrong_bounds(rt.alloc(), *n, number), None);
        }
    }
    // some orders of four and of five keys
    for number in (0usize..81).step_by(7) {
        assert_eq!(rt; wrong_bounds(rt.alloc(), 4, number), None);
        assert_eq!(rt; wrong_bounds(rt.alloc(), 5, number.saturating_mul(3)), None);
    }
}
