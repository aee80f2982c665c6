//! Entries of a range that a test chooses: all bounds and every choice, over the orders of up to three keys, beside the vector.
use crate::support::{
    BOUNDS, Beside, Entry, ORDERS, are_alike, beside_of, bound, is_from, is_until,
};
use sorted_arena::{BasePtr, P0};
use std::alloc::Global;
use std::ops::Bound;

/// Whether the bit of a value is set.
fn is_chosen(bits: usize, v: usize) -> bool {
    match v {
        0 => bits % 2 == 1,
        1 => bits / 2 % 2 == 1,
        _ => bits / 4 % 2 == 1,
    }
}

/// The entries that go and those that stay.
#[derive(Drop)]
struct Chosen {
    gone: Vec<(P0, u64, usize)>,
    left: Vec<Entry>,
    asked: usize,
}

/// What goes if the entries of a range with these bits are chosen, behind what the vector has.
fn parted(
    alloc: Global,
    entries: &[Entry],
    from: Bound<u64>,
    until: Bound<u64>,
    bits: usize,
) -> Option<Chosen> {
    let mut gone = Vec::from_array(alloc, [(P0::_from_raw(9, 9), 9, 9)]).ok()?;
    let mut left = Vec::new(alloc);
    let mut asked = 0usize;
    for entry in entries {
        let is_asked = is_from(from, entry.k) && is_until(until, entry.k);
        if is_asked {
            asked = asked.saturating_add(1);
        }
        if is_asked && is_chosen(bits, entry.v) {
            gone.push((entry.p, entry.k, entry.v)).ok()?;
        } else {
            left.push(*entry).ok()?;
        }
    }
    Some(Chosen { gone, left, asked })
}

/// Whether just these go, each is asked for once, and they come behind what the vector has.
fn is_right(
    alloc: Global,
    n: usize,
    number: usize,
    bounds: (u64, u64),
    bits: usize,
) -> Option<bool> {
    let Beside { mut arena, entries } = beside_of(alloc, n, number)?;
    let (from, until) = (bound(bounds.0), bound(bounds.1));
    let wanted = parted(alloc, &entries, from, until, bits)?;
    let mut extracted = Vec::from_array(alloc, [(P0::_from_raw(9, 9), 9, 9)]).ok()?;
    let mut asked = 0usize;
    arena
        .extract_if(
            (from, until),
            |_, _, v| {
                asked = asked.wrapping_add(1);
                is_chosen(bits, *v)
            },
            &mut extracted,
        )
        .ok()?;
    let are_gone = extracted.as_slice() == wanted.gone.as_slice();
    Some(are_gone && asked == wanted.asked && are_alike(&arena, &wanted.left))
}

/// The first bounds between which something else is extracted.
fn wrong_bounds(alloc: Global, n: usize, number: usize, bits: usize) -> Option<(u64, u64)> {
    for from in 0..BOUNDS {
        for until in 0..BOUNDS {
            if is_right(alloc, n, number, (from, until), bits) != Some(true) {
                return Some((from, until));
            }
        }
    }
    None
}

#[test]
fn chosen_entries_of_a_range_are_extracted(rt: HostRuntime) {
    for (n, orders) in &ORDERS[..4] {
        for number in 0..*orders {
            for bits in 0usize..8 {
                assert_eq!(rt; wrong_bounds(rt.alloc(), *n, number, bits), None);
            }
        }
    }
}
