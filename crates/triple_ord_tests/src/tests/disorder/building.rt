//! Arenas with keys in every order.
use super::{Item, Numbers, Row, put, rows};
use std::alloc::Global;
use std::cmp::Ordering;
use std::process::Abort;
use triple_ord::{BasePtr, OrdInsertKind, OrdPair, P0};

/// How an arena is built.
#[derive(Clone, Copy)]
pub(super) enum Building {
    /// Entry by entry, each in any gap, by rising key.
    Manual,
    /// Entry by entry, each in any gap, by pairs of equal keys.
    Halved,
    /// One behind another, then overwritten.
    Written,
}

/// The number of orders of n keys.
pub(super) const ORDERS: [u64; 7] = [1, 1, 2, 6, 24, 120, 720];

/// The kind of insertion for a gap: behind the entry before it, or before the first one.
fn kind_at(rows: &[Row], gap: usize) -> OrdInsertKind<P0, &'static u64> {
    match rows.get(gap.saturating_sub(1)) {
        Some(row) => OrdInsertKind::Manual {
            p_target: row.p.inx(),
            direction: if gap > 0 {
                Ordering::Greater
            } else {
                Ordering::Less
            },
        },
        None => OrdInsertKind::Empty,
    }
}

/// Inserts a key into a gap by index.
fn put_into(rt: &impl Abort, alloc: Global, a: &mut Numbers, gap: usize, key: u64) {
    let kind = kind_at(rows(rt, alloc, a).as_slice(), gap);
    assert!(rt; put(a, kind, OrdPair::new(key, key)).is_ok());
}

/// The keys from 1 to n, or half of each, rounded up, inserted into the gaps given by the number.
fn manual(rt: &impl Abort, alloc: Global, n: u64, number: u64, is_halved: bool) -> Numbers {
    let mut a = Numbers::new(alloc);
    let mut rest = number;
    for key in 1..=n {
        let written = if is_halved { key.div_ceil(2) } else { key };
        put_into(rt, alloc, &mut a, (rest % key) as usize, written);
        rest /= key;
    }
    a
}

/// Overwrites the item of an entry.
fn write(a: &mut Numbers, p: P0, item: Item) {
    if let Some(pair) = a.get_mut(p) {
        *pair = item;
    }
}

/// Overwrites the keys of an arena, whose entries have the indexes from 1 in order, by those of a list.
fn write_over(a: &mut Numbers, rows: &[Row]) {
    let mut i = 0u32;
    for row in rows {
        i = i.saturating_add(1);
        write(a, P0::_from_raw(i, 2), OrdPair::new(row.key, i as u64));
    }
}

/// The keys from 1 to n, inserted one behind another and then overwritten in the order with this number.
fn written(rt: &impl Abort, alloc: Global, n: u64, number: u64) -> Numbers {
    let last = ORDERS[n as usize % 7].saturating_sub(1);
    let mut a = manual(rt, alloc, n, last, false);
    let other = manual(rt, alloc, n, number, false);
    write_over(&mut a, rows(rt, alloc, &other).as_slice());
    a
}

/// An arena of n entries, built in this way; the number selects the order.
pub(super) fn built(
    rt: &impl Abort,
    alloc: Global,
    building: Building,
    n: u64,
    number: u64,
) -> Numbers {
    match building {
        Building::Manual => manual(rt, alloc, n, number, false),
        Building::Halved => manual(rt, alloc, n, number, true),
        Building::Written => written(rt, alloc, n, number),
    }
}
