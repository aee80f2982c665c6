//! Arenas with keys in any order, some of them equal. The effect of each call is compared with a plain vector of the old entries.
mod building;
mod changes;
mod closures;
mod insertions;
mod moves;
mod places;
mod searches;
mod trees;

use building::{Building, ORDERS, built};
use std::alloc::Global;
use std::process::Abort;
use triple_ord::{OrdEntryKind, OrdInsertKind, OrdInsertionError, OrdPair, P0, SimpleOrdArena};

/// A key with a number.
type Item = OrdPair<u64, u64>;

/// Keys, each with a number.
type Numbers = SimpleOrdArena<P0, Item>;

/// An entry, as a plain vector stores it.
#[derive(Clone, Copy, PartialEq, Eq)]
struct Row {
    p: P0,
    key: u64,
    value: u64,
}

/// The row of this pointer and pair.
fn row_of(p: P0, pair: &Item) -> Row {
    Row {
        p,
        key: *pair.k(),
        value: *pair.v(),
    }
}

/// Inserts an item by a kind, whatever its own key.
fn put(
    a: &mut Numbers,
    kind: OrdInsertKind<P0, &u64>,
    item: Item,
) -> Result<OrdEntryKind<P0>, OrdInsertionError> {
    match a.entry_insert(kind) {
        Ok(entry) => {
            let shown = entry.ptr();
            let _ = entry.insert(item);
            Ok(shown)
        }
        Err(refusal) => Err(refusal),
    }
}

/// A clone.
fn cloned(rt: &impl Abort, a: &Numbers) -> Numbers {
    a.clone().expect(rt, "memory")
}

/// The entries in order.
fn rows(rt: &impl Abort, alloc: Global, a: &Numbers) -> Vec<Row> {
    let mut rows = Vec::new(alloc);
    for (p, pair) in a {
        rows.push(row_of(p, pair)).expect(rt, "memory");
    }
    rows
}

/// Whether every call has an allowed effect, on this arena or its clones.
fn all_hold(rt: &impl Abort, alloc: Global, a: &Numbers, old: &[Row]) -> bool {
    searches::hold(a, old)
        && closures::hold(a, old)
        && changes::hold(rt, alloc, a, old)
        && moves::hold(rt, alloc, a, old)
}

/// The same, with the current entries.
fn holds(rt: &impl Abort, alloc: Global, a: &Numbers) -> bool {
    let rows = rows(rt, alloc, a);
    all_hold(rt, alloc, a, rows.as_slice())
}

/// Arenas of n entries in the order with this number, built in each way.
fn each_way_holds(rt: &impl Abort, alloc: Global, n: u64, number: u64) {
    for building in &[Building::Manual, Building::Halved, Building::Written] {
        assert!(rt; holds(rt, alloc, &built(rt, alloc, *building, n, number)));
    }
}

#[test]
fn every_call_has_an_allowed_effect_in_every_order(rt: HostRuntime) {
    for n in 0u64..=6 {
        for number in 0..ORDERS[n as usize % 7] {
            each_way_holds(&rt, rt.alloc(), n, number);
        }
    }
}
