//! Drains, in order and by index. The keys 1, 2, 3, 5 have the indexes 2, 4, 1, 3.
use super::support::{Keys, four, has_keys};
use arena_base::{BasePtr, InvalidationOption, P0, P8};
use std::alloc::Global;
use std::cell::Cell;
use std::mem;
use triple_ord::{OrdPair, SimpleOrdArena, SimpleOrdItem};

/// The four keys, after a drain in order that took `taken` entries and was then forgotten.
fn forgotten(alloc: Global, taken: usize) -> Keys {
    let mut a = four(alloc);
    let mut drain = a.drain_ordered();
    for _ in 0..taken {
        let _ = drain.next();
    }
    mem::forget(drain);
    a
}

/// The same for a drain by index.
fn forgotten_by_index(alloc: Global, taken: usize) -> Keys {
    let mut a = four(alloc);
    let mut drain = a.drain();
    for _ in 0..taken {
        let _ = drain.next();
    }
    mem::forget(drain);
    a
}

/// The number of entries that a drain takes, the generation after it, and the keys that it leaves, in order and by index.
const LEFT: &[(usize, u64, &[u64], &[u64])] = &[
    (0, 3, &[1, 2, 3, 5], &[1, 2, 3, 5]),
    (1, 4, &[2, 3, 5], &[1, 2, 5]),
    (3, 6, &[5], &[2]),
    (4, 7, &[], &[]),
    (5, 7, &[], &[]),
];

#[test]
fn a_forgotten_drain_leaves_the_rest(rt: HostRuntime) {
    for (taken, generation, in_order, by_index) in LEFT {
        let a = forgotten(rt.alloc(), *taken);
        assert!(rt; a.generation() == *generation && has_keys(&a, in_order));
        let b = forgotten_by_index(rt.alloc(), *taken);
        assert!(rt; b.generation() == *generation && has_keys(&b, by_index));
    }
}

/// A key that counts how often it is dropped.
struct Counted<'a> {
    key: u64,
    drops: &'a Cell<u64>,
}

impl Drop for Counted<'_> {
    fn drop(self) {
        let Counted { key: _, drops } = self;
        drops.set(drops.get().wrapping_add(1));
    }
}

impl SimpleOrdItem for Counted<'_> {
    type Key = u64;

    ghost key_of = { λ c. c.key };

    fn key(&self) -> &u64 {
        &self.key
    }
}

/// Five keys that count their drops.
fn five_counted(alloc: Global, drops: &Cell<u64>) -> SimpleOrdArena<P0, Counted<'_>> {
    let mut a = SimpleOrdArena::new(alloc);
    for key in &[3u64, 1, 5, 2, 4] {
        let _ = a.insert(Counted { key: *key, drops });
    }
    a
}

/// Takes `taken` items by an owning iterator. Returns how many items were dropped before the iterator itself.
fn own(alloc: Global, drops: &Cell<u64>, taken: usize) -> u64 {
    let mut all = five_counted(alloc, drops).into_iter();
    for _ in 0..taken {
        let _ = all.next();
    }
    drops.get()
}

/// The same for a drain in order.
fn drain(alloc: Global, drops: &Cell<u64>, taken: usize) -> u64 {
    let mut a = five_counted(alloc, drops);
    let mut drain = a.drain_ordered();
    for _ in 0..taken {
        let _ = drain.next();
    }
    drops.get()
}

/// The same for a drain by index.
fn drain_by_index(alloc: Global, drops: &Cell<u64>, taken: usize) -> u64 {
    let mut a = five_counted(alloc, drops);
    let mut drain = a.drain();
    for _ in 0..taken {
        let _ = drain.next();
    }
    drops.get()
}

/// Each item is dropped exactly once, wherever a drain or an owning iterator ends.
#[test]
fn items_are_dropped_once(rt: HostRuntime) {
    let drops = Cell::new(0u64);
    for (taken, before) in &[(0usize, 0u64), (1, 1), (3, 3), (5, 5), (6, 5)] {
        assert!(rt; own(rt.alloc(), &drops, *taken) == *before);
        assert!(rt; drops.replace(0) == 5);
        assert!(rt; drain(rt.alloc(), &drops, *taken) == *before);
        assert!(rt; drops.replace(0) == 5);
        assert!(rt; drain_by_index(rt.alloc(), &drops, *taken) == *before);
        assert!(rt; drops.replace(0) == 5);
    }
}

/// 8-bit generations overflow in the middle of a drain.
#[test]
fn a_drain_reports_an_overflow_once(rt: HostRuntime) {
    let mut a: SimpleOrdArena<P8, OrdPair<u64, ()>> = SimpleOrdArena::new(rt.alloc());
    for key in 1..=3u64 {
        let _ = a.insert(OrdPair::new(key, ()));
    }
    a.set_generation(254);
    let mut overflowed = 0u8;
    for taken in a.drain_ordered() {
        if let InvalidationOption::GenerationOverflow((p, _)) = taken {
            assert!(rt; overflowed == 0);
            overflowed = p.inx();
        }
    }
    assert!(rt; (overflowed, a.generation()) == (2, 4));
}
