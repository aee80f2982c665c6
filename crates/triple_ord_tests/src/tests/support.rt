//! What several test files use: arenas of keys, and keys that count their comparisons.
ghost use Rattle.std.proofs.Common.{rules};
ghost use Rattle.std.specs.Cmp.{partial_order_from_own_ties};
ghost use Rattle.std.specs.Cmp.Rules.{comparing};
ghost use Rattle.std.specs.Ordering.{nat_cmp, on, as_partial_cmp};

use arena_base::{BasePtr, InvalidationResult, P0, P8, PN};
use std::alloc::{Allocator, Global};
use std::cell::Cell;
use std::cmp::Ordering;
use triple_ord::{OrdInsertionError, OrdPair, SimpleOrdArena, SimpleOrdItem};

pub(super) type Keys<A = Global> = SimpleOrdArena<P0, OrdPair<u64, ()>, A>;

/// An arena with these keys, inserted in this order. If an insertion fails, the key is missing, which each test would notice.
pub(super) fn keys(alloc: Global, list: &[u64]) -> Keys {
    let mut a = Keys::new(alloc);
    for k in list {
        let _ = a.insert(OrdPair::new(*k, ()));
    }
    a
}

/// The keys 10, 30, 50, 60, 70 at the indexes 5, 2, 1, 4, 3.
pub(super) fn five(alloc: Global) -> Keys {
    keys(alloc, &[50, 30, 70, 60, 10])
}

/// The pointer of an entry inserted before any removal.
pub(super) fn at(index: u32) -> P0 {
    P0::_from_raw(index, 2)
}

/// The rank of the entry at an index, 0 if there is none.
pub(super) fn rank_at(a: &Keys, index: u32) -> u8 {
    match a.get_inx_node(index) {
        Some((_, node)) => node.t.rank,
        None => 0,
    }
}

/// Whether the entries in order have these indexes and ranks.
pub(super) fn has_ranks(a: &Keys, wanted: &[(u32, u8)]) -> bool {
    let mut left = wanted.iter();
    for (p, _) in a {
        let index = p.inx();
        if left.next() != Some(&(index, rank_at(a, index))) {
            return false;
        }
    }
    left.next().is_none()
}

/// Whether these are the keys of an arena in order.
pub(super) fn has_keys<A: Allocator>(a: &Keys<A>, wanted: &[u64]) -> bool {
    let mut left = wanted.iter();
    for (_, pair) in a {
        if left.next() != Some(pair.k()) {
            return false;
        }
    }
    left.next().is_none()
}

/// Writes a key into the entry of a pointer, regardless of the order.
pub(super) fn write_key(a: &mut Keys, p: P0, key: u64) {
    if let Some(pair) = a.get_mut(p) {
        *pair = OrdPair::new(key, ());
    }
}

/// The keys 1, 2, 3, 5 at the indexes 2, 4, 1, 3; the entry of 5 has generation 3.
pub(super) fn four(alloc: Global) -> Keys {
    let mut a = keys(alloc, &[3, 1, 4, 2]);
    let _ = a.remove(at(3));
    let _ = a.insert(OrdPair::new(5, ()));
    a
}

/// Keys with a number.
pub(super) type Marks = SimpleOrdArena<P0, OrdPair<u64, u64>>;

/// The parent of the entry at an index, if there is one.
fn parent_at(a: &Keys, index: u32) -> Option<u32> {
    let (_, node) = a.get_inx_node(index)?;
    node.t.p_back.get()
}

/// The number of entries of an arena with another parent than before.
fn moved_since(before: &Keys, a: &Keys) -> usize {
    let mut moved = 0usize;
    for (p, _) in a {
        if parent_at(before, p.inx()) != parent_at(a, p.inx()) {
            moved = moved.saturating_add(1);
        }
    }
    moved
}

/// Removes the entry of a key, and returns how many others got a new parent. `None` if it isn't found or not removed.
pub(super) fn remove_key(a: &mut Keys, key: u64) -> Option<usize> {
    let before = a.clone().ok()?;
    let p = a.find_key(&key)?;
    let taken = a.remove(p);
    if taken == InvalidationResult::Success(OrdPair::new(key, ())) {
        Some(moved_since(&before, a))
    } else {
        None
    }
}

/// Keys with 8-bit pointers, which name 254 entries.
pub(super) type SmallKeys = SimpleOrdArena<P8, OrdPair<u64, ()>>;

/// Inserts a key. Returns whether it replaced one, or the error.
pub(super) fn is_replaced(a: &mut SmallKeys, key: u64) -> Result<bool, OrdInsertionError> {
    let (_, before) = a.insert(OrdPair::new(key, ()))?;
    Ok(before.is_some())
}

/// Inserts new keys up to a capacity. Returns whether the arena has this capacity from the first of them on.
pub(super) fn grows_to(a: &mut SmallKeys, capacity: usize) -> bool {
    for n in a.len()..capacity {
        let key = (n as u64).wrapping_mul(77) % 254;
        if is_replaced(a, key) != Ok(false) || a.capacity() != capacity {
            return false;
        }
    }
    true
}

/// A key that counts the comparisons of which it is the first operand.
#[derive(Clone, Copy)]
#[derive_where(PartialEq, Eq)]
pub(super) struct Counting<'a> {
    pub(super) key: u64,
    #[derive_where(skip(EqHashOrd))]
    pub(super) comparisons: &'a Cell<u128>,
}

impl Ord for Counting<'_> {
    ghost cmp = { on (λ c. c.key) nat_cmp };

    ghost total = { Prim.search (comparing, rules) };

    ghost matches_partial_cmp = { Prim.search (comparing, rules) };

    ghost matches_eq = { Prim.search (comparing, rules) };

    fn cmp(&self, other: &Self) -> Ordering {
        self.comparisons.set(self.comparisons.get().wrapping_add(1));
        self.key.cmp(&other.key)
    }
}

impl PartialOrd for Counting<'_> {
    ghost partial_cmp = { as_partial_cmp (on (λ c. c.key) nat_cmp) };

    ghost laws = { partial_order_from_own_ties (Prim.search (comparing, rules)) (Prim.search (comparing, rules)) };

    fn partial_cmp(&self, other: &Self) -> Option<Ordering> {
        Some(self.cmp(other))
    }
}

/// An item that consists only of its key.
#[derive(Drop)]
pub(super) struct Sole<'a> {
    pub(super) key: Counting<'a>,
}

impl<'a> SimpleOrdItem for Sole<'a> {
    type Key = Counting<'a>;

    ghost key_of = { λ s. s.key };

    fn key(&self) -> &Counting<'a> {
        &self.key
    }
}

/// The number of comparisons since the last call.
pub(super) fn taken(comparisons: &Cell<u128>) -> u128 {
    comparisons.replace(0)
}

/// Keys that count their comparisons.
pub(super) type CountingKeys<'a> = SimpleOrdArena<PN, Sole<'a>>;

/// Inserts a key and returns whether that succeeded.
pub(super) fn is_inserted<'a>(a: &mut CountingKeys<'a>, key: Counting<'a>) -> bool {
    a.insert(Sole { key }).is_ok()
}

/// Five keys whose comparisons are counted from now on.
pub(super) fn five_counting_keys(alloc: Global, comparisons: &Cell<u128>) -> CountingKeys<'_> {
    let mut a = SimpleOrdArena::new(alloc);
    for key in &[50u64, 30, 70, 60, 10] {
        let key = *key;
        let _ = is_inserted(&mut a, Counting { key, comparisons });
    }
    let _ = taken(comparisons);
    a
}

/// The keys of five entries, and some other keys.
pub(super) const SOUGHT: [u64; 9] = [50, 30, 70, 60, 10, 53, 40, 5, 99];
