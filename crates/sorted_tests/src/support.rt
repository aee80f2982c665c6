//! A sorted arena beside a plain vector of the same entries, and the bounds of its ranges.
use sorted_arena::{BasePtr, P0, Range, SortedArena};
use std::alloc::{Allocator, Global};
use std::ops::Bound;

/// Numbers by keys.
pub(crate) type Numbers<A = Global> = SortedArena<u64, usize, P0, A>;

/// An entry of the plain vector.
#[derive(Clone, Copy, PartialEq, Eq)]
pub(crate) struct Entry {
    pub(crate) p: P0,
    pub(crate) k: u64,
    pub(crate) v: usize,
}

/// An arena beside the plain vector of its entries, in order.
#[derive(Drop)]
pub(crate) struct Beside {
    pub(crate) arena: Numbers,
    pub(crate) entries: Vec<Entry>,
}

/// The keys that are inserted. The even numbers around them are absent.
pub(crate) const KEYS: [u64; 3] = [1, 3, 5];

/// How many keys an arena gets, and how many orders of so many of the three keys there are.
pub(crate) const ORDERS: [(usize, usize); 7] = [
    (0, 1),
    (1, 3),
    (2, 9),
    (3, 27),
    (4, 81),
    (5, 243),
    (6, 729),
];

/// Puts an entry into the vector, after every entry with a key ≤ its own.
pub(crate) fn put(entries: &mut Vec<Entry>, entry: Entry) -> bool {
    let mut place = 0usize;
    for other in entries.iter() {
        if other.k <= entry.k {
            place = place.saturating_add(1);
        }
    }
    place <= entries.len() && entries.insert(place, entry).is_ok()
}

/// Inserts a key. Its value is the number of entries before.
pub(crate) fn insert(beside: &mut Beside, k: u64) -> bool {
    let v = beside.entries.len();
    match beside.arena.insert(k, v) {
        Ok(p) => put(&mut beside.entries, Entry { p, k, v }),
        Err(_) => false,
    }
}

/// An arena of n keys in the order with this number, whose digits to the base 3 name them.
pub(crate) fn beside_of(alloc: Global, n: usize, number: usize) -> Option<Beside> {
    let mut beside = Beside {
        arena: Numbers::new(alloc),
        entries: Vec::new(alloc),
    };
    let mut digits = number;
    for _ in 0..n {
        if !insert(&mut beside, KEYS[digits % 3]) {
            return None;
        }
        digits /= 3;
    }
    Some(beside)
}

/// Such an arena, compacted if this says so; the entries of the vector have the pointers that they have then.
pub(crate) fn start_of(alloc: Global, n: usize, number: usize, is_compact: bool) -> Option<Beside> {
    let mut beside = beside_of(alloc, n, number)?;
    if is_compact {
        beside.arena.compact();
        let mut inx = 0u32;
        for entry in beside.entries.iter_mut() {
            inx = inx.saturating_add(1);
            // the generation was 2, the first
            entry.p = P0::_from_raw(inx, 3);
        }
    }
    Some(beside)
}

/// The next entry, from the back or from the front.
fn next_of<A: Allocator>(range: &mut Range<'_, u64, usize, P0, A>, is_back: bool) -> Option<Entry> {
    let given = if is_back {
        range.next_back()
    } else {
        range.next()
    };
    let Some((p, k, v)) = given else {
        return None;
    };
    Some(Entry { p, k: *k, v: *v })
}

/// Whether an iterator gives these entries and no more, each turn from the back if its bit is set, else from the front.
pub(crate) fn gives<A: Allocator>(
    range: Range<'_, u64, usize, P0, A>,
    entries: &[Entry],
    bits: usize,
) -> bool {
    let mut range = range;
    let mut turns = bits;
    let mut first = 0usize;
    let mut end = entries.len();
    for _ in 0..entries.len() {
        let is_back = turns % 2 == 1;
        turns /= 2;
        if is_back {
            end = end.saturating_sub(1);
        }
        let place = if is_back { end } else { first };
        if next_of(&mut range, is_back) != entries.get(place).copied() {
            return false;
        }
        if !is_back {
            first = first.saturating_add(1);
        }
    }
    next_of(&mut range, false) == None && next_of(&mut range, true) == None
}

/// The pointer at a place of the vector.
fn pointer_at(entries: &[Entry], place: Option<usize>) -> Option<P0> {
    let entry = entries.get(place?)?;
    Some(entry.p)
}

/// Whether an arena's pointers name the entry at a place of the vector and its neighbours.
fn names<A: Allocator>(arena: &Numbers<A>, entries: &[Entry], place: usize) -> bool {
    let Some(Entry { p, k, v }) = entries.get(place).copied() else {
        return false;
    };
    let around = (arena.prev(p), arena.next(p));
    let before = pointer_at(entries, place.checked_sub(1));
    let behind = pointer_at(entries, place.checked_add(1));
    let is_there = arena.contains(p) && arena.key(p) == Some(&k);
    is_there && arena.get(p) == Some((&k, &v)) && around == (before, behind)
}

/// Whether an arena has the entries of the vector: their number, its ends, all of them from both ends, and each by its pointer.
pub(crate) fn are_alike<A: Allocator>(arena: &Numbers<A>, entries: &[Entry]) -> bool {
    let ends = (arena.first(), arena.last());
    let wanted = (
        pointer_at(entries, Some(0)),
        pointer_at(entries, entries.len().checked_sub(1)),
    );
    if ends != wanted || arena.len() != entries.len() || arena.capacity() < entries.len() {
        return false;
    }
    for place in 0..entries.len() {
        if !names(arena, entries, place) {
            return false;
        }
    }
    gives(arena.iter(), entries, 0) && gives(arena.iter(), entries, usize::MAX)
}

/// The answers of `find`, `contains_key`, `lower_bound`, `upper_bound` and `count_of`.
#[derive(Clone, Copy, PartialEq, Eq)]
struct Answers {
    find: Option<P0>,
    contains: bool,
    lower: Option<P0>,
    upper: Option<P0>,
    count: usize,
}

/// What an arena answers for a key.
fn answers_of<A: Allocator>(arena: &Numbers<A>, k: u64) -> Answers {
    Answers {
        find: arena.find(&k),
        contains: arena.contains_key(&k),
        lower: arena.lower_bound(&k),
        upper: arena.upper_bound(&k),
        count: arena.count_of(&k),
    }
}

/// The pointer of the first entry whose key is at least this one.
fn first_from(entries: &[Entry], k: u64) -> Option<P0> {
    for entry in entries {
        if entry.k >= k {
            return Some(entry.p);
        }
    }
    None
}

/// How many entries have this key.
fn count_of(entries: &[Entry], k: u64) -> usize {
    let mut count = 0usize;
    for entry in entries {
        if entry.k == k {
            count = count.saturating_add(1);
        }
    }
    count
}

/// What is right of a vector for a key.
fn right_answers(entries: &[Entry], k: u64) -> Answers {
    let count = count_of(entries, k);
    let lower = first_from(entries, k);
    Answers {
        find: if count > 0 { lower } else { None },
        contains: count > 0,
        lower,
        upper: first_from(entries, k.saturating_add(1)),
        count,
    }
}

/// Whether the searches for all keys from 0 to 6 answer what is right of the vector.
pub(crate) fn are_found<A: Allocator>(arena: &Numbers<A>, entries: &[Entry]) -> bool {
    for k in 0u64..7 {
        if answers_of(arena, k) != right_answers(entries, k) {
            return false;
        }
    }
    true
}

/// How many bounds there are: none, and each key from 0 to 6 included or excluded.
pub(crate) const BOUNDS: u64 = 15;

/// The bound with this number.
pub(crate) fn bound(number: u64) -> Bound<u64> {
    match number {
        0 => Bound::Unbounded,
        1..=7 => Bound::Included(number - 1),
        _ => Bound::Excluded(number.saturating_sub(8)),
    }
}

/// Whether a key is not before a range with this start.
pub(crate) fn is_from(from: Bound<u64>, k: u64) -> bool {
    match from {
        Bound::Included(least) => least <= k,
        Bound::Excluded(before) => before < k,
        Bound::Unbounded => true,
    }
}

/// Whether a key is not past a range with this end.
pub(crate) fn is_until(until: Bound<u64>, k: u64) -> bool {
    match until {
        Bound::Included(greatest) => k <= greatest,
        Bound::Excluded(past) => k < past,
        Bound::Unbounded => true,
    }
}

/// An arena, and the entries of its vector in a range and outside it.
#[derive(Drop)]
pub(crate) struct Parts {
    pub(crate) arena: Numbers,
    pub(crate) within: Vec<Entry>,
    pub(crate) others: Vec<Entry>,
}

/// An arena of n keys in this order, with its entries parted by a range.
pub(crate) fn parted(
    alloc: Global,
    n: usize,
    number: usize,
    from: Bound<u64>,
    until: Bound<u64>,
) -> Option<Parts> {
    let Beside { arena, entries } = beside_of(alloc, n, number)?;
    let mut within = Vec::new(alloc);
    let mut others = Vec::new(alloc);
    for entry in entries {
        if is_from(from, entry.k) && is_until(until, entry.k) {
            within.push(entry).ok()?;
        } else {
            others.push(entry).ok()?;
        }
    }
    Some(Parts {
        arena,
        within,
        others,
    })
}

/// Whether an arena has these entries and no others, and finds them.
pub(crate) fn is_left(arena: &Numbers, others: &[Entry], gone: &[Entry]) -> bool {
    for entry in gone {
        if arena.contains(entry.p) {
            return false;
        }
    }
    are_alike(arena, others) && are_found(arena, others)
}
