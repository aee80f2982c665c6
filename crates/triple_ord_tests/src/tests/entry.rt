//! Insertions by kind, and entries requested first.
use super::support::{Counting, CountingKeys, Marks, Sole, five_counting_keys, taken};
use arena_base::{BasePtr, P0, PN};
use std::alloc::Global;
use std::cell::Cell;
use std::cmp::Ordering;
use triple_ord::{OrdEntryKind, OrdInsertKind, OrdInsertionError, OrdPair};

/// A kind of insertion, as a table row.
#[derive(Clone, Copy)]
enum Row {
    Empty,
    Normal(u64),
    Nonhereditary(u64),
    Linear(u32, usize, u64),
    NonhereditaryLinear(u32, usize, u64),
    Manual(u32, Ordering),
}

/// The kind of a row.
fn kind_in(row: &Row) -> OrdInsertKind<P0, &u64> {
    match row {
        Row::Empty => OrdInsertKind::Empty,
        Row::Normal(k) => OrdInsertKind::Normal(k),
        Row::Nonhereditary(k) => OrdInsertKind::Nonhereditary(k),
        Row::Linear(p_init, num, k) => OrdInsertKind::Linear {
            p_init: *p_init,
            num: *num,
            k,
        },
        Row::NonhereditaryLinear(p_init, num, k) => OrdInsertKind::NonhereditaryLinear {
            p_init: *p_init,
            num: *num,
            k,
        },
        Row::Manual(p_target, direction) => OrdInsertKind::Manual {
            p_target: *p_target,
            direction: *direction,
        },
    }
}

/// The pointer that an entry showed, the visits of its search, and the mark that it replaced.
type Answer = (OrdEntryKind<P0>, u128, Option<u64>);

/// Requests an entry and inserts an item.
fn put(a: &mut Marks, row: &Row, (key, mark): (u64, u64)) -> Result<Answer, OrdInsertionError> {
    let entry = a.entry_insert(kind_in(row))?;
    let shown = entry.ptr();
    let visits = entry.visits().count();
    let before = entry.insert(OrdPair::new(key, mark)).map(|pair| *pair.v());
    Ok((shown, visits, before))
}

/// What a new entry at this index shows.
fn new(index: u32) -> OrdEntryKind<P0> {
    OrdEntryKind::New(P0::_from_raw(index, 2))
}

/// What an entry shows that replaces the item at this index.
fn replacing(index: u32) -> OrdEntryKind<P0> {
    OrdEntryKind::Replacing(P0::_from_raw(index, 2))
}

/// Keys inserted in this order, each marked 0.
fn marked(alloc: Global, list: &[u64]) -> Marks {
    let mut a = Marks::new(alloc);
    for key in list {
        let _ = a.insert(OrdPair::new(*key, 0));
    }
    a
}

/// The keys 10, 30, 50, 60, 70, each marked 0, at the indexes 5, 2, 1, 4, 3.
fn five(alloc: Global) -> Marks {
    marked(alloc, &[50, 30, 70, 60, 10])
}

/// The rank of the entry at an index, 0 if there is none.
fn rank_at(a: &Marks, index: u32) -> u8 {
    match a.get_inx_node(index) {
        Some((_, node)) => node.t.rank,
        None => 0,
    }
}

/// Whether these are the entries in order, each by index, key, mark and rank.
fn is_listed(a: &Marks, wanted: &[(u32, u64, u64, u8)]) -> bool {
    let mut left = wanted.iter();
    for (p, pair) in a {
        let index = p.inx();
        if left.next() != Some(&(index, *pair.k(), *pair.v(), rank_at(a, index))) {
            return false;
        }
    }
    left.next().is_none()
}

/// The five keys, with 20 inserted from a hint and another 60 behind the first.
const SEVEN: [(u32, u64, u64, u8); 7] = [
    (5, 10, 0, 1),
    (6, 20, 7, 2),
    (2, 30, 0, 1),
    (1, 50, 0, 3),
    (4, 60, 0, 1),
    (7, 60, 8, 2),
    (3, 70, 0, 1),
];

#[test]
fn entries_from_hints_go_to_the_places_of_their_keys(rt: HostRuntime) {
    let mut a = five(rt.alloc());
    for (row, item) in &[
        (Row::Linear(5, 1, 20), (20u64, 7u64)),
        (Row::NonhereditaryLinear(4, 2, 60), (60, 8)),
    ] {
        let _ = put(&mut a, row, *item);
    }
    assert!(rt; is_listed(&a, SEVEN.as_slice()));
}

/// A kind of insertion into five keys, whether its entry is new, its index, and the visits.
const OVER_FIVE: [(Row, (bool, u32, u128)); 9] = [
    (Row::Normal(53), (true, 6, 3)),
    (Row::Normal(50), (false, 1, 2)),
    (Row::Nonhereditary(50), (true, 6, 3)),
    (Row::Linear(2, 3, 40), (true, 6, 2)),
    (Row::Linear(2, 0, 70), (false, 3, 3)),
    (Row::NonhereditaryLinear(4, 1, 60), (true, 6, 4)),
    (Row::Manual(4, Ordering::Less), (true, 6, 0)),
    (Row::Manual(4, Ordering::Greater), (true, 6, 0)),
    (Row::Manual(4, Ordering::Equal), (false, 4, 0)),
];

#[test]
fn an_entry_shows_its_pointer_and_visits_before_it_is_inserted(rt: HostRuntime) {
    for (row, (is_new, index, visits)) in &OVER_FIVE {
        let wanted = if *is_new {
            (new(*index), *visits, None)
        } else {
            (replacing(*index), *visits, Some(0))
        };
        let mut a = five(rt.alloc());
        assert!(rt; put(&mut a, row, (55, 1)) == Ok(wanted));
    }
}

/// Each kind, with a key or an index of an arena of one entry.
const EACH_KIND: [Row; 6] = [
    Row::Empty,
    Row::Normal(5),
    Row::Nonhereditary(5),
    Row::Linear(1, 2, 5),
    Row::NonhereditaryLinear(1, 2, 5),
    Row::Manual(1, Ordering::Less),
];

/// What an entry that may grow shows before it is dropped, or the error.
fn asked(a: &mut Marks, row: &Row) -> Result<OrdEntryKind<P0>, OrdInsertionError> {
    let entry = a.entry_insert_reallocating(kind_in(row))?;
    Ok(entry.ptr())
}

/// The same for an entry within the capacity.
fn asked_within(a: &mut Marks, row: &Row) -> Result<OrdEntryKind<P0>, OrdInsertionError> {
    let entry = a.entry_insert_within_capacity(kind_in(row))?;
    Ok(entry.ptr())
}

/// The four keys as inserted.
const FOUR: [(u32, u64, u64, u8); 4] = [(1, 5, 0, 1), (2, 6, 0, 3), (3, 7, 0, 2), (4, 8, 0, 1)];

/// A dropped entry inserts nothing; the capacity has grown for a new one.
#[test]
fn a_dropped_entry_inserts_nothing(rt: HostRuntime) {
    for row in &EACH_KIND {
        let mut a = marked(rt.alloc(), &[5, 6, 7, 8]);
        let has_grown = asked(&mut a, row) == Ok(new(5));
        assert!(rt; (a.capacity(), a.generation()) == (if has_grown { 8 } else { 4 }, 2));
        assert!(rt; is_listed(&a, FOUR.as_slice()));
    }
}

/// The keys 1 and 2 at the indexes 1 and 2, marked 0 and 20, in an arena that can't grow.
fn full(alloc: Global) -> Marks {
    let mut a = Marks::new(alloc);
    let _ = a.set_max_capacity(2);
    for pair in &[(1u64, 0u64), (2, 0), (2, 20)] {
        let _ = a.insert_reallocating(OrdPair::new(pair.0, pair.1));
    }
    a
}

/// A kind of insertion into a full arena, and its errors if it may grow and within the capacity.
const REFUSED: [(Row, OrdInsertionError, OrdInsertionError); 5] = [
    (
        Row::Empty,
        OrdInsertionError::FailedOrdRequirement,
        OrdInsertionError::FailedOrdRequirement,
    ),
    (
        Row::Manual(9, Ordering::Less),
        OrdInsertionError::FailedOrdRequirement,
        OrdInsertionError::FailedOrdRequirement,
    ),
    (
        Row::Normal(3),
        OrdInsertionError::BeyondMaxCapacity,
        OrdInsertionError::NotWithinCapacity,
    ),
    (
        Row::Nonhereditary(1),
        OrdInsertionError::BeyondMaxCapacity,
        OrdInsertionError::NotWithinCapacity,
    ),
    (
        Row::Manual(1, Ordering::Greater),
        OrdInsertionError::BeyondMaxCapacity,
        OrdInsertionError::NotWithinCapacity,
    ),
];

#[test]
fn a_full_arena_at_its_limit_only_replaces(rt: HostRuntime) {
    let mut a = full(rt.alloc());
    for (row, refusal, inside) in &REFUSED {
        assert!(rt; asked(&mut a, row) == Err(*refusal));
        assert!(rt; asked_within(&mut a, row) == Err(*inside));
    }
    for row in &[Row::Normal(2), Row::Manual(2, Ordering::Equal)] {
        assert!(rt; asked(&mut a, row) == Ok(replacing(2)));
        assert!(rt; asked_within(&mut a, row) == Ok(replacing(2)));
    }
    assert!(rt; is_listed(&a, &[(1, 1, 0, 2), (2, 2, 20, 1)]));
}

/// In an empty arena an entry is the only one, for which the arena grows. A kind with an index fails.
#[test]
fn every_kind_but_manual_inserts_into_an_empty_arena(rt: HostRuntime) {
    for row in &EACH_KIND {
        let mut a = Marks::new(rt.alloc());
        let answer = put(&mut a, row, (5, 1));
        if matches!(row, Row::Manual(_, _)) {
            assert!(rt; answer == Err(OrdInsertionError::FailedOrdRequirement));
            assert!(rt; a.capacity() == 0);
        } else {
            assert!(rt; answer == Ok((new(1), 0, None)));
            assert!(rt; a.capacity() == 4);
        }
    }
}

/// The kinds of insertion by a key, numbered from 0 to 3.
fn keyed<'k, 'c>(which: u64, k: &'k Counting<'c>) -> OrdInsertKind<PN, &'k Counting<'c>> {
    match which {
        0 => OrdInsertKind::Normal(k),
        1 => OrdInsertKind::Nonhereditary(k),
        2 => OrdInsertKind::Linear {
            p_init: 2,
            num: 2,
            k,
        },
        _ => OrdInsertKind::NonhereditaryLinear {
            p_init: 4,
            num: 3,
            k,
        },
    }
}

/// The visits of the search for an entry of a kind, 0 on `Err`.
fn visits_of_an_entry<'a>(a: &mut CountingKeys<'a>, which: u64, key: &Counting<'a>) -> u128 {
    match a.entry_insert(keyed(which, key)) {
        Ok(entry) => entry.visits().count(),
        Err(_) => 0,
    }
}

/// Inserts a key, within the capacity or not, and returns whether that succeeded.
fn is_inserted<'a>(a: &mut CountingKeys<'a>, key: Counting<'a>, is_within: bool) -> bool {
    if is_within {
        a.insert_within_capacity(Sole { key }).is_ok()
    } else {
        a.insert_reallocating(Sole { key }).is_ok()
    }
}

/// Whether an insertion of a key makes as many comparisons as an entry for it has visits.
fn insertion_compares<'a>(a: &mut CountingKeys<'a>, key: Counting<'a>, is_within: bool) -> bool {
    let comparisons = key.comparisons;
    let visits = visits_of_an_entry(a, 0, &key);
    let _ = taken(comparisons);
    is_inserted(a, key, is_within) && taken(comparisons) == visits
}

#[test]
fn entries_and_insertions_make_one_comparison_per_visit(rt: HostRuntime) {
    let made = Cell::new(0u128);
    let comparisons = &made;
    let mut a = five_counting_keys(rt.alloc(), comparisons);
    for key in &[50u64, 30, 70, 10, 53, 40, 5, 99] {
        let key = *key;
        let wanted = Counting { key, comparisons };
        for which in 0u64..4 {
            let visits = visits_of_an_entry(&mut a, which, &wanted);
            assert!(rt; visits > 0 && taken(comparisons) == visits);
        }
        assert!(rt; insertion_compares(&mut a, wanted, key < 53));
    }
}
