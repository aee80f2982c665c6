//! Entries that move to the place of another key and keep their pointers.
use super::support::{
    Counting, Keys, SOUGHT, SmallKeys, Sole, at, five, five_counting_keys, grows_to, has_keys,
    taken, write_key,
};
use arena_base::{BasePtr, P0, P8, PN};
use std::alloc::Global;
use std::cell::Cell;
use triple_ord::{OrdPair, SimpleOrdArena};

/// Gives an entry another key. Returns the old key, or the new one as `Err` if there is no entry.
fn rekeyed(a: &mut Keys, p: P0, key: u64) -> Result<u64, u64> {
    match a.rekey(p, OrdPair::new(key, ())) {
        Ok(before) => Ok(*before.k()),
        Err(back) => Err(*back.k()),
    }
}

#[test]
fn an_entry_moves_to_the_place_of_its_new_key(rt: HostRuntime) {
    let mut a = five(rt.alloc());
    assert!(rt; rekeyed(&mut a, at(1), 65) == Ok(50));
    assert!(rt; has_keys(&a, &[10, 30, 60, 65, 70]) && a.find_key(&65) == Some(at(1)));
    // the entry keeps its place
    assert!(rt; rekeyed(&mut a, at(1), 61) == Ok(65));
    assert!(rt; has_keys(&a, &[10, 30, 60, 61, 70]));
    // to either end
    assert!(rt; rekeyed(&mut a, at(5), 80) == Ok(10));
    assert!(rt; rekeyed(&mut a, at(3), 5) == Ok(70));
    assert!(rt; has_keys(&a, &[5, 30, 60, 61, 80]));
    assert!(rt; (a.first(), a.last()) == (Some(at(3)), Some(at(5))));
    // behind an equal key
    assert!(rt; rekeyed(&mut a, at(5), 30) == Ok(80));
    assert!(rt; has_keys(&a, &[5, 30, 30, 60, 61]) && a.find_key(&30) == Some(at(2)));
}

/// The index of the entry with the least key.
const FIRST: u32 = 5;

/// The comparisons that `rekey_counted` makes for the entry at an index, if they are as many as its visits. The moved entry is visited too,
/// and its predecessor's key is compared in place of its own; the first entry has none.
fn rekey_counted_compares(alloc: Global, index: u32, wanted: Counting<'_>) -> Option<u128> {
    let mut a = five_counting_keys(alloc, wanted.comparisons);
    let p = PN::_from_raw(index, ());
    let visits = match a.rekey_counted(p, Sole { key: wanted }) {
        Ok((_before, visits)) => visits.count(),
        Err(_) => return None,
    };
    let compared = taken(wanted.comparisons);
    let is_one_fewer = index == FIRST && compared.saturating_add(1) == visits;
    if compared == visits || is_one_fewer {
        Some(compared)
    } else {
        None
    }
}

/// The comparisons that `rekey` makes.
fn rekey_compares(alloc: Global, index: u32, wanted: Counting<'_>) -> Option<u128> {
    let mut a = five_counting_keys(alloc, wanted.comparisons);
    match a.rekey(PN::_from_raw(index, ()), Sole { key: wanted }) {
        Ok(_) => Some(taken(wanted.comparisons)),
        Err(_) => None,
    }
}

/// The comparisons that `reposition` makes after the key was written.
fn reposition_compares(alloc: Global, index: u32, wanted: Counting<'_>) -> Option<u128> {
    let mut a = five_counting_keys(alloc, wanted.comparisons);
    let p = PN::_from_raw(index, ());
    match a.get_mut(p) {
        Some(item) => item.key = wanted,
        None => return None,
    }
    if a.reposition(p) {
        Some(taken(wanted.comparisons))
    } else {
        None
    }
}

#[test]
fn a_move_compares_only_what_its_search_visits(rt: HostRuntime) {
    let made = Cell::new(0u128);
    let comparisons = &made;
    for key in &SOUGHT {
        let wanted = Counting {
            key: *key,
            comparisons,
        };
        for index in 1..=5u32 {
            let compared = rekey_counted_compares(rt.alloc(), index, wanted);
            assert!(rt; compared.is_some());
            assert!(rt; rekey_compares(rt.alloc(), index, wanted) == compared);
            assert!(rt; reposition_compares(rt.alloc(), index, wanted) == compared);
        }
    }
}

/// A stale pointer, one that never named an entry, and the invalid one.
fn stale(a: &mut Keys) -> [P0; 3] {
    let _ = a.remove(at(4));
    [at(4), at(9), P0::invalid()]
}

/// Whether each call fails at a pointer that names no entry and returns its argument.
fn is_refused(a: &mut Keys, p: P0) -> bool {
    rekeyed(a, p, 1) == Err(1)
        && a.rekey_counted(p, OrdPair::new(2, ())) == Err(OrdPair::new(2, ()))
        && a.rekey_pair(p, 3) == Err(3)
        && !a.reposition(p)
}

#[test]
fn stale_pointers_give_the_item_back(rt: HostRuntime) {
    let mut a = five(rt.alloc());
    for p in &stale(&mut a) {
        assert!(rt; is_refused(&mut a, *p));
        assert!(rt; has_keys(&a, &[10, 30, 50, 70]) && a.generation() == 3);
    }
    // a new entry with the index of the stale pointer
    let _ = a.insert(OrdPair::new(40, ()));
    assert!(rt; is_refused(&mut a, at(4)) && has_keys(&a, &[10, 30, 40, 50, 70]));
}

/// Whether the keys rise, and those behind the entry at an index are greater than its key.
fn is_rising(a: &Keys, index: u32) -> bool {
    let mut least = 0u64;
    for (p, pair) in a {
        if *pair.k() < least {
            return false;
        }
        least = if p.inx() == index {
            pair.k().saturating_add(1)
        } else {
            *pair.k()
        };
    }
    true
}

/// The keys of five entries by index; 50 is at the root of their tree.
const FIVE: [u64; 5] = [50, 30, 70, 60, 10];

/// Whether the entry at an index has this key, and the other four entries keep theirs.
fn has_only_this(a: &Keys, index: u32, key: u64) -> bool {
    let mut i = 0u32;
    for other in &FIVE {
        i = i.wrapping_add(1);
        let wanted = OrdPair::new(if i == index { key } else { *other }, ());
        if a.get(at(i)) != Some(&wanted) {
            return false;
        }
    }
    a.len() == 5
}

/// Keys before, equal to, between and behind those of five entries.
const WRITTEN: [u64; 11] = [0, 10, 20, 30, 40, 50, 55, 60, 65, 70, 99];

#[test]
fn a_written_key_goes_to_its_place(rt: HostRuntime) {
    for index in 1u32..=5 {
        for key in &WRITTEN {
            let mut a = five(rt.alloc());
            write_key(&mut a, at(index), *key);
            assert!(rt; a.reposition(at(index)));
            assert!(rt; is_rising(&a, index) && has_only_this(&a, index, *key));
        }
    }
}

#[test]
fn a_pair_gets_another_key_and_keeps_its_value(rt: HostRuntime) {
    let mut a: SimpleOrdArena<P0, OrdPair<u64, char>> = SimpleOrdArena::new(rt.alloc());
    for (key, value) in &[(1u64, 'a'), (2, 'b'), (3, 'c')] {
        assert!(rt; a.insert(OrdPair::new(*key, *value)).is_ok());
    }
    assert!(rt; a.rekey_pair(at(1), 3) == Ok(1));
    assert!(rt; a.get(at(1)) == Some(&OrdPair::new(3, 'a')));
    assert!(rt; (a.first(), a.last()) == (Some(at(2)), Some(at(1))));
}

/// The visits of the search for the new place of an entry, if there is such an entry.
fn visits(a: &mut Keys, p: P0, key: u64) -> Option<u128> {
    match a.rekey_counted(p, OrdPair::new(key, ())) {
        Ok((_, visits)) => Some(visits.count()),
        Err(_) => None,
    }
}

#[test]
fn the_search_for_a_place_visits_few_entries(rt: HostRuntime) {
    let mut a = five(rt.alloc());
    // the root, whose key is passed over, then 70 and 60
    assert!(rt; visits(&mut a, at(1), 55) == Some(3));
    // an arena of one entry
    let mut one = Keys::new(rt.alloc());
    let _ = one.insert(OrdPair::new(7, ()));
    assert!(rt; visits(&mut one, at(1), 9) == Some(1) && has_keys(&one, &[9]));
}

/// The 8-bit pointer of an entry inserted before any removal.
fn small_at(index: u8) -> P8 {
    P8::_from_raw(index, 2)
}

/// Gives every entry the mirror of its key, from the last index to the first. Returns whether each entry exists.
fn is_mirrored(a: &mut SmallKeys) -> bool {
    for index in (1..=254u8).rev() {
        let key = match a.get(small_at(index)) {
            Some(pair) => 1000u64.saturating_sub(*pair.k()),
            None => return false,
        };
        if a.rekey_pair(small_at(index), key).is_err() {
            return false;
        }
    }
    true
}

/// Whether the entries have the keys from 747 on, each at the index that had the mirrored key.
fn has_mirrored_keys(a: &SmallKeys) -> bool {
    let mut key = 747u64;
    for (p, pair) in a {
        // index 1 has the key 0, and each next index 77 more, modulo 254
        let was = (p.inx() as u64).saturating_sub(1).wrapping_mul(77) % 254;
        if *pair.k() != key || was.wrapping_add(key) != 1000 {
            return false;
        }
        key = key.wrapping_add(1);
    }
    key == 1001
}

#[test]
fn every_entry_of_a_full_arena_moves(rt: HostRuntime) {
    let mut a = SmallKeys::new(rt.alloc());
    for capacity in &[4usize, 8, 16, 32, 64, 128, 254] {
        assert!(rt; grows_to(&mut a, *capacity));
    }
    assert!(rt; is_mirrored(&mut a));
    assert!(rt; has_mirrored_keys(&a));
    assert!(rt; (a.len(), a.capacity(), a.generation()) == (254, 254, 2));
}
