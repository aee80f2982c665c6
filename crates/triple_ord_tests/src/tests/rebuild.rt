//! Compressions, the canonical order and transfers.
use super::support::{Keys, SmallKeys, at, has_ranks, keys};
use arena_base::{BasePtr, InvalidationOption, P0, P8};
use std::alloc::Global;
use triple_ord::OrdPair;

/// Compresses an arena by a closure that keeps each item. Returns how often it is called.
fn calls_of_a_compression(a: &mut Keys) -> u64 {
    let mut calls = 0u64;
    let _ = a.compress_with(false, |_old: P0, pair: OrdPair<u64, ()>, _new: P0| {
        calls = calls.wrapping_add(1);
        pair
    });
    calls
}

#[test]
fn a_compression_shows_each_entry(rt: HostRuntime) {
    let mut a = keys(rt.alloc(), &[3, 1, 4, 2, 5]);
    let _ = a.remove(at(3));
    assert!(rt; calls_of_a_compression(&mut a) == 4);
    assert!(rt; has_ranks(&a, &[(2, 1), (3, 2), (1, 3), (4, 1)]));
}

#[test]
fn the_canonical_order_numbers_the_entries_by_position(rt: HostRuntime) {
    let mut three = keys(rt.alloc(), &[2, 1, 3]);
    three.compress_canonical(false).allow();
    assert!(rt; has_ranks(&three, &[(1, 1), (2, 3), (3, 1)]));
    assert!(rt; three.find_key(&2) == Some(P0::_from_raw(2, 3)));
}

/// The indexes and ranks of seven keys after a rebuild.
const SEVEN: [(u32, u8); 7] = [(1, 1), (2, 3), (3, 1), (4, 4), (5, 1), (6, 3), (7, 1)];

#[test]
fn a_compression_of_seven_keys_gives_a_complete_tree(rt: HostRuntime) {
    let mut seven = keys(rt.alloc(), &[1, 2, 3, 4, 5, 6, 7]);
    seven.compress(true).allow();
    assert!(rt; has_ranks(&seven, SEVEN.as_slice()));
}

/// Transfers the keys from 1 to `len` to 8-bit pointers, with generation 255, the greatest one.
fn shrunk(alloc: Global, len: u64) -> SmallKeys {
    let mut source = Keys::new(alloc);
    for key in 1..=len {
        let _ = source.insert(OrdPair::new(key, ()));
    }
    let mut small = SmallKeys::new(alloc);
    let _ = small.transfer_canonical_reallocating(
        255,
        &mut source,
        |_old: P0, taken: InvalidationOption<OrdPair<u64, ()>>, _new: P8| taken.allow(),
    );
    small
}

#[test]
fn eight_bit_pointers_take_254_entries(rt: HostRuntime) {
    let small = shrunk(rt.alloc(), 254);
    assert!(rt; (small.len(), small.capacity(), small.generation()) == (254, 254, 255));
    assert!(rt; small.find_key(&77) == Some(P8::_from_raw(77, 255)));
}

/// Compresses an arena whose generation is the greatest, into the canonical order or not, with a reset or not.
fn compressed(a: &mut SmallKeys, is_canonical: bool, reset: bool) -> InvalidationOption<()> {
    a.set_generation(255);
    if is_canonical {
        a.compress_canonical(reset)
    } else {
        a.compress(reset)
    }
}

/// The generation overflows, which is reported unless it is reset.
#[test]
fn a_compression_reports_an_overflow_unless_it_resets(rt: HostRuntime) {
    let mut a = shrunk(rt.alloc(), 1);
    for (is_canonical, reset) in &[(false, false), (true, false), (false, true)] {
        let told = compressed(&mut a, *is_canonical, *reset);
        assert!(rt; matches!(told, InvalidationOption::Success(())) == *reset);
        assert!(rt; a.find_key(&1) == Some(P8::_from_raw(1, 2)));
    }
}
