//! Compressions.
use super::support::{counts, p0};
use arena_base::{Arena, BasePtr, InvalidationOption, P0};
use std::alloc::Global;

/// The number of a call, the pointers that it was shown, and the item.
type Call = (u8, P0, P0, char);

type Calls = Arena<P0, Call>;

/// Returns the letters e and d at the indexes 1 and 4, with the pointers 1.5 and 4.2; the next generation is 6.
fn scattered(alloc: Global) -> Calls {
    let mut arena = Calls::new(alloc);
    for letter in &['a', 'b', 'c', 'd', 'e'] {
        if *letter == 'e' {
            let _ = arena.remove_inx(3);
            let _ = arena.remove_inx(1);
        }
        let _ = arena.insert_reallocating((0, P0::invalid(), P0::invalid(), *letter));
    }
    let _ = arena.invalidate(p0(1, 4));
    let _ = arena.remove_inx(2);
    arena
}

/// Compresses, and writes into each item the call that was shown it. Returns the number of calls.
fn compress_calling(arena: &mut Calls) -> (InvalidationOption<()>, u8) {
    let mut calls = 0u8;
    let overflow = arena.compress_with(false, |old, item: Call, new| {
        calls = calls.wrapping_add(1);
        let letter = item.3;
        (calls, old, new, letter)
    });
    (overflow, calls)
}

/// A call by numbers: its number, the old pointer, the new one, and the letter.
type Shown = (u8, (u32, u64), (u32, u64), char);

/// The calls of the compression, in order.
const CALLS: &[Shown] = &[(1, (1, 5), (1, 7), 'e'), (2, (4, 2), (2, 7), 'd')];

/// Returns whether an arena has the item of a call at the new pointer.
fn has_call(arena: &Calls, call: &Shown) -> bool {
    let (count, (old_inx, old_generation), (inx, generation), letter) = *call;
    let new = p0(inx, generation);
    arena.get(new) == Some(&(count, p0(old_inx, old_generation), new, letter))
}

#[test]
fn a_compression_goes_by_rising_index(rt: HostRuntime) {
    let mut arena = scattered(rt.alloc());
    assert!(rt; compress_calling(&mut arena) == (InvalidationOption::Success(()), 2));
    for call in CALLS {
        assert!(rt; has_call(&arena, call));
    }
    assert!(rt; counts(&arena) == (2, 4, 7, Some((3, 7))));
}
