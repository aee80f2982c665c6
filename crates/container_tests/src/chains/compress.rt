//! Compressions.
use super::support::{Entry, Letters, is_listed, scattered};
use arena_base::{InvalidationOption, P0};

/// Compresses, and returns the result and the number of calls.
fn compress_calling(chain: &mut Letters) -> (InvalidationOption<()>, u8) {
    let mut calls = 0u8;
    let overflow = chain.compress_with(true, |_old: P0, letter: char, _new: P0| {
        calls = calls.wrapping_add(1);
        letter
    });
    (overflow, calls)
}

/// The list c, d, a with the indexes 2, 3, 1.
const COMPRESSED: &[Entry] = &[(2, 2, 'c'), (3, 2, 'd'), (1, 2, 'a')];

#[test]
fn a_compression_calls_its_closure_once_per_entry(rt: HostRuntime) {
    let mut chain = scattered(rt.alloc());
    assert!(rt; compress_calling(&mut chain) == (InvalidationOption::Success(()), 3));
    assert!(rt; is_listed(&chain, COMPRESSED));
}
