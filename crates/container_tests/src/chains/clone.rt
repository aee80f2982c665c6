//! Clones of other chains.
use super::support::{Letters, SCATTERED, is_listed, scattered};
use arena_base::{BasePtr, P0, ReallocationError};
use std::alloc::AllocError;

/// The error of a clone, if any, how often its closure was called, and how many entries are left.
type Cloned = (Option<ReallocationError>, u8, usize);

/// Makes a chain a clone of the source, with the letter at one index refused.
fn clone_but(chain: &mut Letters, source: &Letters, refused: u32) -> Cloned {
    let mut calls = 0u8;
    let outcome = chain.try_clone_from_with(source, |p: P0, letter: &char, _neighbours| {
        calls = calls.wrapping_add(1);
        if p.inx() == refused {
            return Err(AllocError);
        }
        Ok(*letter)
    });
    (outcome.err(), calls, chain.len())
}

/// Does the same without a refusal.
fn clone_all(chain: &mut Letters, source: &Letters) -> Cloned {
    let mut calls = 0u8;
    let outcome = chain.clone_from_with(source, |_p: P0, letter: &char, _neighbours| {
        calls = calls.wrapping_add(1);
        *letter
    });
    (outcome.err(), calls, chain.len())
}

/// Returns whether a clone has the pointers of the source, in its order.
fn is_cloned(chain: &mut Letters, source: &Letters) -> bool {
    clone_all(chain, source) == (None, 3, 3)
        && is_listed(chain, SCATTERED)
        && (chain.capacity(), chain.generation()) == (4, 3)
}

#[test]
fn a_clone_has_the_pointers_in_order(rt: HostRuntime) {
    let source = scattered(rt.alloc());
    let mut chain = Letters::new(rt.alloc());
    assert!(rt; is_cloned(&mut chain, &source));
}

/// Returns whether a complete clone loses all entries at the next one, in which a letter is refused.
fn is_emptied(chain: &mut Letters, source: &Letters) -> bool {
    clone_but(chain, source, 0) == (None, 3, 3)
        && clone_but(chain, source, 2) == (Some(ReallocationError::AllocError), 2, 0)
        && (chain.capacity(), chain.generation()) == (4, 3)
}

#[test]
fn a_refused_item_leaves_no_entry(rt: HostRuntime) {
    let source = scattered(rt.alloc());
    let mut chain = Letters::new(rt.alloc());
    assert!(rt; is_emptied(&mut chain, &source));
}
