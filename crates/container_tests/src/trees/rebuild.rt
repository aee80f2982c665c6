//! Rebuilt trees, compared place by place with a recursive function of the length.
use super::support::{Keys, Place, insert_at, places};
use arena_base::{BasePtr, InvalidationOption, P0, ReallocationError};
use ord_tree::Side;
use std::alloc::{AllocError, Global};

/// Returns the index in the middle of a run.
fn middle_of(start: u32, len: u32) -> Option<u32> {
    if len == 0 {
        return None;
    }
    Some(start.saturating_add(len / 2))
}

/// Returns the rank over a run: `level` if it has five entries or more.
fn rank_over(len: u32, level: u8) -> u8 {
    match len {
        1 => 1,
        2 => 2,
        3 | 4 => 3,
        _ => level,
    }
}

/// Adds the places of a run in order. The parent of its root is `parent`.
fn add_run(
    places: &mut Vec<Place>,
    start: u32,
    len: u32,
    parent: Option<u32>,
    level: u8,
) -> Result<(), AllocError> {
    if len == 0 {
        return Ok(());
    }
    let half = len / 2;
    let rest = len - half - 1;
    let index = start.saturating_add(half);
    let after = index.saturating_add(1);
    let below = level.saturating_sub(1);
    add_run(places, start, half, Some(index), below)?;
    places.push(Place {
        index,
        key: 0,
        rank: rank_over(len, level),
        parent,
        children: (middle_of(start, half), middle_of(after, rest)),
    })?;
    add_run(places, after, rest, Some(index), below)
}

/// Returns the places of the rebuilt tree of `len` entries, whose indexes rise from 1, as far as memory allows.
fn rebuilt(alloc: Global, len: u32) -> Vec<Place> {
    let (mut power, mut top) = (1u32, 1u8);
    for _ in 0..32 {
        if power < len.saturating_sub(1) {
            power = power.saturating_mul(2);
            top = top.saturating_add(1);
        }
    }
    let mut places = Vec::new(alloc);
    let _ = add_run(&mut places, 1, len, None, top);
    places
}

/// Inserts `len` entries, each behind the last, so that their indexes rise from 1. No key is compared. Returns whether that succeeded.
fn fill(tree: &mut Keys, len: u32) -> bool {
    let mut last = None;
    for _ in 0..len {
        let Some(Ok(p)) = insert_at(tree, last, 0) else {
            return false;
        };
        last = Some((p.inx(), Side::Greater));
    }
    true
}

/// Returns whether a tree is as the recursive function says.
fn is_rebuilt(alloc: Global, tree: &Keys, len: u32) -> bool {
    let found = places(alloc, tree);
    found.len() == tree.len()
        && found.as_slice() == rebuilt(alloc, len).as_slice()
        && tree.root() == middle_of(1, len)
}

/// Rebuilds a tree of `len` entries, and returns whether it is as the recursive function says.
fn rebuild(alloc: Global, tree: &mut Keys, len: u32) -> bool {
    let is_filled = fill(tree, len);
    let _ = tree.compress(false);
    is_filled && is_rebuilt(alloc, tree, len)
}

#[test]
fn a_rebuilt_tree_divides_into_halves(rt: HostRuntime) {
    let powers = [
        511, 512, 513, 1023, 1024, 1025, 2047, 2048, 2049, 4095, 4096, 4097,
    ];
    for len in (0..301u32).chain(powers) {
        assert!(rt; rebuild(rt.alloc(), &mut Keys::new(rt.alloc()), len));
    }
}

/// The ranks of rebuilt trees in order, by their number of entries.
const RANKS: &[(u32, &[u8])] = &[
    (3, &[1, 3, 1]),
    (5, &[1, 2, 3, 1, 2]),
    (6, &[1, 3, 1, 4, 1, 2]),
    (7, &[1, 3, 1, 4, 1, 3, 1]),
    (10, &[1, 2, 4, 1, 2, 5, 1, 2, 3, 1]),
    (12, &[1, 3, 1, 4, 1, 2, 5, 1, 2, 4, 1, 2]),
    (17, &[1, 2, 3, 1, 4, 1, 3, 1, 5, 1, 2, 3, 1, 4, 1, 3, 1]),
    (18, &[1, 2, 3, 1, 5, 1, 2, 3, 1, 6, 1, 2, 3, 1, 5, 1, 3, 1]),
];

/// Returns whether the places have exactly these ranks.
fn has_ranks(places: &[Place], wanted: &[u8]) -> bool {
    let mut left = wanted.iter();
    for place in places {
        if left.next() != Some(&place.rank) {
            return false;
        }
    }
    left.next().is_none()
}

#[test]
fn a_rebuilt_tree_has_the_ranks_of_its_length(rt: HostRuntime) {
    for (len, ranks) in RANKS {
        let mut tree = Keys::new(rt.alloc());
        assert!(rt; rebuild(rt.alloc(), &mut tree, *len));
        assert!(rt; has_ranks(&places(rt.alloc(), &tree), ranks));
    }
}

/// Transfers all entries with generation 9. Returns the outcome, and how often the closure was called.
fn transfer_all(tree: &mut Keys, source: &mut Keys) -> (Result<(), ReallocationError>, u32) {
    let mut calls = 0u32;
    let outcome = tree.transfer_canonical_reallocating(
        9,
        source,
        |_from: P0, taken: InvalidationOption<u8>, _to: P0| {
            calls = calls.wrapping_add(1);
            taken.allow()
        },
    );
    (outcome, calls)
}

/// Transfers `len` entries into a tree that may hold `maximum`. Returns the outcome, the number of calls, what is left of the source, and
/// whether the tree is as the recursive function says.
fn taken(
    alloc: Global,
    len: u32,
    maximum: usize,
) -> (Result<(), ReallocationError>, u32, usize, bool) {
    let (mut source, mut tree) = (Keys::new(alloc), Keys::new(alloc));
    let is_filled = fill(&mut source, len) && fill(&mut tree, 1);
    let _ = tree.reallocate_min_capacity(0);
    let _ = tree.set_max_capacity(maximum);
    let (outcome, calls) = transfer_all(&mut tree, &mut source);
    let is_right = is_rebuilt(alloc, &tree, if outcome.is_ok() { len } else { 1 });
    (outcome, calls, source.len(), is_filled && is_right)
}

#[test]
fn a_transfer_succeeds_exactly_within_the_maximum(rt: HostRuntime) {
    for len in 1..40u32 {
        let found = taken(rt.alloc(), len, len as usize);
        assert!(&rt; found == (Ok(()), len, 0, true));
    }
    let refusal = Err(ReallocationError::BeyondMaxCapacity);
    assert!(&rt; taken(rt.alloc(), 4, 3) == (refusal, 0, 4, true));
}
