//! Drains.
use super::support::{p0, three};
use arena_base::{Arena, InvalidationOption, P0};
use std::mem;

/// How a drain ends.
enum End {
    Dropped,
    Forgotten,
    KeepsRest,
}

/// Takes one entry by a drain, and ends the drain. Returns what is left.
fn left_by_drain(mut arena: Arena<P0, u32>, end: &End) -> Option<(usize, bool)> {
    let mut drain = arena.drain();
    let first = drain.next()?;
    match end {
        End::Dropped => drop(drain),
        End::Forgotten => mem::forget(drain),
        End::KeepsRest => drain.keep_rest(),
    }
    let is_right = first == InvalidationOption::Success((p0(1, 2), 1));
    Some((arena.len(), is_right))
}

#[test]
fn only_a_dropped_drain_takes_the_rest(rt: HostRuntime) {
    for (end, left) in &[
        (End::Dropped, 0usize),
        (End::Forgotten, 2),
        (End::KeepsRest, 2),
    ] {
        let found = left_by_drain(three(rt.alloc()), end);
        assert!(rt; found == Some((*left, true)));
    }
}
