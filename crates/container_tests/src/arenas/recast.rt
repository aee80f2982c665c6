//! An arena of pointers as a recaster.
use super::support::p0;
use arena_base::{Arena, P0, Recast, laws};
use std::alloc::Global;

/// Returns the pointers 3.4, 1.4, 4.4 and 2.4.
fn pointers(alloc: Global) -> Arena<P0, P0> {
    let mut pointers = Arena::new(alloc);
    for index in &[3u32, 1, 4, 2] {
        let _ = pointers.insert_reallocating(p0(*index, 4));
    }
    pointers
}

/// Returns a copy of them, found by the pointers from 1.2 to 4.2.
fn recaster(alloc: Global) -> Arena<P0, P0> {
    let mut recaster = Arena::new(alloc);
    let _ = laws::copy(&pointers(alloc), &mut recaster);
    recaster
}

/// Returns whether a pointer is recast into the second one, or is left and returned as the error.
fn is_recast(recaster: &Arena<P0, P0>, p: P0, wanted: P0) -> bool {
    let mut recast_p = p;
    let outcome = recast_p.recast(recaster);
    let wanted_outcome = if p == wanted { Err(p) } else { Ok(()) };
    (recast_p, outcome) == (wanted, wanted_outcome)
}

#[test]
fn an_arena_of_pointers_recasts(rt: HostRuntime) {
    let recaster = recaster(rt.alloc());
    assert!(rt; is_recast(&recaster, p0(2, 2), p0(1, 4)));
    assert!(rt; is_recast(&recaster, p0(2, 4), p0(2, 4)));
    assert!(rt; is_recast(&recaster, p0(9, 2), p0(9, 2)));
}
