//! Walks along the list. The five keys are, in list order, 10, 30, 50, 60, 70, at the indexes 5, 2, 1, 4, 3.
use super::support::{Keys, at, five};
use arena_base::{BasePtr, P0};
use triple_ord::{Advancer, OrdPair, OrderedPtrAdvancer};

/// A step of a walk.
fn step(walk: &mut OrderedPtrAdvancer<P0>, a: &Keys) -> Option<P0> {
    walk.advance(a)
}

/// Inserts a key, and returns whether that succeeded.
fn is_put(a: &mut Keys, key: u64) -> bool {
    a.insert(OrdPair::new(key, ())).is_ok()
}

/// Removes an entry, and returns whether there was one.
fn is_removed(a: &mut Keys, p: P0) -> bool {
    a.remove(p).allow().is_some()
}

/// The slot at a walk's position gets another entry, and then an entry is inserted in between.
#[test]
fn a_walk_goes_on_with_another_entry(rt: HostRuntime) {
    let mut a = five(rt.alloc());
    let mut walk = a.advancer_ordered(at(1), false).expect(&rt, "50");
    assert!(rt; step(&mut walk, &a) == Some(at(1)));
    assert!(rt; is_removed(&mut a, at(4)) && is_put(&mut a, 55));
    assert!(rt; step(&mut walk, &a) == Some(P0::_from_raw(4, 3)));
    assert!(rt; is_put(&mut a, 65));
    assert!(rt; step(&mut walk, &a) == Some(at(3)));
    assert!(rt; step(&mut walk, &a).is_none());
}

/// The entry at the position of a backward walk is removed, and another one takes its slot.
#[test]
fn a_walk_ends_where_its_entry_is_gone(rt: HostRuntime) {
    let mut a = five(rt.alloc());
    let mut walk = a.advancer_ordered(at(1), true).expect(&rt, "50");
    assert!(rt; step(&mut walk, &a) == Some(at(1)));
    assert!(rt; is_removed(&mut a, at(2)) && step(&mut walk, &a).is_none());
    assert!(rt; is_put(&mut a, 35) && step(&mut walk, &a).is_none());
}
