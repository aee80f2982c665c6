//! The capacity.
use super::support::{Keys, SmallKeys, at, grows_to, is_replaced, keys};
use arena_base::{MaxCapacityReductionError, ReallocationError};
use triple_ord::OrdInsertionError;

/// Reallocates for n entries. Returns the outcome and the new capacity.
fn reallocated(a: &mut Keys, n: usize) -> (Result<(), ReallocationError>, usize) {
    let outcome = a.reallocate_min_capacity(n);
    (outcome, a.capacity())
}

#[test]
fn the_capacity_stays_between_the_last_entry_and_the_maximum(rt: HostRuntime) {
    let mut a = keys(rt.alloc(), &[50, 30, 70]);
    let _ = a.remove(at(2));
    for (n, capacity) in &[(9usize, 9usize), (0, 3)] {
        assert!(rt; reallocated(&mut a, *n) == (Ok(()), *capacity));
    }
    assert!(rt; a.set_max_capacity(2) == Err(MaxCapacityReductionError));
    assert!(rt; a.set_max_capacity(5) == Ok(()));
    assert!(rt; reallocated(&mut a, 6) == (Err(ReallocationError::BeyondMaxCapacity), 3));
}

#[test]
fn the_capacity_doubles_up_to_the_limit_of_the_pointers(rt: HostRuntime) {
    let mut a = SmallKeys::new(rt.alloc());
    for capacity in &[4usize, 8, 16, 32, 64, 128, 254] {
        assert!(rt; grows_to(&mut a, *capacity));
    }
    let refused = is_replaced(&mut a, 999);
    assert!(rt; (refused, a.len()) == (Err(OrdInsertionError::BeyondMaxCapacity), 254));
    assert!(rt; is_replaced(&mut a, 9) == Ok(true));
}
