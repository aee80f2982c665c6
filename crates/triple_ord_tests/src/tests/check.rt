//! The check of the order.
use super::support::{Keys, at, keys, write_key};
use triple_ord::SimpleOrdArena;

/// Whether an arena is right with each of these keys at index 2 as it should be. Equal keys count as in order.
fn is_checked(a: &mut Keys) -> bool {
    let mut are_right = true;
    for (key, is_right) in &[(2u64, true), (9, false), (3, true)] {
        write_key(a, at(2), *key);
        are_right = are_right && SimpleOrdArena::_check_invariants(a).is_ok() == *is_right;
    }
    are_right
}

#[test]
fn the_check_rejects_a_misplaced_key(rt: HostRuntime) {
    assert!(rt; is_checked(&mut keys(rt.alloc(), &[1, 2, 3])));
}
