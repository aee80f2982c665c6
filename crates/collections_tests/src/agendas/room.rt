//! Reservations, and the capacity of an agenda.
use super::Letters;
use crate::support::rest_of;
use agenda::{Agenda, ReallocationError};
use linked_list_allocator::LocalHeap;

/// Schedules `count` letters. Returns whether all fit.
fn all_fit(letters: &mut Letters<&LocalHeap>, count: usize) -> bool {
    for _ in 0..count {
        if letters.schedule(3, 'r').is_err() {
            return false;
        }
    }
    true
}

#[test]
fn scheduling_within_a_reservation_needs_no_memory(rt: HostRuntime) {
    let mut met = [false; 2];
    for units in 1..60usize {
        let heap = LocalHeap::new(rt.alloc(), units * 16).expect(&rt, "a heap");
        let mut letters: Letters<&LocalHeap> = Agenda::new(&heap);
        if letters.reserve(5).is_ok() {
            let rest = rest_of(rt.alloc(), &heap).expect(&rt, "memory");
            assert!(rt; all_fit(&mut letters, 5) && letters.capacity() == 5);
            letters.clear();
            assert!(rt; letters.is_empty() && all_fit(&mut letters, 5));
            drop(rest);
            met[0] = true;
        } else {
            assert!(rt; (letters.len(), letters.capacity()) == (0, 0));
            met[1] = true;
        }
    }
    assert!(rt; met == [true, true]);
}

#[test]
fn reserving_one_at_a_time_doubles_the_capacity(rt: HostRuntime) {
    let mut letters = Letters::new(rt.alloc());
    let mut growths = 0usize;
    for _ in 0..100usize {
        let before = letters.capacity();
        assert!(rt; letters.reserve(1).is_ok() && letters.schedule(1, 'a').is_ok());
        if letters.capacity() != before {
            growths = growths.wrapping_add(1);
        }
    }
    // 4, 8, 16, 32, 64, 128
    assert!(rt; growths == 6);
    assert!(rt; letters.reserve(usize::MAX) == Err(ReallocationError::BeyondMaxCapacity));
}
