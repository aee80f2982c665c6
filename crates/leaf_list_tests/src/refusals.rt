//! Lists on a heap of which little is left.
use crate::support::{Keys, agrees, can_enter, enter};
use linked_list_allocator::LocalHeap;

#[test]
fn a_refused_reservation_changes_nothing(rt: HostRuntime) {
    let mut is_met = (false, false);
    for units in 1..600usize {
        let heap = LocalHeap::new(rt.alloc(), units * 16).expect(&rt, "a heap");
        let mut list: Keys<&LocalHeap> = Keys::new(&heap);
        match list.reserve(20) {
            Ok(()) => {
                is_met.0 = true;
                assert!(rt; list.room() == 32);
                assert!(rt; enter(&mut list, 5, 1) && enter(&mut list, 4, 2));
                assert!(rt; agrees(&list, &[(4, 2), (5, 1)]));
            }
            Err(_) => {
                is_met.1 = true;
                assert!(rt; list.room() == 0 && !can_enter(&list, 1));
                assert!(rt; agrees(&list, &[]));
            }
        }
    }
    assert!(rt; is_met == (true, true));
}
