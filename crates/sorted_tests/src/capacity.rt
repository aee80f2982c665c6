//! The capacity of an arena.
use crate::support::Numbers;

#[test]
fn reserving_one_at_a_time_doubles_the_capacity(rt: HostRuntime) {
    let mut arena = Numbers::new(rt.alloc());
    let mut growths = 0u32;
    for k in 0u64..100 {
        let before = arena.capacity();
        assert!(rt; arena.reserve(1).is_ok());
        if arena.capacity() != before {
            growths = growths.saturating_add(1);
        }
        assert!(rt; arena.insert(k, 0).is_ok());
    }
    // 4, 8, 16, 32, 64 and 128
    assert_eq!(rt; (growths, arena.capacity()), (6, 128));
    assert!(rt; arena.reserve(1000).is_ok());
    assert_eq!(rt; arena.capacity(), 1100);
}
