//! The text of an arena.
use crate::support::beside_of;

#[test]
fn debug_shows_each_pointer_with_its_key_and_value(rt: HostRuntime) {
    let mut arena = beside_of(rt.alloc(), 3, 5).expect(&rt, "memory").arena;
    let first = arena.first().expect(&rt, "an entry");
    arena.compact();
    arena.shrink();
    assert!(rt; arena.capacity() == 3 && !arena.contains(first));
    let text = format!(in rt.alloc(); "{arena:?}").expect(&rt, "memory");
    assert!(rt;
        text.as_str() == "{P0[1](3): (1, 2), P0[2](3): (3, 1), P0[3](3): (5, 0)}",
        "{text}"
    );
}
