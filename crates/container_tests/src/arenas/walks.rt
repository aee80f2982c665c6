//! Walks by index.
use super::support::{p0, three};
use arena_base::{Advancer, Arena, P0};

/// Changes the arena before a step of both walks: two entries leave before the third step, and one comes before the last.
fn come_and_go(arena: &mut Arena<P0, u32>, step: usize) {
    match step {
        2 => {
            let _ = arena.remove_inx(1);
            let _ = arena.remove_inx(3);
        }
        3 => {
            let _ = arena.insert_reallocating(3);
        }
        _ => {}
    }
}

#[test]
fn a_walk_goes_on_with_later_entries(rt: HostRuntime) {
    let mut arena = three(rt.alloc());
    let mut up = arena.advancer();
    let mut down = arena.advancer_inx(3, true);
    let wanted = [
        (Some(p0(1, 2)), Some(p0(3, 2))),
        (Some(p0(2, 2)), Some(p0(2, 2))),
        (None, None),
        (Some(p0(3, 4)), None),
    ];
    for (step, pair) in wanted.iter().enumerate() {
        come_and_go(&mut arena, step);
        assert!(rt; (up.advance(&arena), down.advance(&arena)) == *pair);
    }
}
