//! Removals up to the overflow of generations.
use arena_base::{Arena, BasePtr, InvalidationResult, P8};

/// Inserts the item 7 and removes it. Returns the numbers of its pointer, and the result of the removal.
fn put_and_take(arena: &mut Arena<P8, u64>) -> Option<((u8, u8), InvalidationResult<u64>)> {
    let p = arena.insert_reallocating(7).ok()?;
    Some(((p.inx(), p.generation()), arena.remove(p)))
}

#[test]
fn an_overflowing_generation_starts_again_at_two(rt: HostRuntime) {
    let mut arena: Arena<P8, u64> = Arena::new(rt.alloc());
    for generation in 2..=255u8 {
        let wanted = if generation == 255 {
            InvalidationResult::GenerationOverflow(7)
        } else {
            InvalidationResult::Success(7)
        };
        assert!(rt; put_and_take(&mut arena) == Some(((1, generation), wanted)));
    }
    assert!(rt; arena.generation() == 2);
}
