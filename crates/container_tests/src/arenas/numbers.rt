//! Indexes and generations of each type.
use arena_base::{BasePtrGen, BasePtrInx};

/// Returns whether 0 and the number after the limit are no indexes, whether the limit is one, whether 2 is a generation, and whether its
/// increment overflows.
fn bounds<I: BasePtrInx, G: BasePtrGen>() -> (bool, bool, bool, bool) {
    let none = I::try_from_usize(0).is_none() && I::try_from_usize(I::limit() + 1).is_none();
    let last = I::try_from_usize(I::limit()).and_then(|i: I| i.try_into_usize());
    let two = G::two();
    (
        none,
        last == Some(I::limit()),
        two.is_lawful(),
        two.generational_inc().1,
    )
}

#[test]
fn no_index_is_zero_or_beyond_the_limit(rt: HostRuntime) {
    let lawful = (true, true, true, false);
    assert!(rt; bounds::<u8, u8>() == lawful && bounds::<u16, u16>() == lawful);
    assert!(rt; bounds::<u32, u32>() == lawful && bounds::<u64, u64>() == lawful);
    assert!(rt; bounds::<usize, ()>() == lawful);
}
