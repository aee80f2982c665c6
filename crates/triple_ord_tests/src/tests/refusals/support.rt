//! Arenas on a nearly full heap, and what they look like.
use linked_list_allocator::LocalHeap;
use std::alloc::Global;
use std::fmt::{Debug, Write};
use std::process::Abort;
use triple_ord::{BasePtr, P0, SimpleOrdArena};

/// An arena on a heap.
pub(super) type OnHeap<'h, T> = SimpleOrdArena<P0, T, &'h LocalHeap>;

/// A heap with enough room for a whole test.
pub(super) fn new_heap(rt: &impl Abort, alloc: Global) -> LocalHeap {
    LocalHeap::new(alloc, 1 << 14).expect(rt, "a heap")
}

/// A block that takes all the room of a heap except `units` units of 16 bytes. The heap's room is in one piece.
pub(super) fn leave<'h>(
    rt: &impl Abort,
    heap: &'h LocalHeap,
    units: usize,
) -> Vec<u8, &'h LocalHeap> {
    let room = heap.free().saturating_sub(units.saturating_mul(16));
    Vec::with_capacity(heap, room).expect(rt, "room")
}

/// The rank of the node at an index.
fn rank_at<T>(a: &OnHeap<T>, index: u32) -> u8 {
    match a.get_inx_node(index) {
        Some((_, node)) => node.t.rank,
        None => 0,
    }
}

/// An arena's counts: length, capacity, maximum and generation.
type Counts = (usize, usize, Option<usize>, u64);

/// The counts of an arena.
fn counts<T>(a: &OnHeap<T>) -> Counts {
    (a.len(), a.capacity(), a.max_capacity(), a.generation())
}

/// These counts as text.
fn text_of(rt: &impl Abort, alloc: Global, counts: Counts) -> String {
    format!(in alloc; "{counts:?}").expect(rt, "memory")
}

/// Writes an entry with the rank of its node.
fn write_entry<T: Debug>(rt: &impl Abort, text: &mut String, p: P0, item: &T, rank: u8) {
    write!(text, " {p:?}={item:?}:{rank}").expect(rt, "memory");
}

/// Everything visible of an arena: its counts, and the entries in order, each with the rank of its node.
pub(super) fn look<T: Debug>(rt: &impl Abort, alloc: Global, a: &OnHeap<T>) -> String {
    let mut text = text_of(rt, alloc, counts(a));
    for (p, item) in a {
        write_entry(rt, &mut text, p, item, rank_at(a, p.inx()));
    }
    text
}

/// Whether two texts are equal.
fn is_same(now: &str, text: &str) -> bool {
    now == text
}

/// Asserts that the arena looks like this.
pub(super) fn looks_like<T: Debug>(rt: &impl Abort, alloc: Global, a: &OnHeap<T>, text: &str) {
    let now = look(rt, alloc, a);
    assert!(rt; is_same(now.as_str(), text));
}
