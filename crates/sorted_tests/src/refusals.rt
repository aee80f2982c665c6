//! Arenas on a heap of which little is left: what is refused changes nothing, and the same call succeeds once there is memory.
mod many;

use crate::support::{Entry, Numbers, are_alike, are_found, put};
use linked_list_allocator::LocalHeap;
use sorted_arena::{P0, ReallocationError, SortedError, UniqueInsertionError};
use std::alloc::Global;

/// Numbers on a heap.
type OnHeap<'h> = Numbers<&'h LocalHeap>;

/// A heap with room for all of a test.
fn new_heap(alloc: Global) -> Option<LocalHeap> {
    LocalHeap::new(alloc, 1 << 13).ok()
}

/// A block of a heap.
type Block<'h> = Vec<u8, &'h LocalHeap>;

/// A block that takes the room of a heap but for so many units of 16 bytes.
fn leave<'h>(heap: &'h LocalHeap, units: usize) -> Option<Block<'h>> {
    let room = heap.free().saturating_sub(units.saturating_mul(16));
    Vec::with_capacity(heap, room).ok()
}

/// The calls that may take memory, each with a key that no entry has.
#[derive(Clone, Copy)]
enum Call {
    Insert,
    Replace,
    InsertUnique,
    Extend,
    Reserve,
}

const CALLS: [Call; 5] = [
    Call::Insert,
    Call::Replace,
    Call::InsertUnique,
    Call::Extend,
    Call::Reserve,
];

/// What became of a call.
enum Outcome {
    Done(P0),
    Refused,
    Wrong,
}

/// `Refused` if the refusal is the right one.
fn refused(is_right: bool) -> Outcome {
    if is_right {
        Outcome::Refused
    } else {
        Outcome::Wrong
    }
}

fn insert(arena: &mut OnHeap, k: u64, v: usize) -> Outcome {
    match arena.insert(k, v) {
        Ok(p) => Outcome::Done(p),
        Err(refusal) => refused(refusal == ((k, v), ReallocationError::AllocError)),
    }
}

fn replace(arena: &mut OnHeap, k: u64, v: usize) -> Outcome {
    match arena.replace(k, v) {
        Ok((p, None)) => Outcome::Done(p),
        Ok(_) => Outcome::Wrong,
        Err(refusal) => refused(refusal == ((k, v), ReallocationError::AllocError)),
    }
}

fn insert_unique(arena: &mut OnHeap, k: u64, v: usize) -> Outcome {
    match arena.insert_unique(k, v) {
        Ok(p) => Outcome::Done(p),
        Err(refusal) => refused(refusal == ((k, v), UniqueInsertionError::AllocError)),
    }
}

/// One pair.
fn pair(alloc: Global, k: u64, v: usize) -> Option<Vec<(u64, usize)>> {
    let mut pairs = Vec::new(alloc);
    pairs.push((k, v)).ok()?;
    Some(pairs)
}

fn extend(alloc: Global, arena: &mut OnHeap, k: u64, v: usize) -> Outcome {
    let Some(pairs) = pair(alloc, k, v) else {
        return Outcome::Wrong;
    };
    match (arena.extend_sorted(pairs), arena.find(&k)) {
        (Ok(()), Some(p)) => Outcome::Done(p),
        (Err((rest, refusal)), None) => {
            refused(rest.as_slice() == [(k, v)].as_slice() && refusal == SortedError::AllocError)
        }
        _ => Outcome::Wrong,
    }
}

/// An insertion behind a reservation up to the next multiple of four, which alone may be refused.
fn reserve(arena: &mut OnHeap, k: u64, v: usize) -> Outcome {
    match arena.reserve(4 - v % 4) {
        Ok(()) => match arena.insert(k, v) {
            Ok(p) => Outcome::Done(p),
            Err(_) => Outcome::Wrong,
        },
        Err(refusal) => refused(refusal == ReallocationError::AllocError),
    }
}

/// Makes a call.
fn make(alloc: Global, arena: &mut OnHeap, call: Call, k: u64, v: usize) -> Outcome {
    match call {
        Call::Insert => insert(arena, k, v),
        Call::Replace => replace(arena, k, v),
        Call::InsertUnique => insert_unique(arena, k, v),
        Call::Extend => extend(alloc, arena, k, v),
        Call::Reserve => reserve(arena, k, v),
    }
}

/// The key of a turn: each once, and for an extension rising.
fn key_at(call: Call, turn: u64) -> u64 {
    match call {
        Call::Extend => turn,
        _ => turn.wrapping_mul(7) % 10,
    }
}

/// Makes a call; `None` if it goes wrong, else whether it was done. If it was refused the arena is as it was.
fn is_done(
    alloc: Global,
    arena: &mut OnHeap,
    entries: &mut Vec<Entry>,
    call: Call,
    turn: u64,
) -> Option<bool> {
    let (k, v) = (key_at(call, turn), entries.len());
    let room = arena.capacity();
    match make(alloc, arena, call, k, v) {
        Outcome::Done(p) => put(entries, Entry { p, k, v }).then_some(true),
        Outcome::Refused => {
            let is_kept = arena.capacity() == room && are_alike(arena, entries);
            (is_kept && are_found(arena, entries)).then_some(false)
        }
        Outcome::Wrong => None,
    }
}

/// Makes nine calls. The block is given back once one is refused, which is then made again. Answers how many were done before that, or
/// `None` if one goes wrong.
fn calls_done<'h>(
    alloc: Global,
    arena: &mut OnHeap<'h>,
    entries: &mut Vec<Entry>,
    call: Call,
    block: &mut Option<Block<'h>>,
) -> Option<usize> {
    let mut held = 9;
    for turn in 0u64..9 {
        if !is_done(alloc, arena, entries, call, turn)? {
            held = block.take().and(Some(entries.len()))?;
            if !is_done(alloc, arena, entries, call, turn)? {
                return None;
            }
        }
    }
    are_alike(arena, entries).then_some(held)
}

/// Does so with a new arena, where so much of a heap is left at first.
fn done_before(alloc: Global, heap: &LocalHeap, call: Call, units: usize) -> Option<usize> {
    let mut block = Some(leave(heap, units)?);
    let mut arena = OnHeap::new(heap);
    let mut entries = Vec::new(alloc);
    calls_done(alloc, &mut arena, &mut entries, call, &mut block)
}

/// How many calls were done before one was refused, for each room from nothing until none is refused; `None` if one goes wrong, or the
/// heap doesn't get all of its room back.
fn refusals(alloc: Global, call: Call) -> Option<[bool; 10]> {
    let heap = new_heap(alloc)?;
    let free = heap.free();
    let mut met = [false; 10];
    for units in 0usize..256 {
        let held = done_before(alloc, &heap, call, units)?;
        *met.get_mut(held)? = true;
        if heap.free() != free {
            return None;
        }
        if held == 9 {
            return Some(met);
        }
    }
    None
}

#[test]
fn a_refused_call_changes_nothing_and_succeeds_with_memory(rt: HostRuntime) {
    for call in &CALLS {
        let met = refusals(rt.alloc(), *call).expect(&rt, "the right answers");
        // each growth was refused in turn: from nothing, from 4, from 8
        assert_eq!(rt;
            met,
            [
                true, false, false, false, true, false, false, false, true, true
            ]
        );
    }
}
