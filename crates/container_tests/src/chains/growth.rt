//! Growths that are refused memory.
use super::support::{Entry, Letters, Place, insert, is_listed};
use arena_base::{BasePtr, InsertionError};
use linked_list_allocator::LocalHeap;

/// Ten entries, each inserted after the last.
const TEN: [Entry; 10] = [
    (1, 2, 'a'),
    (2, 2, 'b'),
    (3, 2, 'c'),
    (4, 2, 'd'),
    (5, 2, 'e'),
    (6, 2, 'f'),
    (7, 2, 'g'),
    (8, 2, 'h'),
    (9, 2, 'i'),
    (10, 2, 'j'),
];

/// Inserts the ten letters, each after the last, until memory is refused. Returns the outcome; `None` if a place is missing.
fn fill(chain: &mut Letters<&LocalHeap>) -> Option<Result<(), InsertionError>> {
    let mut place = Place::Alone;
    for (_, _, letter) in &TEN {
        match insert(chain, place, *letter)? {
            Ok(p) => place = Place::After(p.inx()),
            Err(refusal) => return Some(Err(refusal)),
        }
    }
    Some(Ok(()))
}

/// Returns whether the first of the ten entries are there: all of them, or as many as fit if memory was refused.
fn has_first(chain: &Letters<&LocalHeap>, outcome: Option<Result<(), InsertionError>>) -> bool {
    let len = chain.len();
    if len > 10 || !is_listed(chain, &TEN[..len]) {
        return false;
    }
    match outcome {
        Some(Ok(())) => len == 10,
        Some(Err(refusal)) => refusal == InsertionError::AllocError && chain.capacity() == len,
        None => false,
    }
}

/// Fills a chain on a heap. Returns how many entries are there; `None` if they aren't the first ones.
fn filled(heap: &LocalHeap) -> Option<usize> {
    let mut chain = Letters::new(heap);
    let outcome = fill(&mut chain);
    has_first(&chain, outcome).then_some(chain.len())
}

#[test]
fn a_refused_growth_keeps_every_entry(rt: HostRuntime) {
    let mut is_met = [false; 11];
    for units in 1..80usize {
        let heap = LocalHeap::new(rt.alloc(), 16 * units).expect(&rt, "a heap");
        let len = filled(&heap).expect(&rt, "the first entries");
        is_met[len % 11] = true;
    }
    // each growth was refused in turn: from 0, from 4, from 8
    assert!(rt; (is_met[0], is_met[4], is_met[8], is_met[10]) == (true, true, true, true));
}
