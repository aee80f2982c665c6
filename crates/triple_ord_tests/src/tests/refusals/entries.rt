//! Entries of a full arena.
use super::support::looks_like;
use super::{Call, Numbers, text_if};
use linked_list_allocator::LocalHeap;
use std::alloc::Global;
use std::process::Abort;
use triple_ord::{OrdInsertKind, OrdInsertionError, OrdPair, P0, SimpleOrdArenaInsertEntry};

/// An entry of an arena on a heap.
type Entry<'a, 'h> = SimpleOrdArenaInsertEntry<'a, P0, OrdPair<u64, u64>, &'h LocalHeap>;

/// Requests an entry by a key.
fn entry_by<'a, 'h>(
    call: Call,
    a: &'a mut Numbers<'h>,
    key: &u64,
) -> Result<Entry<'a, 'h>, OrdInsertionError> {
    let kind = OrdInsertKind::Normal(key);
    match call {
        Call::Within => a.entry_insert_within_capacity(kind),
        Call::Reallocating => a.entry_insert_reallocating(kind),
        _ => a.entry_insert(kind),
    }
}

/// Inserts a key by an entry. Returns the error, if any.
fn put_by(call: Call, a: &mut Numbers, key: u64) -> Option<OrdInsertionError> {
    match entry_by(call, a, &key) {
        Ok(entry) => {
            let _ = entry.insert(OrdPair::new(key, 99));
            None
        }
        Err(refusal) => Some(refusal),
    }
}

/// The full arena after the item with the key 7 was replaced.
const REPLACED: &str =
    "(5, 5, None, 2) P0[1](2)=(0, 0):2 P0[4](2)=(1, 0):1 P0[2](2)=(7, 99):3 P0[5](2)=(8, 0):1 P0[3](2)=(14, 0):2";

/// The same after an entry made it grow.
const GROWN: &str =
    "(6, 10, None, 2) P0[1](2)=(0, 0):1 P0[4](2)=(1, 0):2 P0[6](2)=(5, 99):1 P0[2](2)=(7, 99):3 P0[5](2)=(8, 0):1 P0[3](2)=(14, 0):2";

/// The number of an error; 2 if this call can't return it. A call that may not grow requests no memory.
fn number_of(call: Call, refusal: Option<OrdInsertionError>) -> usize {
    let is_within = matches!(call, Call::Within);
    match refusal {
        None if !is_within => 0,
        Some(OrdInsertionError::NotWithinCapacity) if is_within => 0,
        Some(OrdInsertionError::AllocError) => 1,
        _ => 2,
    }
}

/// A full arena replaces an item, and then rejects a new entry or grows.
pub(super) fn put_entries(rt: &impl Abort, alloc: Global, call: Call, full: &mut Numbers) -> usize {
    assert!(rt; put_by(call, full, 7).is_none());
    let refusal = put_by(call, full, 5);
    looks_like(rt, alloc, full, text_if(refusal.is_some(), REPLACED, GROWN));
    number_of(call, refusal)
}
