//! Each change of a sorted arena beside the same change of the vector. Each function tells whether both answer alike.
use crate::support::{Beside, Entry, Numbers, insert, put};
use sorted_arena::{P0, RekeyUniqueError, UniqueInsertionError};
use std::alloc::Global;

/// The value that a change writes.
const WRITTEN: usize = 9;

/// The place of the first entry with this key.
fn place_of(entries: &[Entry], k: u64) -> Option<usize> {
    for place in 0..entries.len() {
        if entries[place].k == k {
            return Some(place);
        }
    }
    None
}

/// Takes the entry at a place out of the vector.
fn take(entries: &mut Vec<Entry>, place: Option<usize>) -> Option<Entry> {
    let place = place?;
    if place >= entries.len() {
        return None;
    }
    Some(entries.remove(place))
}

/// The key and the value of an entry.
fn item_of(entry: Option<Entry>) -> Option<(u64, usize)> {
    let entry = entry?;
    Some((entry.k, entry.v))
}

/// Whether a pointer names nothing.
fn names_nothing(arena: &Numbers, p: P0) -> bool {
    let around = (arena.prev(p), arena.next(p));
    !arena.contains(p) && arena.get(p) == None && arena.key(p) == None && around == (None, None)
}

/// Whether the changes by a pointer refuse it.
fn refuses(arena: &mut Numbers, p: P0) -> bool {
    let is_kept = arena.remove(p) == None && arena.set_value(p, WRITTEN) == None;
    is_kept
        && arena.rekey(p, 4) == Err(4)
        && arena.rekey_unique(p, 4) == Err((4, RekeyUniqueError::Stale))
}

/// Whether an arena gave the entry that was taken out of the vector, and its pointer names nothing now.
fn is_taken(arena: &mut Numbers, given: Option<(u64, usize)>, taken: Option<Entry>) -> bool {
    let Some(Entry { p, k, v }) = taken else {
        return given == None;
    };
    let is_gone = names_nothing(arena, p);
    let is_refused = refuses(arena, p);
    is_gone && is_refused && given == Some((k, v))
}

/// Writes a value at a place of the vector; whether the entry had this pointer and this value.
fn write(entries: &mut Vec<Entry>, place: usize, p: P0, before: Option<usize>) -> bool {
    let Some(entry) = entries.get_mut(place) else {
        return false;
    };
    let is_right = entry.p == p && Some(entry.v) == before;
    entry.v = WRITTEN;
    is_right
}

fn replace(beside: &mut Beside, k: u64) -> bool {
    let place = place_of(&beside.entries, k);
    match (beside.arena.replace(k, WRITTEN), place) {
        (Ok((p, before)), Some(place)) => write(&mut beside.entries, place, p, before),
        (Ok((p, None)), None) => put(&mut beside.entries, Entry { p, k, v: WRITTEN }),
        _ => false,
    }
}

fn insert_unique(beside: &mut Beside, k: u64) -> bool {
    let place = place_of(&beside.entries, k);
    match (beside.arena.insert_unique(k, WRITTEN), place) {
        (Ok(p), None) => put(&mut beside.entries, Entry { p, k, v: WRITTEN }),
        (Err(refused), Some(place)) => match beside.entries.get(place) {
            Some(Entry { p, .. }) => refused == ((k, WRITTEN), UniqueInsertionError::EqualKey(*p)),
            None => false,
        },
        _ => false,
    }
}

fn set_value(beside: &mut Beside, place: usize) -> bool {
    let Some(Entry { p, .. }) = beside.entries.get(place).copied() else {
        return false;
    };
    let before = beside.arena.set_value(p, WRITTEN);
    write(&mut beside.entries, place, p, before)
}

fn remove(beside: &mut Beside, place: usize) -> bool {
    let Some(entry) = take(&mut beside.entries, Some(place)) else {
        return false;
    };
    let given = beside.arena.remove(entry.p);
    is_taken(&mut beside.arena, given, Some(entry))
}

fn remove_key(beside: &mut Beside, k: u64) -> bool {
    let place = place_of(&beside.entries, k);
    let taken = take(&mut beside.entries, place);
    let given = beside.arena.remove_key(&k);
    is_taken(&mut beside.arena, given, taken)
}

fn pop_first(beside: &mut Beside) -> bool {
    let taken = take(&mut beside.entries, Some(0));
    let given = beside.arena.pop_first();
    is_taken(&mut beside.arena, given, taken)
}

fn pop_last(beside: &mut Beside) -> bool {
    let last = beside.entries.len().checked_sub(1);
    let taken = take(&mut beside.entries, last);
    let given = beside.arena.pop_last();
    is_taken(&mut beside.arena, given, taken)
}

/// The place of the first entry, if its key is at most this one.
fn first_until(entries: &[Entry], until: u64) -> Option<usize> {
    let first = entries.first()?;
    if first.k <= until { Some(0) } else { None }
}

fn pop_first_until(beside: &mut Beside, until: u64) -> bool {
    let place = first_until(&beside.entries, until);
    let taken = take(&mut beside.entries, place);
    let given = beside.arena.pop_first_until(&until);
    is_taken(&mut beside.arena, given, taken)
}

fn pop_first_if(beside: &mut Beside, until: u64) -> bool {
    let place = first_until(&beside.entries, until);
    let taken = take(&mut beside.entries, place);
    let given = beside.arena.pop_first_if(|k, _| *k <= until);
    is_taken(&mut beside.arena, given, taken)
}

/// Takes all entries whose key is at most this one out of the vector; answers whether these are their keys and values, in order.
fn are_first(entries: &mut Vec<Entry>, until: u64, popped: &[(u64, usize)]) -> bool {
    for item in popped {
        let place = first_until(entries, until);
        if item_of(take(entries, place)) != Some(*item) {
            return false;
        }
    }
    first_until(entries, until) == None
}

fn pop_until(beside: &mut Beside, until: u64, alloc: Global) -> bool {
    let mut popped = Vec::new(alloc);
    let is_done = beside.arena.pop_until(&until, &mut popped).is_ok();
    is_done && are_first(&mut beside.entries, until, popped.as_slice())
}

fn remove_until(beside: &mut Beside, until: u64) -> bool {
    let count = beside.arena.remove_until(&until);
    for _ in 0..count {
        let place = first_until(&beside.entries, until);
        if take(&mut beside.entries, place) == None {
            return false;
        }
    }
    first_until(&beside.entries, until) == None
}

/// The entry at a place of the vector gets another key, and stands behind all others whose key is at most that.
fn move_to(entries: &mut Vec<Entry>, place: usize, k: u64) -> bool {
    match take(entries, Some(place)) {
        Some(entry) => put(entries, Entry { k, ..entry }),
        None => false,
    }
}

fn rekey(beside: &mut Beside, place: usize, k: u64) -> bool {
    let Some(entry) = beside.entries.get(place).copied() else {
        return false;
    };
    let before = beside.arena.rekey(entry.p, k);
    before == Ok(entry.k) && move_to(&mut beside.entries, place, k)
}

/// The pointer of the first entry with this key, but for the entry at a place.
fn other_with(entries: &[Entry], place: usize, k: u64) -> Option<P0> {
    for other in 0..entries.len() {
        if other != place && entries[other].k == k {
            return Some(entries[other].p);
        }
    }
    None
}

fn rekey_unique(beside: &mut Beside, place: usize, k: u64) -> bool {
    let Some(entry) = beside.entries.get(place).copied() else {
        return false;
    };
    let other = other_with(&beside.entries, place, k);
    match (beside.arena.rekey_unique(entry.p, k), other) {
        (Ok(before), None) => before == entry.k && move_to(&mut beside.entries, place, k),
        (Err(refused), Some(q)) => refused == (k, RekeyUniqueError::EqualKey(q)),
        _ => false,
    }
}

fn clear(beside: &mut Beside) -> bool {
    beside.arena.clear();
    beside.entries.clear();
    beside.arena.is_empty()
}

/// The changes.
#[derive(Clone, Copy, PartialEq, Eq, Debug)]
pub(super) enum Change {
    Insert,
    Replace,
    InsertUnique,
    RemoveKey,
    PopFirst,
    PopLast,
    PopFirstUntil,
    PopFirstIf,
    PopUntil,
    RemoveUntil,
    Clear,
    SetValue,
    Remove,
    Rekey,
    RekeyUnique,
}

/// Makes a change that takes no entry.
fn is_made_by_key(beside: &mut Beside, change: Change, k: u64, alloc: Global) -> bool {
    match change {
        Change::Insert => insert(beside, k),
        Change::Replace => replace(beside, k),
        Change::InsertUnique => insert_unique(beside, k),
        Change::RemoveKey => remove_key(beside, k),
        Change::PopFirst => pop_first(beside),
        Change::PopLast => pop_last(beside),
        Change::PopFirstUntil => pop_first_until(beside, k),
        Change::PopFirstIf => pop_first_if(beside, k),
        Change::PopUntil => pop_until(beside, k, alloc),
        Change::RemoveUntil => remove_until(beside, k),
        Change::Clear => clear(beside),
        _ => false,
    }
}

/// Makes a change, of the entry at this place of the vector and with this key if it takes them; whether arena and vector answer alike.
pub(super) fn is_made(beside: &mut Beside, step: (Change, usize, u64), alloc: Global) -> bool {
    let (change, place, k) = step;
    match change {
        Change::SetValue => set_value(beside, place),
        Change::Remove => remove(beside, place),
        Change::Rekey => rekey(beside, place, k),
        Change::RekeyUnique => rekey_unique(beside, place, k),
        _ => is_made_by_key(beside, change, k, alloc),
    }
}
