//! Insertions.

ghost use Rattle.std.specs.Prelude.{◌≡◌, ◌≢◌, ◌↔◌, ◌⊎◌, [], ◌∷◌, Some, None, false, IsSomeAnd, is_some, true, if◌then◌else◌};
ghost use Rattle.std.specs.Ordering.{int_cmp, is_eq};
ghost use Rattle.sorted_arena.specs.Sorted.{count, first_where, key_of, with_entry, InsertsOrReplaces, IsAbsent, IsFree};
ghost use Rattle.arena_c.specs.Answer.{ChangesOrFails, InsertsOrFails};
ghost use Rattle.arena_c.specs.Shown.{most_entries, numbers_of};
ghost use Rattle.arena_c.specs.Status.{ok, full, no_memory, closed, equal_key};

use crate::entry::Pointer;
use crate::handle::Handle;
use crate::status::{CLOSED, EQUAL_KEY, FULL, NO_MEMORY, OK};
use sorted_arena::{ReallocationError, UniqueInsertionError};
use std::alloc::Global;

/// Inserts an entry after every entry with a key ≤ `key`, and writes its pointer. `OK`, `FULL`, `NO_MEMORY` or `CLOSED`; on all but
/// `OK` nothing changes. O(log n), plus O(n) when the arena grows (amortized O(1)).
#[unsafe(no_mangle)]
pub extern "C" fn topscedar_arena_insert(
    alloc: Global,
    arena: &mut Handle,
    key: i64,
    value: u64,
    pointer: &mut Pointer,
) -> u8
    ensures inserts { InsertsOrFails (ok ∷ full ∷ no_memory ∷ closed ∷ [])
        (λ a b. IsFree a (numbers_of pointer.new)
        × (b ≡ with_entry int_cmp most_entries a (numbers_of pointer.new) (key, value)))
        key value arena.old.slot.held arena.new.slot.held result pointer.old pointer.new }
    ensures full { (result ≡ full) ↔ IsSomeAnd arena.old.slot.held (λ a. count a ≡ most_entries) }
{
    let Some(mut content) = arena.take(alloc) else {
        return CLOSED;
    };
    let inserted = content.pairs.insert(key, value);
    arena.put(content);
    match inserted {
        Ok(p) => {
            *pointer = Pointer::of(p);
            OK
        }
        Err((_, ReallocationError::BeyondMaxCapacity)) => FULL,
        Err((_, ReallocationError::AllocError)) => NO_MEMORY,
    }
}

/// Inserts an entry, as `topscedar_arena_insert` does, unless one has an equal key: then `EQUAL_KEY`, and nothing changes.
#[unsafe(no_mangle)]
pub extern "C" fn topscedar_arena_insert_unique(
    alloc: Global,
    arena: &mut Handle,
    key: i64,
    value: u64,
    pointer: &mut Pointer,
) -> u8
    ensures inserts { InsertsOrFails (ok ∷ full ∷ no_memory ∷ closed ∷ equal_key ∷ [])
        (λ a b. IsAbsent int_cmp a key × IsFree a (numbers_of pointer.new)
        × (b ≡ with_entry int_cmp most_entries a (numbers_of pointer.new) (key, value)))
        key value arena.old.slot.held arena.new.slot.held result pointer.old pointer.new }
    ensures equal { (result ≡ equal_key) ↔ IsSomeAnd arena.old.slot.held (λ a.
        is_some (first_where (λ e. is_eq (int_cmp key (key_of e))) a.entries) ≡ true) }
    ensures full { result ≡ full → IsSomeAnd arena.old.slot.held (λ a. count a ≡ most_entries) }
{
    let Some(mut content) = arena.take(alloc) else {
        return CLOSED;
    };
    let inserted = content.pairs.insert_unique(key, value);
    arena.put(content);
    match inserted {
        Ok(p) => {
            *pointer = Pointer::of(p);
            OK
        }
        Err((_, UniqueInsertionError::EqualKey(_))) => EQUAL_KEY,
        Err((_, UniqueInsertionError::BeyondMaxCapacity)) => FULL,
        Err((_, UniqueInsertionError::AllocError)) => NO_MEMORY,
    }
}

/// Replaces the value of the first entry whose key equals `key`, or inserts an entry if there is none. Writes its pointer, whether it was
/// there, and its old value if it was. `OK`, `FULL`, `NO_MEMORY` or `CLOSED`; on all but `OK` nothing changes. O(log n), plus O(n) when the
/// arena grows (amortized O(1)).
#[unsafe(no_mangle)]
pub extern "C" fn topscedar_arena_replace(
    alloc: Global,
    arena: &mut Handle,
    key: i64,
    value: u64,
    pointer: &mut Pointer,
    was_there: &mut bool,
    before: &mut u64,
) -> u8
    ensures done { ChangesOrFails (ok ∷ full ∷ no_memory ∷ closed ∷ [])
        (λ a b. InsertsOrReplaces int_cmp most_entries a (numbers_of pointer.new) key value
        (if was_there.new then Some before.new else None) b)
        arena.old.slot.held arena.new.slot.held result }
    ensures full { result ≡ full → IsSomeAnd arena.old.slot.held (λ a. count a ≡ most_entries) }
    ensures memory { result ≡ no_memory → IsSomeAnd arena.old.slot.held (λ a. count a ≡ a.capacity) }
    ensures kept { result ≢ ok → (pointer.new ≡ pointer.old) × (was_there.new ≡ was_there.old) }
    ensures before { was_there.new ≡ false ⊎ result ≢ ok → before.new ≡ before.old }
{
    let Some(mut content) = arena.take(alloc) else {
        return CLOSED;
    };
    let replaced = content.pairs.replace(key, value);
    arena.put(content);
    match replaced {
        Ok(done) => {
            let (p, old) = done;
            *pointer = Pointer::of(p);
            *was_there = old.is_some();
            if let Some(value) = old {
                *before = value;
            }
            OK
        }
        Err((_, ReallocationError::BeyondMaxCapacity)) => FULL,
        Err((_, ReallocationError::AllocError)) => NO_MEMORY,
    }
}
