//! Entries by their pointers.

ghost use Rattle.std.specs.Prelude.{◌≡◌, ◌≢◌, [], ◌∷◌, Some, None, IsSomeAnd, is_some, true};
ghost use Rattle.std.specs.Option.{option_map};
ghost use Rattle.std.specs.Ordering.{int_cmp};
ghost use Rattle.sorted_arena.specs.Sorted.{get, with_key, with_value, without_entry};
ghost use Rattle.sorted_arena.specs.Unique.{first_other};
ghost use Rattle.arena_c.specs.Answer.{Changes, ChangesOrFails, Looks};
ghost use Rattle.arena_c.specs.Shown.{entry_at, greatest_generation, numbers_of};
ghost use Rattle.arena_c.specs.Status.{ok, not_found, closed, equal_key};

use crate::entry::{Entry, Pointer};
use crate::handle::Handle;
use crate::status::{CLOSED, EQUAL_KEY, NOT_FOUND, OK};
use sorted_arena::RekeyUniqueError;
use std::alloc::Global;

/// Finds the entry at `pointer`, in O(1). `OK`, `CLOSED`, or `NOT_FOUND` if the pointer is stale.
#[unsafe(no_mangle)]
pub extern "C" fn topscedar_arena_get(
    alloc: Global,
    arena: &mut Handle,
    pointer: Pointer,
    entry: &mut Entry,
) -> u8
    ensures { Looks (λ a. entry_at a (numbers_of pointer))
        arena.old.slot.held arena.new.slot.held result entry.old entry.new }
{
    let Some(content) = arena.take(alloc) else {
        return CLOSED;
    };
    let found = content.entry_at(pointer.p0());
    arena.answer(content, found, entry)
}

/// Replaces the value of the entry at `pointer`, and writes the old one, in O(1). `OK`, `CLOSED`, or `NOT_FOUND` if the pointer is
/// stale.
#[unsafe(no_mangle)]
pub extern "C" fn topscedar_arena_set_value(
    alloc: Global,
    arena: &mut Handle,
    pointer: Pointer,
    value: u64,
    before: &mut u64,
) -> u8
    ensures { Changes (λ a. option_map (λ pair. pair.1) (get a (numbers_of pointer)))
        (λ a b. b ≡ with_value a (numbers_of pointer) (get a (numbers_of pointer)) value)
        arena.old.slot.held arena.new.slot.held result before.old before.new }
{
    let Some(mut content) = arena.take(alloc) else {
        return CLOSED;
    };
    let found = content.pairs.set_value(pointer.p0(), value);
    arena.answer(content, found, before)
}

/// Gives the entry at `pointer` the key `key`, and writes the old one. Pointer and value stay; the entry goes behind all others whose
/// key is at most `key`. O(log n), and no memory. `OK`, `CLOSED`, or `NOT_FOUND` if the pointer is stale.
#[unsafe(no_mangle)]
pub extern "C" fn topscedar_arena_rekey(
    alloc: Global,
    arena: &mut Handle,
    pointer: Pointer,
    key: i64,
    before: &mut i64,
) -> u8
    ensures { Changes (λ a. option_map (λ pair. pair.0) (get a (numbers_of pointer)))
        (λ a b. b ≡ with_key int_cmp a (numbers_of pointer) key)
        arena.old.slot.held arena.new.slot.held result before.old before.new }
{
    let Some(mut content) = arena.take(alloc) else {
        return CLOSED;
    };
    let found = content.pairs.rekey(pointer.p0(), key).ok();
    arena.answer(content, found, before)
}

/// Removes the entry at `pointer`, and writes it, in O(log n). `OK`, `CLOSED`, or `NOT_FOUND` if the pointer is stale.
#[unsafe(no_mangle)]
pub extern "C" fn topscedar_arena_remove(
    alloc: Global,
    arena: &mut Handle,
    pointer: Pointer,
    entry: &mut Entry,
) -> u8
    ensures { Changes (λ a. entry_at a (numbers_of pointer))
        (λ a b. b ≡ without_entry greatest_generation a (numbers_of pointer))
        arena.old.slot.held arena.new.slot.held result entry.old entry.new }
{
    let Some(mut content) = arena.take(alloc) else {
        return CLOSED;
    };
    let found = content.entry_at(pointer.p0());
    let _ = content.pairs.remove(pointer.p0());
    arena.answer(content, found, entry)
}

/// Gives the entry at `pointer` the key `key`, as `topscedar_arena_rekey` does, unless another entry has an equal key: then `EQUAL_KEY`.
/// `OK`, `CLOSED`, or `NOT_FOUND` if the pointer is stale; on all but `OK` nothing changes.
#[unsafe(no_mangle)]
pub extern "C" fn topscedar_arena_rekey_unique(
    alloc: Global,
    arena: &mut Handle,
    pointer: Pointer,
    key: i64,
    before: &mut i64,
) -> u8
    ensures moved { ChangesOrFails (ok ∷ not_found ∷ closed ∷ equal_key ∷ [])
        (λ a b. (b ≡ with_key int_cmp a (numbers_of pointer) key)
        × (first_other int_cmp (numbers_of pointer) key a.entries ≡ None)
        × (option_map (λ pair. pair.0) (get a (numbers_of pointer)) ≡ Some before.new))
        arena.old.slot.held arena.new.slot.held result }
    ensures kept { result ≢ ok → before.new ≡ before.old }
    ensures stale { result ≡ not_found → IsSomeAnd arena.old.slot.held (λ a. get a (numbers_of pointer) ≡ None) }
    ensures equal { result ≡ equal_key → IsSomeAnd arena.old.slot.held (λ a.
        is_some (first_other int_cmp (numbers_of pointer) key a.entries) ≡ true) }
{
    let Some(mut content) = arena.take(alloc) else {
        return CLOSED;
    };
    let moved = content.pairs.rekey_unique(pointer.p0(), key);
    arena.put(content);
    match moved {
        Ok(old) => {
            *before = old;
            OK
        }
        Err((_, RekeyUniqueError::EqualKey(_))) => EQUAL_KEY,
        Err((_, RekeyUniqueError::Stale)) => NOT_FOUND,
    }
}
