//! Calls on many entries.

ghost use Rattle.std.specs.Prelude.{◌≡◌, ◌≢◌, ◌↔◌, ◌+◌, ◌<◌, length, drop, reverse, [], ◌∷◌, IsSomeAnd, is_some, true};
ghost use Rattle.std.specs.List.{zip};
ghost use Rattle.std.specs.Option.{option_and_then};
ghost use Rattle.std.specs.Ordering.{int_cmp};
ghost use Rattle.sorted_arena.specs.Chain.{from_index};
ghost use Rattle.sorted_arena.specs.Sorted.{count, entries_until, generation_after, get};
ghost use Rattle.arena_c.specs.Answer.{ChangesOpen, ChangesOrFails, found_or, look_status};
ghost use Rattle.arena_c.specs.Batch.{fall_behind, paired_keys, AppendsPairs, ExtendsAtOnce, Fills};
ghost use Rattle.arena_c.specs.Shown.{greatest_generation, most_entries, numbers_of, pointer_to};
ghost use Rattle.arena_c.specs.Status.{ok, full, no_memory, closed, out_of_order};

use crate::entry::{Entry, Pointer};
use crate::handle::Handle;
use crate::life::reservation_status;
use crate::run::first_fall;
use crate::status::{CLOSED, NOT_FOUND, OK, OUT_OF_ORDER};
use std::alloc::Global;

/// Inserts pairs whose keys are in order behind all entries. There are as many pairs as the shorter array has items. Two comparisons of
/// keys and amortized O(1) for each.
///
/// `OUT_OF_ORDER` if a key is smaller than the one before it, or the first one than the last key of the arena: `at` is its index then.
/// Else `OK`, `FULL` or `NO_MEMORY`; or `CLOSED`. On all but `OK` nothing changes.
#[unsafe(no_mangle)]
pub extern "C" fn topscedar_arena_build(
    alloc: Global,
    arena: &mut Handle,
    keys: &[i64],
    values: &[u64],
    at: &mut usize,
) -> u8
    ensures builds { ChangesOrFails (ok ∷ full ∷ no_memory ∷ closed ∷ out_of_order ∷ [])
        (AppendsPairs keys.now values.now) arena.old.slot.held arena.new.slot.held result }
    ensures unsorted { (result ≡ out_of_order) ↔ IsSomeAnd arena.old.slot.held (λ a.
        is_some (fall_behind a (paired_keys keys.now values.now)) ≡ true) }
    ensures at { at.new ≡ found_or at.old (option_and_then
        (λ a. fall_behind a (paired_keys keys.now values.now)) arena.old.slot.held) }
    ensures full { result ≡ full → IsSomeAnd arena.old.slot.held
        (λ a. most_entries < count a + length (paired_keys keys.now values.now)) }
    ensures memory { result ≡ no_memory → IsSomeAnd arena.old.slot.held
        (λ a. a.capacity < count a + length (paired_keys keys.now values.now)) }
{
    let Some(mut content) = arena.take(alloc) else {
        return CLOSED;
    };
    let count = keys.len().min(values.len());
    if let Some(fall) = first_fall(content.last_key(), &keys[..count]) {
        *at = fall;
        arena.put(content);
        return OUT_OF_ORDER;
    }
    let extended = content.extend(&keys[..count], &values[..count]);
    arena.put(content);
    reservation_status(extended)
}

/// Inserts pairs whose keys are in order behind all entries, as `topscedar_arena_build` does, and writes the pointers of the new entries
/// into `pointers`, in order, as far as it has room. At least as many pairs as entries are appended at once. Two comparisons of keys and
/// amortized O(1) for each. The arena grows at most once. The call also takes memory for the pairs, and gives it back.
///
/// `OUT_OF_ORDER` if a key is smaller than the one before it, or the first one than the last key of the arena: `at` is its index then.
/// Else `OK`, `FULL` or `NO_MEMORY`; or `CLOSED`. On all but `OK` nothing changes.
#[unsafe(no_mangle)]
pub extern "C" fn topscedar_arena_extend_sorted(
    alloc: Global,
    arena: &mut Handle,
    keys: &[i64],
    values: &[u64],
    pointers: &mut [Pointer],
    at: &mut usize,
) -> u8
    ensures extends { ChangesOrFails (ok ∷ full ∷ no_memory ∷ closed ∷ out_of_order ∷ [])
        (λ a b. ExtendsAtOnce (zip keys.now values.now) a b pointers.old pointers.new)
        arena.old.slot.held arena.new.slot.held result }
    ensures unsorted { (result ≡ out_of_order) ↔ IsSomeAnd arena.old.slot.held (λ a.
        is_some (fall_behind a (paired_keys keys.now values.now)) ≡ true) }
    ensures at { at.new ≡ found_or at.old (option_and_then
        (λ a. fall_behind a (paired_keys keys.now values.now)) arena.old.slot.held) }
    ensures full { result ≡ full → IsSomeAnd arena.old.slot.held
        (λ a. most_entries < count a + length (paired_keys keys.now values.now)) }
    ensures memory { result ≡ no_memory → 0 < length (paired_keys keys.now values.now) }
    ensures kept { result ≢ ok → pointers.new ≡ pointers.old }
{
    let Some(mut content) = arena.take(alloc) else {
        return CLOSED;
    };
    let count = keys.len().min(values.len());
    if let Some(fall) = first_fall(content.last_key(), &keys[..count]) {
        *at = fall;
        arena.put(content);
        return OUT_OF_ORDER;
    }
    let extended = content.extend_sorted(alloc, &keys[..count], &values[..count], pointers);
    arena.put(content);
    reservation_status(extended)
}

/// Fills an array with entries, from the one at `pointer` on in order, and writes how many they are and the pointer of the one behind
/// them, whose index is 0 if there is none. O(1) for each. `OK`, `CLOSED`, or `NOT_FOUND` if the pointer is stale.
#[unsafe(no_mangle)]
pub extern "C" fn topscedar_arena_entries_from(
    alloc: Global,
    arena: &mut Handle,
    pointer: Pointer,
    entries: &mut [Entry],
    filled: &mut usize,
    rest: &mut Pointer,
) -> u8
    ensures status { result ≡ look_status (λ a. get a (numbers_of pointer)) arena.old.slot.held }
    ensures filled { result ≡ ok → IsSomeAnd arena.old.slot.held (λ a. Fills
        (from_index a.entries pointer.index) entries.old entries.new filled.new) }
    ensures rest { result ≡ ok → IsSomeAnd arena.old.slot.held (λ a. rest.new
        ≡ pointer_to (drop filled.new (from_index a.entries pointer.index))) }
    ensures kept { result ≢ ok → (entries.new ≡ entries.old)
        × (filled.new ≡ filled.old) × (rest.new ≡ rest.old) }
    ensures arena { arena.new.slot.held ≡ arena.old.slot.held }
{
    let Some(content) = arena.take(alloc) else {
        return CLOSED;
    };
    let first = pointer.p0();
    if !content.pairs.contains(first) {
        arena.put(content);
        return NOT_FOUND;
    }
    let (count, next) = content.fill(first, entries);
    arena.put(content);
    *filled = count;
    *rest = match next {
        Some(p) => Pointer::of(p),
        None => Pointer::NONE,
    };
    OK
}

/// Fills an array with entries, from the one at `pointer` on backwards, and writes how many they are and the pointer of the one before
/// them, whose index is 0 if there is none. O(1) for each. `OK`, `CLOSED`, or `NOT_FOUND` if the pointer is stale.
#[unsafe(no_mangle)]
pub extern "C" fn topscedar_arena_entries_back_from(
    alloc: Global,
    arena: &mut Handle,
    pointer: Pointer,
    entries: &mut [Entry],
    filled: &mut usize,
    rest: &mut Pointer,
) -> u8
    ensures status { result ≡ look_status (λ a. get a (numbers_of pointer)) arena.old.slot.held }
    ensures filled { result ≡ ok → IsSomeAnd arena.old.slot.held (λ a. Fills
        (from_index (reverse a.entries) pointer.index) entries.old entries.new filled.new) }
    ensures rest { result ≡ ok → IsSomeAnd arena.old.slot.held (λ a. rest.new
        ≡ pointer_to (drop filled.new (from_index (reverse a.entries) pointer.index))) }
    ensures kept { result ≢ ok → (entries.new ≡ entries.old)
        × (filled.new ≡ filled.old) × (rest.new ≡ rest.old) }
    ensures arena { arena.new.slot.held ≡ arena.old.slot.held }
{
    let Some(content) = arena.take(alloc) else {
        return CLOSED;
    };
    let first = pointer.p0();
    if !content.pairs.contains(first) {
        arena.put(content);
        return NOT_FOUND;
    }
    let (count, next) = content.fill_back(first, entries);
    arena.put(content);
    *filled = count;
    *rest = match next {
        Some(p) => Pointer::of(p),
        None => Pointer::NONE,
    };
    OK
}

/// Removes entries whose key is at most `key`, in order, and fills an array with them, at most as many as it has room for. Writes how
/// many they are. O(log n) for each. `OK` or `CLOSED`.
#[unsafe(no_mangle)]
pub extern "C" fn topscedar_arena_pop_until(
    alloc: Global,
    arena: &mut Handle,
    key: i64,
    entries: &mut [Entry],
    filled: &mut usize,
) -> u8
    ensures changes { ChangesOpen (λ a b. (b.entries ≡ drop filled.new a.entries)
        × (b.generation ≡ generation_after greatest_generation filled.new a.generation)
        × (b.capacity ≡ a.capacity)) arena.old.slot.held arena.new.slot.held result }
    ensures filled { result ≡ ok → IsSomeAnd arena.old.slot.held (λ a. Fills
        (entries_until int_cmp key a.entries) entries.old entries.new filled.new) }
    ensures kept { result ≢ ok → (entries.new ≡ entries.old) × (filled.new ≡ filled.old) }
{
    let Some(mut content) = arena.take(alloc) else {
        return CLOSED;
    };
    *filled = content.pop_until(key, entries);
    arena.put(content);
    OK
}
