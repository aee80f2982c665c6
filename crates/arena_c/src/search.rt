//! Entries by their keys and by their places in the order. Each call writes the entry that it found, with its pointer.

ghost use Rattle.std.specs.Prelude.{◌≡◌, Some, count_by, slice_get};
ghost use Rattle.std.specs.Option.{option_map};
ghost use Rattle.std.specs.Ordering.{int_cmp, is_eq, is_gt, is_le, is_lt};
ghost use Rattle.sorted_arena.specs.Chain.{first_pointer, last_pointer};
ghost use Rattle.sorted_arena.specs.Sorted.{first_where, key_of, next_of, pointer_of, prev_of};
ghost use Rattle.arena_c.specs.Answer.{Looks};
ghost use Rattle.arena_c.specs.Shown.{entry_found, numbers_of};

use crate::entry::{Entry, Pointer};
use crate::handle::Handle;
use crate::status::CLOSED;
use std::alloc::Global;

/// Finds the first entry whose key equals `key`, in O(log n). `OK`, `NOT_FOUND` or `CLOSED`.
#[unsafe(no_mangle)]
pub extern "C" fn topscedar_arena_find(
    alloc: Global,
    arena: &mut Handle,
    key: i64,
    entry: &mut Entry,
) -> u8
    ensures { Looks (λ a. entry_found a
        (first_where (λ e. is_eq (int_cmp key (key_of e))) a.entries))
        arena.old.slot.held arena.new.slot.held result entry.old entry.new }
{
    let Some(content) = arena.take(alloc) else {
        return CLOSED;
    };
    let found = content.entry_found(content.pairs.find(&key));
    arena.answer(content, found, entry)
}

/// Finds the first entry whose key is at least `key`, in O(log n). `OK`, `NOT_FOUND` or `CLOSED`.
#[unsafe(no_mangle)]
pub extern "C" fn topscedar_arena_lower_bound(
    alloc: Global,
    arena: &mut Handle,
    key: i64,
    entry: &mut Entry,
) -> u8
    ensures { Looks (λ a. entry_found a
        (first_where (λ e. is_le (int_cmp key (key_of e))) a.entries))
        arena.old.slot.held arena.new.slot.held result entry.old entry.new }
{
    let Some(content) = arena.take(alloc) else {
        return CLOSED;
    };
    let found = content.entry_found(content.pairs.lower_bound(&key));
    arena.answer(content, found, entry)
}

/// Finds the first entry whose key is greater than `key`, in O(log n). `OK`, `NOT_FOUND` or `CLOSED`.
#[unsafe(no_mangle)]
pub extern "C" fn topscedar_arena_upper_bound(
    alloc: Global,
    arena: &mut Handle,
    key: i64,
    entry: &mut Entry,
) -> u8
    ensures { Looks (λ a. entry_found a
        (first_where (λ e. is_lt (int_cmp key (key_of e))) a.entries))
        arena.old.slot.held arena.new.slot.held result entry.old entry.new }
{
    let Some(content) = arena.take(alloc) else {
        return CLOSED;
    };
    let found = content.entry_found(content.pairs.upper_bound(&key));
    arena.answer(content, found, entry)
}

/// Finds the first entry, which has the smallest key, in O(1). `OK`, `NOT_FOUND` or `CLOSED`.
#[unsafe(no_mangle)]
pub extern "C" fn topscedar_arena_first(alloc: Global, arena: &mut Handle, entry: &mut Entry) -> u8
    ensures { Looks (λ a. entry_found a (first_pointer a.entries))
        arena.old.slot.held arena.new.slot.held result entry.old entry.new }
{
    let Some(content) = arena.take(alloc) else {
        return CLOSED;
    };
    let found = content.entry_found(content.pairs.first());
    arena.answer(content, found, entry)
}

/// Finds the last entry, which has the greatest key, in O(1). `OK`, `NOT_FOUND` or `CLOSED`.
#[unsafe(no_mangle)]
pub extern "C" fn topscedar_arena_last(alloc: Global, arena: &mut Handle, entry: &mut Entry) -> u8
    ensures { Looks (λ a. entry_found a (last_pointer a.entries))
        arena.old.slot.held arena.new.slot.held result entry.old entry.new }
{
    let Some(content) = arena.take(alloc) else {
        return CLOSED;
    };
    let found = content.entry_found(content.pairs.last());
    arena.answer(content, found, entry)
}

/// Finds the successor of the entry at `pointer`, in O(1). `OK`, `CLOSED`, or `NOT_FOUND` if it is the last one or the pointer is stale.
#[unsafe(no_mangle)]
pub extern "C" fn topscedar_arena_next(
    alloc: Global,
    arena: &mut Handle,
    pointer: Pointer,
    entry: &mut Entry,
) -> u8
    ensures { Looks (λ a. entry_found a (next_of a.entries (numbers_of pointer)))
        arena.old.slot.held arena.new.slot.held result entry.old entry.new }
{
    let Some(content) = arena.take(alloc) else {
        return CLOSED;
    };
    let found = content.entry_found(content.pairs.next(pointer.p0()));
    arena.answer(content, found, entry)
}

/// Finds the predecessor of the entry at `pointer`, in O(1). `OK`, `CLOSED`, or `NOT_FOUND` if it is the first one or the pointer is
/// stale.
#[unsafe(no_mangle)]
pub extern "C" fn topscedar_arena_previous(
    alloc: Global,
    arena: &mut Handle,
    pointer: Pointer,
    entry: &mut Entry,
) -> u8
    ensures { Looks (λ a. entry_found a (prev_of a.entries (numbers_of pointer)))
        arena.old.slot.held arena.new.slot.held result entry.old entry.new }
{
    let Some(content) = arena.take(alloc) else {
        return CLOSED;
    };
    let found = content.entry_found(content.pairs.prev(pointer.p0()));
    arena.answer(content, found, entry)
}

/// Writes how many entries have the key `key`, in O(log n), plus O(1) for each of them. `OK` or `CLOSED`.
#[unsafe(no_mangle)]
pub extern "C" fn topscedar_arena_count(
    alloc: Global,
    arena: &mut Handle,
    key: i64,
    count: &mut usize,
) -> u8
    ensures { Looks (λ a. Some (count_by (λ e. is_eq (int_cmp key (key_of e))) a.entries))
        arena.old.slot.held arena.new.slot.held result count.old count.new }
{
    let Some(content) = arena.take(alloc) else {
        return CLOSED;
    };
    let found = content.pairs.count_of(&key);
    arena.answer(content, Some(found), count)
}

/// Writes how many entries have a key smaller than `key`, in O(log n), plus O(1) for each of them. `OK` or `CLOSED`.
#[unsafe(no_mangle)]
pub extern "C" fn topscedar_arena_rank(
    alloc: Global,
    arena: &mut Handle,
    key: i64,
    rank: &mut usize,
) -> u8
    ensures { Looks (λ a. Some (count_by (λ e. is_gt (int_cmp key (key_of e))) a.entries))
        arena.old.slot.held arena.new.slot.held result rank.old rank.new }
{
    let Some(content) = arena.take(alloc) else {
        return CLOSED;
    };
    let found = content.pairs.rank(&key);
    arena.answer(content, Some(found), rank)
}

/// Finds the entry that has `index` entries before it, in O(`index`). `OK`, `CLOSED`, or `NOT_FOUND` if there are no more than `index` entries.
#[unsafe(no_mangle)]
pub extern "C" fn topscedar_arena_nth(
    alloc: Global,
    arena: &mut Handle,
    index: usize,
    entry: &mut Entry,
) -> u8
    ensures { Looks (λ a. entry_found a (option_map pointer_of (slice_get a.entries index)))
        arena.old.slot.held arena.new.slot.held result entry.old entry.new }
{
    let Some(content) = arena.take(alloc) else {
        return CLOSED;
    };
    let found = content.entry_found(content.pairs.nth(index));
    arena.answer(content, found, entry)
}
