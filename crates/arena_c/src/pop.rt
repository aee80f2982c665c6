//! Removals from both ends of the order, and by key.

ghost use Rattle.std.specs.Prelude.{◌≡◌, ◌≢◌, drop, if◌then◌else◌, is_some, length, IsSomeAnd};
ghost use Rattle.std.specs.Ordering.{int_cmp, is_eq};
ghost use Rattle.std.specs.declared.ops.Bound.TheVariants.{Included};
ghost use Rattle.sorted_arena.specs.Chain.{first_pointer, last_pointer};
ghost use Rattle.sorted_arena.specs.Range.{entries_between, is_outside};
ghost use Rattle.sorted_arena.specs.Sorted.{first_where, key_of, with_passing, without_first, without_last, without_where};
ghost use Rattle.arena_c.specs.Answer.{Becomes, Changes, ChangesOpen};
ghost use Rattle.arena_c.specs.Batch.{Fills};
ghost use Rattle.arena_c.specs.Shown.{entry_found, greatest_generation};
ghost use Rattle.arena_c.specs.Status.{ok, closed};

use crate::content::Content;
use crate::entry::Entry;
use crate::handle::Handle;
use crate::status::{CLOSED, OK};
use std::alloc::Global;
use std::ops::Bound;

/// Removes the first entry, which has the smallest key, and writes it, in O(log n). `OK`, `NOT_FOUND` or `CLOSED`.
#[unsafe(no_mangle)]
pub extern "C" fn topscedar_arena_pop_first(
    alloc: Global,
    arena: &mut Handle,
    entry: &mut Entry,
) -> u8
    ensures { Changes (λ a. entry_found a (first_pointer a.entries))
        (λ a b. b ≡ without_first greatest_generation a)
        arena.old.slot.held arena.new.slot.held result entry.old entry.new }
{
    let Some(mut content) = arena.take(alloc) else {
        return CLOSED;
    };
    let found = content.entry_found(content.pairs.first());
    let _ = content.pairs.pop_first();
    arena.answer(content, found, entry)
}

/// Removes the last entry, which has the greatest key, and writes it, in O(log n). `OK`, `NOT_FOUND` or `CLOSED`.
#[unsafe(no_mangle)]
pub extern "C" fn topscedar_arena_pop_last(
    alloc: Global,
    arena: &mut Handle,
    entry: &mut Entry,
) -> u8
    ensures { Changes (λ a. entry_found a (last_pointer a.entries))
        (λ a b. b ≡ without_last greatest_generation a)
        arena.old.slot.held arena.new.slot.held result entry.old entry.new }
{
    let Some(mut content) = arena.take(alloc) else {
        return CLOSED;
    };
    let found = content.entry_found(content.pairs.last());
    let _ = content.pairs.pop_last();
    arena.answer(content, found, entry)
}

/// Removes the first entry whose key equals `key`, and writes it, in O(log n). `OK`, `NOT_FOUND` or `CLOSED`.
#[unsafe(no_mangle)]
pub extern "C" fn topscedar_arena_remove_key(
    alloc: Global,
    arena: &mut Handle,
    key: i64,
    entry: &mut Entry,
) -> u8
    ensures { Changes (λ a. entry_found a (first_where (λ e. is_eq (int_cmp key (key_of e))) a.entries))
        (λ a b. b ≡ without_where greatest_generation a (λ e. is_eq (int_cmp key (key_of e))))
        arena.old.slot.held arena.new.slot.held result entry.old entry.new }
{
    let Some(mut content) = arena.take(alloc) else {
        return CLOSED;
    };
    let found = content.entry_found(content.pairs.find(&key));
    let _ = content.pairs.remove_key(&key);
    arena.answer(content, found, entry)
}

/// Removes all entries whose keys are at least `from` and at most `until`, and writes how many they were. O(log n) for each. `OK` or
/// `CLOSED`.
#[unsafe(no_mangle)]
pub extern "C" fn topscedar_arena_remove_range(
    alloc: Global,
    arena: &mut Handle,
    from: i64,
    until: i64,
    count: &mut usize,
) -> u8
    ensures removes { ChangesOpen (λ a b. b ≡ with_passing greatest_generation a
        (is_outside int_cmp (Included from) (Included until)))
        arena.old.slot.held arena.new.slot.held result }
    ensures count { result ≡ ok → IsSomeAnd arena.old.slot.held (λ a.
        count.new ≡ length (entries_between int_cmp (Included from) (Included until) a.entries)) }
    ensures kept { result ≢ ok → count.new ≡ count.old }
{
    let Some(mut content) = arena.take(alloc) else {
        return CLOSED;
    };
    *count = content
        .pairs
        .remove_range((Bound::Included(from), Bound::Included(until)));
    arena.put(content);
    OK
}
