//! A handle from opening to closing.

ghost use Rattle.std.specs.Prelude.{◌≡◌, ◌↔◌, ◌+◌, ◌≤◌, ◌<◌, [], ◌∷◌, Some, None, IsSomeAnd, is_some, true, max, if◌then◌else◌};
ghost use Rattle.std.specs.List.{Contains};
ghost use Rattle.sorted_arena.specs.Chain.{greatest_index};
ghost use Rattle.sorted_arena.specs.Change.{ChangesCapacity};
ghost use Rattle.sorted_arena.specs.Sorted.{count, with_left, with_numbers};
ghost use Rattle.arena_c.specs.Answer.{ChangesOpen, ChangesOrFails, Looks, status_of_reservation};
ghost use Rattle.arena_c.specs.Shown.{greatest_generation, most_entries, new_arena};
ghost use Rattle.arena_c.specs.Status.{ok, full, no_memory, closed};

use crate::content::Content;
use crate::handle::Handle;
use crate::status::{CLOSED, FULL, NO_MEMORY, OK};
use sorted_arena::ReallocationError;
use std::alloc::Global;

/// Opens a closed handle with an empty arena. An open handle stays as it is. `OK` or `NO_MEMORY`; then nothing changes.
#[unsafe(no_mangle)]
pub extern "C" fn topscedar_arena_open(alloc: Global, arena: &mut Handle) -> u8
    ensures known { Contains (ok ∷ no_memory ∷ []) result }
    ensures opened { arena.old.slot.held ≡ None → result ≡ ok → arena.new.slot.held ≡ Some new_arena }
    ensures open { is_some arena.old.slot.held ≡ true → (result ≡ ok) × (arena.new.slot.held ≡ arena.old.slot.held) }
    ensures refused { result ≡ no_memory → arena.new.slot.held ≡ arena.old.slot.held }
{
    if arena.is_open() {
        return OK;
    }
    match Box::new(alloc, Content::new(alloc)) {
        Ok(content) => {
            arena.put(content);
            OK
        }
        Err(_) => NO_MEMORY,
    }
}

/// Opens a closed handle, as `topscedar_arena_open` does, with an arena whose first pointer has the generation `generation`, or 2 if that
/// is greater. So arenas that begin far apart take each other's pointers for stale ones. `OK` or `NO_MEMORY`; then nothing changes.
#[unsafe(no_mangle)]
pub extern "C" fn topscedar_arena_open_at(alloc: Global, arena: &mut Handle, generation: u64) -> u8
    ensures known { Contains (ok ∷ no_memory ∷ []) result }
    ensures opened { arena.old.slot.held ≡ None → result ≡ ok
        → arena.new.slot.held ≡ Some (record new_arena { generation = max 2 generation }) }
    ensures open { is_some arena.old.slot.held ≡ true → (result ≡ ok) × (arena.new.slot.held ≡ arena.old.slot.held) }
    ensures refused { result ≡ no_memory → arena.new.slot.held ≡ arena.old.slot.held }
{
    if arena.is_open() {
        return OK;
    }
    let mut content = Content::new(alloc);
    content.pairs.set_generation(generation.max(2));
    match Box::new(alloc, content) {
        Ok(content) => {
            arena.put(content);
            OK
        }
        Err(_) => NO_MEMORY,
    }
}

/// Closes a handle. Its entries are dropped, and its memory is given back. `OK`, or `CLOSED` if it was closed.
#[unsafe(no_mangle)]
pub extern "C" fn topscedar_arena_close(alloc: Global, arena: &mut Handle) -> u8
    ensures status { result ≡ (if is_some arena.old.slot.held then ok else closed) }
    ensures closed { arena.new.slot.held ≡ None }
{
    match arena.take(alloc) {
        Some(_) => OK,
        None => CLOSED,
    }
}

/// Writes the number of entries. `OK` or `CLOSED`.
#[unsafe(no_mangle)]
pub extern "C" fn topscedar_arena_length(
    alloc: Global,
    arena: &mut Handle,
    length: &mut usize,
) -> u8
    ensures { Looks (λ a. Some (count a)) arena.old.slot.held arena.new.slot.held result length.old length.new }
{
    let Some(content) = arena.take(alloc) else {
        return CLOSED;
    };
    let found = content.pairs.len();
    arena.answer(content, Some(found), length)
}

/// Writes the capacity: how many entries the arena holds without growing. `OK` or `CLOSED`.
#[unsafe(no_mangle)]
pub extern "C" fn topscedar_arena_capacity(
    alloc: Global,
    arena: &mut Handle,
    capacity: &mut usize,
) -> u8
    ensures { Looks (λ a. Some a.capacity)
        arena.old.slot.held arena.new.slot.held result capacity.old capacity.new }
{
    let Some(content) = arena.take(alloc) else {
        return CLOSED;
    };
    let found = content.pairs.capacity();
    arena.answer(content, Some(found), capacity)
}

/// Makes room for `additional` more entries. `OK`, `FULL`, `NO_MEMORY` or `CLOSED`; on all but `OK` nothing changes.
#[unsafe(no_mangle)]
pub extern "C" fn topscedar_arena_reserve(
    alloc: Global,
    arena: &mut Handle,
    additional: usize,
) -> u8
    ensures room { ChangesOrFails (ok ∷ full ∷ no_memory ∷ closed ∷ [])
        (λ a b. (b.entries ≡ a.entries) × (b.generation ≡ a.generation)
        × (count a + additional ≤ b.capacity))
        arena.old.slot.held arena.new.slot.held result }
    ensures full { (result ≡ full) ↔ IsSomeAnd arena.old.slot.held (λ a. most_entries < count a + additional) }
    ensures memory { result ≡ no_memory
        → IsSomeAnd arena.old.slot.held (λ a. a.capacity < count a + additional) }
{
    let Some(mut content) = arena.take(alloc) else {
        return CLOSED;
    };
    let reserved = content.pairs.reserve(additional);
    arena.put(content);
    reservation_status(reserved)
}

/// The status of a reservation.
pub fn reservation_status(reserved: Result<(), ReallocationError>) -> u8
    ensures { result ≡ status_of_reservation reserved }
{
    match reserved {
        Ok(()) => OK,
        Err(ReallocationError::BeyondMaxCapacity) => FULL,
        Err(ReallocationError::AllocError) => NO_MEMORY,
    }
}

/// Gives back the memory that no entry needs: the capacity becomes the greatest index of an entry. O(capacity). `OK` or `CLOSED`.
#[unsafe(no_mangle)]
pub extern "C" fn topscedar_arena_shrink(alloc: Global, arena: &mut Handle) -> u8
    ensures { ChangesOpen (λ a b. ChangesCapacity a b × (b.capacity ≡ greatest_index a.entries))
        arena.old.slot.held arena.new.slot.held result }
{
    let Some(mut content) = arena.take(alloc) else {
        return CLOSED;
    };
    content.pairs.shrink();
    arena.put(content);
    OK
}

/// Gives the entries the indexes from 1 on in their order, under the next generation. All old pointers are stale then. O(capacity), and no
/// memory. `OK` or `CLOSED`.
#[unsafe(no_mangle)]
pub extern "C" fn topscedar_arena_compact(alloc: Global, arena: &mut Handle) -> u8
    ensures { ChangesOpen (λ a b. b ≡ with_numbers greatest_generation a)
        arena.old.slot.held arena.new.slot.held result }
{
    let Some(mut content) = arena.take(alloc) else {
        return CLOSED;
    };
    content.pairs.compact();
    arena.put(content);
    OK
}

/// Removes all entries; the capacity stays. `OK` or `CLOSED`.
#[unsafe(no_mangle)]
pub extern "C" fn topscedar_arena_clear(alloc: Global, arena: &mut Handle) -> u8
    ensures { ChangesOpen (λ a b. b ≡ with_left greatest_generation a [])
        arena.old.slot.held arena.new.slot.held result }
{
    let Some(mut content) = arena.take(alloc) else {
        return CLOSED;
    };
    content.pairs.clear();
    arena.put(content);
    OK
}
