//! From one handle to another.

ghost use Rattle.std.specs.Prelude.{◌≡◌, ◌≢◌, ◌↔◌, ◌+◌, ◌<◌, [], ◌∷◌, map, IsSomeAnd};
ghost use Rattle.std.specs.List.{Contains};
ghost use Rattle.std.specs.Ordering.{int_cmp};
ghost use Rattle.sorted_arena.specs.Chain.{greatest_index};
ghost use Rattle.sorted_arena.specs.Merge.{merged};
ghost use Rattle.sorted_arena.specs.PlainArena.{capacity_for};
ghost use Rattle.sorted_arena.specs.Sorted.{count, pair_of, with_rest, Keeps};
ghost use Rattle.arena_c.specs.Shown.{greatest_generation, most_entries};
ghost use Rattle.arena_c.specs.Status.{ok, full, no_memory, closed, already_open};

use crate::content::Content;
use crate::handle::Handle;
use crate::life::reservation_status;
use crate::status::{ALREADY_OPEN, CLOSED, NO_MEMORY, OK};
use std::alloc::Global;

/// Opens the closed handle `copy` with a clone of the arena: the same entries under the same pointers, and no more capacity than they need.
/// `OK`, `NO_MEMORY`, `CLOSED`, or `ALREADY_OPEN` if `copy` is open; on all but `OK` nothing changes. O(capacity).
#[unsafe(no_mangle)]
pub extern "C" fn topscedar_arena_clone(alloc: Global, arena: &mut Handle, copy: &mut Handle) -> u8
    ensures known { Contains (ok ∷ no_memory ∷ closed ∷ already_open ∷ []) result }
    ensures cloned { result ≡ ok → IsSomeAnd arena.old.slot.held (λ a. IsSomeAnd copy.new.slot.held (λ b.
        (b.entries ≡ a.entries) × (b.generation ≡ a.generation)
        × (b.capacity ≡ greatest_index a.entries))) }
    ensures arena { arena.new.slot.held ≡ arena.old.slot.held }
    ensures kept { result ≢ ok → copy.new.slot.held ≡ copy.old.slot.held }
{
    if copy.is_open() {
        return ALREADY_OPEN;
    }
    let Some(content) = arena.take(alloc) else {
        return CLOSED;
    };
    let cloned = content.pairs.clone();
    arena.put(content);
    let Ok(pairs) = cloned else {
        return NO_MEMORY;
    };
    match Box::new(alloc, Content { pairs }) {
        Ok(content) => {
            copy.put(content);
            OK
        }
        Err(_) => NO_MEMORY,
    }
}

/// Moves all entries of `other` into the arena, under new pointers. Each goes after every entry with a key ≤ its own; `other` is empty then.
/// `OK`, `FULL`, `NO_MEMORY`, or `CLOSED` if either handle is closed; on all but `OK` nothing changes. O(log n) for each entry that is moved,
/// plus O(n) when the arena grows.
#[unsafe(no_mangle)]
pub extern "C" fn topscedar_arena_append(
    alloc: Global,
    arena: &mut Handle,
    other: &mut Handle,
) -> u8
    ensures known { Contains (ok ∷ full ∷ no_memory ∷ closed ∷ []) result }
    ensures merged { result ≡ ok → IsSomeAnd arena.old.slot.held (λ a. IsSomeAnd other.old.slot.held (λ o.
        IsSomeAnd arena.new.slot.held (λ b. Keeps a b
        × (b.capacity ≡ capacity_for most_entries a.capacity (count a + count o)) × (b.generation ≡ a.generation)
        × (map pair_of b.entries
        ≡ merged int_cmp (map pair_of a.entries) (map pair_of o.entries))))) }
    ensures emptied { result ≡ ok → IsSomeAnd other.old.slot.held (λ o. IsSomeAnd other.new.slot.held (λ e.
        e ≡ with_rest greatest_generation o [])) }
    ensures full { (result ≡ full) ↔ IsSomeAnd arena.old.slot.held (λ a. IsSomeAnd other.old.slot.held (λ o.
        most_entries < count a + count o)) }
    ensures memory { result ≡ no_memory → IsSomeAnd arena.old.slot.held (λ a. IsSomeAnd other.old.slot.held (λ o.
        a.capacity < count a + count o)) }
    ensures kept { result ≢ ok → (arena.new.slot.held ≡ arena.old.slot.held)
        × (other.new.slot.held ≡ other.old.slot.held) }
{
    let Some(mut content) = arena.take(alloc) else {
        return CLOSED;
    };
    let Some(mut source) = other.take(alloc) else {
        arena.put(content);
        return CLOSED;
    };
    let appended = content.pairs.append(&mut source.pairs);
    arena.put(content);
    other.put(source);
    reservation_status(appended)
}
