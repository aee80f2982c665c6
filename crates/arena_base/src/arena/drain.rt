//! Drains.
ghost use Rattle.std.specs.Prelude.{◌≡◌, ◌+◌, [], length};
ghost use Rattle.std.specs.Iterator.{item_count};
ghost use Rattle.arena_base.specs.Arena.{cleared};
ghost use Rattle.arena_base.specs.Drain.{drain_arena, drain_lender, drain_rest, DrainSteps};
ghost use Rattle.arena_base.specs.Walk.{entries_from};

use super::Arena;
use crate::invalidation::InvalidationOption;
use crate::ptr::{BasePtr, BasePtrGen};
use std::alloc::{Allocator, Global};

/// Removes the entries of an arena by rising index, one at each step. When it is dropped, it clears the arena.
pub struct Drain<'a, P: BasePtr, T: Drop, A: Allocator = Global> {
    arena: &'a mut Arena<P, T, A>,
    // The position of the slot that it looks at next.
    at: usize,
}

impl<P: BasePtr, T: Drop, A: Allocator> Arena<P, T, A> {
    /// Returns a drain, which removes all entries by rising index.
    ///
    /// Each step removes an entry and raises the generation. When the drain is dropped, it clears the arena of the rest, which raises the
    /// generation once more. [`keep_rest`](Drain::keep_rest) ends the drain and keeps the rest.
    pub fn drain(&mut self) -> Drain<'_, P, T, A>
        ensures rest { drain_rest result ≡ entries_from 0 self.old.slots }
        ensures arena { drain_arena result ≡ self.old }
        ensures same_reference { drain_lender result ≡ self.entry.ghost_name }
    {
        let _ = self.capacity();
        Drain { arena: self, at: 0 }
    }
}

impl<'a, P: BasePtr, T: Drop, A: Allocator> Drain<'a, P, T, A> {
    /// Ends the drain and leaves the arena as it is: the remaining entries stay.
    ///
    /// `mem::forget` does the same, but its contract says nothing about what is left.
    pub fn keep_rest(self)
        ensures { self.exit.0.now ≡ drain_arena self.entry }
    {
        let Drain { arena: _, at: _ } = self;
    }
}

impl<'a, P: BasePtr, T: Drop, A: Allocator> Drop for Drain<'a, P, T, A> {
    fn drop(self)
        ensures { self.exit.0.now ≡ cleared P.Gen.greatest (drain_arena self.entry) }
    {
        let Drain { arena, at: _ } = self;
        let _ = arena.clear();
    }
}

impl<'a, P: BasePtr, T: Drop, A: Allocator> Iterator for Drain<'a, P, T, A> {
    type Item = InvalidationOption<(P, T)>;

    ghost next_gives = { DrainSteps P.Gen.greatest P.numbers };

    ghost remaining = { item_count drain_rest };

    fn next(&mut self) -> Option<InvalidationOption<(P, T)>> {
        let (at, p) = self.arena.first_from(self.at)?;
        self.at = at;
        match self.arena.remove(p).unwrap() {
            InvalidationOption::Success(item) => Some(InvalidationOption::Success((p, item))),
            InvalidationOption::GenerationOverflow(item) => {
                Some(InvalidationOption::GenerationOverflow((p, item)))
            }
        }
    }
}
