//! Entries that come from another arena.

ghost use Rattle.std.specs.Prelude.{◌≡◌, ◌↔◌, ◌+◌, ◌<◌, [], map, Err, OnOk, OnErr};
ghost use Rattle.listing.specs.{PlainArena.capacity_for, Steps.IsStep};
ghost use Rattle.sorted_arena.specs.Merge.{merged};
ghost use Rattle.sorted_arena.specs.Sorted.{count, pair_of, with_entry, with_rest, IsFree, Keeps};

use super::SortedArena;
use std::alloc::Allocator;
use triple_ord::{BasePtr, ReallocationError};

impl<K: Ord + Drop, V: Drop, P: BasePtr, A: Allocator> SortedArena<K, V, P, A> {
    /// Moves all entries of `other` into this arena, under new pointers. Each goes after every entry with a key ≤ its own. `other` is
    /// empty then.
    ///
    /// # Errors
    ///
    /// Both arenas are unchanged.
    /// - `BeyondMaxCapacity`: there would be more entries than pointers have indexes.
    /// - `AllocError`: growing failed.
    ///
    /// # Complexity
    ///
    /// O(log n) for each entry that is moved, plus O(n) when the arena grows. One comparison for each whose key is at least all others.
    #[tactic(auto, using(listing::proofs::CallerLemmas::words))]
    pub fn append<Q: BasePtr, B: Allocator>(
        &mut self,
        other: &mut SortedArena<K, V, Q, B>,
    ) -> Result<(), ReallocationError>
        ensures items { OnOk result (map pair_of self.new.entries
            ≡ merged K.cmp (map pair_of self.old.entries) (map pair_of other.old.entries)) }
        ensures kept { Keeps self.old self.new }
        ensures count { OnOk result (count self.new ≡ count self.old + count other.old) }
        ensures generation { self.new.generation ≡ self.old.generation }
        ensures capacity { OnOk result (self.new.capacity
            ≡ capacity_for P.Inx.most self.old.capacity (count self.old + count other.old)) }
        ensures step { IsStep self.old self.new }
        ensures emptied { OnOk result (other.new ≡ with_rest Q.Gen.greatest other.old []) }
        ensures full { (result ≡ Err ReallocationError.BeyondMaxCapacity)
            ↔ (P.Inx.most < count self.old + count other.old) }
        ensures memory { result ≡ Err ReallocationError.AllocError
            → self.old.capacity < count self.old + count other.old }
        ensures err { OnErr result (self.new ≡ self.old) }
        ensures other_err { OnErr result (other.new ≡ other.old) }
    {
        self.reserve(other.len())?;
        while let Some((k, v)) = other.pop_first() {
            let _ = self.insert_in_room(k, v);
        }
        Ok(())
    }

    // Inserts an entry where one has room.
    #[tactic(auto, using(listing::proofs::CallerLemmas::words))]
    pub(super) fn insert_in_room(&mut self, k: K, v: V) -> P
        requires { count self.old < self.old.capacity }
        ensures ok { self.new
            ≡ with_entry K.cmp P.Inx.most self.old (P.numbers result) (k, v) }
        ensures free { IsFree self.old (P.numbers result) }
        ensures count { count self.new ≡ count self.old + 1 }
        ensures generation { self.new.generation ≡ self.old.generation }
        ensures capacity { self.new.capacity ≡ self.old.capacity }
    {
        match self.insert(k, v) {
            Ok(p) => p,
            // there is room
            Err((_, ReallocationError::BeyondMaxCapacity)) => unreachable!(),
            Err((_, ReallocationError::AllocError)) => unreachable!(),
        }
    }
}
