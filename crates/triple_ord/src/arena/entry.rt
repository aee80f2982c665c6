//! Requesting the place of an insertion, and the methods of its entry.
ghost use Rattle.std.specs.Prelude.{◌≡◌, ◌+◌, Some, is_some, if◌then◌else◌};
ghost use Rattle.std.specs.Borrow.{sem};
ghost use Rattle.ord_tree.specs.Chain.{IsSound};
ghost use Rattle.triple_ord.specs.Arena.{item_of, count, Updates};
ghost use Rattle.triple_ord.specs.Entry.{InsertsThere};
ghost use Rattle.triple_ord.specs.EntryKind.{pointer_of_kind};
ghost use Rattle.triple_ord.specs.declared.growth.Growth.TheVariants.{Within, Reallocating};
ghost use Rattle.triple_ord.specs.InsertEntry.{RequestsEntry, entry_arena, entry_shown, entry_put, entry_visits, rests_if_refused};
ghost use Rattle.triple_ord.specs.Place.{kind_now};

use super::SimpleOrdArena;
use super::insert_entry::SimpleOrdArenaInsertEntry;
use crate::entry_kind::OrdEntryKind;
use crate::error::OrdInsertionError;
use crate::growth::Growth;
use crate::insert_kind::OrdInsertKind;
use crate::item::SimpleOrdItem;
use crate::prepared::{InsertPlace, Prepared};
use crate::visits::Visits;
use arena_base::BasePtr;
use std::alloc::Allocator;
use std::cmp::Ordering;

impl<'a, P: BasePtr, T: Drop, A: Allocator> SimpleOrdArenaInsertEntry<'a, P, T, A> {
    /// Returns the pointer of the entry: that of a new one, which finds nothing yet, or of the one whose item is replaced. O(1).
    pub fn ptr(&self) -> OrdEntryKind<P>
        ensures { result ≡ entry_shown self.now }
    {
        self.prepared.shown
    }

    /// Returns how many entries the search for the place visited: none for `OrdInsertKind::Empty` and `OrdInsertKind::Manual`, and for
    /// the other kinds as many as their search for a similar key.
    pub fn visits(&self) -> Visits
        ensures { result ≡ entry_visits self.now }
    {
        self.prepared.visits
    }

    /// Inserts the item, and returns the one that it replaced.
    ///
    /// No key is compared: an item whose key isn't that of the entry can break the order of the keys, but never the tree.
    ///
    /// # Complexity
    ///
    /// O(log n), and no memory. A new entry changes the parent of at most five others. The amortized number of rank changes of others is
    /// at most 4.
    #[inline(always)]
    pub fn insert(self, t: T) -> Option<T>
        ensures inserts { InsertsThere P.numbers (entry_shown self.entry)
            (entry_put P.numbers self.entry) (entry_arena self.entry) t result self.exit.0.now }
        ensures updates { Updates (entry_arena self.entry) self.exit.0.now
            (P.numbers (pointer_of_kind (entry_shown self.entry))) (Some t) }
        ensures before { result ≡ item_of (entry_arena self.entry)
            (P.numbers (pointer_of_kind (entry_shown self.entry))) }
        ensures count { count self.exit.0.now
            ≡ (if is_some result then count (entry_arena self.entry)
            else count (entry_arena self.entry) + 1) }
        ensures sound { IsSound P.Inx.most P.Gen.greatest self.exit.0.now.list }
    {
        let prepared = self.prepared;
        let before = self.arena.insert_prepared(prepared, t);
        // For the prover: the list is sound.
        let _ = self.arena.len();
        before
    }
}

impl<P: BasePtr, T: SimpleOrdItem + Drop, A: Allocator> SimpleOrdArena<P, T, A> {
    /// Finds the place of an insertion within the capacity.
    ///
    /// Nothing changes until the entry inserts.
    ///
    /// # Errors
    ///
    /// The arena is unchanged.
    /// - `FailedOrdRequirement`: `kind` has no place.
    /// - `NotWithinCapacity`: a new entry is needed, and no slot is vacant.
    ///
    /// # Complexity
    ///
    /// O(log n) with a key, less near a hint, and O(1) without a key. Takes no memory.
    #[inline(always)]
    pub fn entry_insert_within_capacity(
        &mut self,
        kind: OrdInsertKind<P, &T::Key>,
    ) -> Result<SimpleOrdArenaInsertEntry<'_, P, T, A>, OrdInsertionError>
        ensures* unchanged_at_err { sem 𝓛 (rests_if_refused P.row T.row A.row P.Inx.row P.Gen.row
            P.BasePtr.own P.PartialEq P.Inx.BasePtrInx.own P.Inx.PartialEq
            P.Gen.BasePtrGen.own P.Gen.PartialEq A.Allocator
            self.entry result) }
        ensures request { RequestsEntry P.numbers T.key_of T.Key.cmp P.Inx.number Within P.Inx.most
            (kind_now kind.entry) self.old self.entry.ghost_name result }
    {
        let prepared = self.prepare(Growth::Within, kind)?;
        Ok(SimpleOrdArenaInsertEntry {
            arena: self,
            prepared,
        })
    }

    /// Finds the place of an insertion, growing first if a new entry is needed and no slot is vacant.
    ///
    /// An equal entry is found before a slot is needed, so a full arena still replaces. Until the entry inserts, only the capacity may
    /// change.
    ///
    /// # Errors
    ///
    /// The arena is unchanged.
    /// - `FailedOrdRequirement`: `kind` has no place, whatever the capacity.
    /// - `BeyondMaxCapacity`: a new entry is needed, and the length is at the limit.
    /// - `AllocError`: growing failed.
    ///
    /// # Complexity
    ///
    /// As `entry_insert_within_capacity`, plus O(n) if the arena grows.
    #[inline(always)]
    pub fn entry_insert_reallocating(
        &mut self,
        kind: OrdInsertKind<P, &T::Key>,
    ) -> Result<SimpleOrdArenaInsertEntry<'_, P, T, A>, OrdInsertionError>
        ensures* unchanged_at_err { sem 𝓛 (rests_if_refused P.row T.row A.row P.Inx.row P.Gen.row
            P.BasePtr.own P.PartialEq P.Inx.BasePtrInx.own P.Inx.PartialEq
            P.Gen.BasePtrGen.own P.Gen.PartialEq A.Allocator
            self.entry result) }
        ensures request { RequestsEntry P.numbers T.key_of T.Key.cmp P.Inx.number Reallocating P.Inx.most
            (kind_now kind.entry) self.old self.entry.ghost_name result }
    {
        self.entry_insert_by_growth(Growth::Reallocating, kind)
    }

    /// The same as `entry_insert_reallocating`.
    ///
    /// An item passed to an insertion that fails is dropped. Request an entry first to keep it:
    ///
    /// ```text
    /// fn put(jobs: &mut Jobs, job: Job) -> Result<P0, (Job, OrdInsertionError)> {
    ///     match jobs.entry_insert(OrdInsertKind::Nonhereditary(job.key())) {
    ///         Ok(entry) => {
    ///             let p = entry.ptr().any();
    ///             let _ = entry.insert(job);
    ///             Ok(p)
    ///         }
    ///         Err(refusal) => Err((job, refusal)),
    ///     }
    /// }
    /// ```
    ///
    /// ```
    /// for name in ["first", "second"] {
    ///     let entry = pairs.entry_insert(OrdInsertKind::Nonhereditary(&7))?;
    ///     let _ = entry.insert(OrdPair::new(7, name));
    /// }
    /// assert_eq!(rt; pairs.len(), 2);
    /// assert_eq!(rt; pairs.last().and_then(|p| pairs.get(p)), Some(&OrdPair::new(7, "second")));
    /// ```
    #[inline(always)]
    pub fn entry_insert(
        &mut self,
        kind: OrdInsertKind<P, &T::Key>,
    ) -> Result<SimpleOrdArenaInsertEntry<'_, P, T, A>, OrdInsertionError>
        ensures* unchanged_at_err { sem 𝓛 (rests_if_refused P.row T.row A.row P.Inx.row P.Gen.row
            P.BasePtr.own P.PartialEq P.Inx.BasePtrInx.own P.Inx.PartialEq
            P.Gen.BasePtrGen.own P.Gen.PartialEq A.Allocator
            self.entry result) }
        ensures request { RequestsEntry P.numbers T.key_of T.Key.cmp P.Inx.number Reallocating P.Inx.most
            (kind_now kind.entry) self.old self.entry.ghost_name result }
    {
        self.entry_insert_reallocating(kind)
    }

    /// Finds the place of an insertion, which stays within the capacity or grows the arena, as `growth` says.
    ///
    /// This is `entry_insert_within_capacity` or `entry_insert_reallocating`, with their errors, for a caller that has the choice as a
    /// value.
    #[inline(always)]
    pub fn entry_insert_by_growth(
        &mut self,
        growth: Growth,
        kind: OrdInsertKind<P, &T::Key>,
    ) -> Result<SimpleOrdArenaInsertEntry<'_, P, T, A>, OrdInsertionError>
        ensures* unchanged_at_err { sem 𝓛 (rests_if_refused P.row T.row A.row P.Inx.row P.Gen.row
            P.BasePtr.own P.PartialEq P.Inx.BasePtrInx.own P.Inx.PartialEq
            P.Gen.BasePtrGen.own P.Gen.PartialEq A.Allocator
            self.entry result) }
        ensures request { RequestsEntry P.numbers T.key_of T.Key.cmp P.Inx.number growth P.Inx.most
            (kind_now kind.entry) self.old self.entry.ghost_name result }
    {
        let prepared = self.prepare(growth, kind)?;
        Ok(SimpleOrdArenaInsertEntry {
            arena: self,
            prepared,
        })
    }
}
