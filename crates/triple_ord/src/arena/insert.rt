//! Inserting entries by key, and beside an entry.
ghost use Rattle.std.specs.Prelude.{◌≡◌, ◌≢◌, [], ◌+◌, ◌<◌, ℕ, Ok, Some, None, IfOk, OnOk, IfErr, OnErr, is_some, if◌then◌else◌};
ghost use Rattle.std.specs.Option.{option_map};
ghost use Rattle.std.specs.declared.cmp.Ordering.TheVariants.{Equal};
ghost use Rattle.ord_tree.specs.Chain.{IsOccupied};
ghost use Rattle.triple_ord.specs.Arena.{entry_at, count, Updates};
ghost use Rattle.ord_tree.specs.Insert.{IsInsertion};
ghost use Rattle.ord_tree.specs.Tree.{CanInsertAt, IsGrown, insert_at};
ghost use Rattle.triple_ord.specs.Insertion.{with_room_by, LacksSlot, InsertsByKey, InsertsBeside, PutsBeside, PutsAlone};
ghost use Rattle.triple_ord.specs.declared.growth.Growth.TheVariants.{Within, Reallocating};

use super::SimpleOrdArena;
use crate::error::OrdInsertionError;
use crate::growth::Growth;
use crate::insert_kind::OrdInsertKind;
use crate::item::SimpleOrdItem;
use arena_base::BasePtr;
use std::alloc::Allocator;
use std::cmp::Ordering;

impl<P: BasePtr, T: SimpleOrdItem + Drop, A: Allocator> SimpleOrdArena<P, T, A> {
    /// Inserts an item by its key, without growing, and returns its pointer.
    ///
    /// Otherwise it does what `insert_reallocating` does. Takes no memory.
    ///
    /// # Errors
    ///
    /// The arena is unchanged and `t` is dropped.
    /// - `NotWithinCapacity`: a new entry is needed, and no slot is vacant.
    pub fn insert_within_capacity(&mut self, t: T) -> Result<(P, Option<T>), OrdInsertionError>
        ensures { InsertsByKey T.key_of T.Key.cmp P.Inx.most Within P.numbers
            self.old t result self.new }
    {
        let prepared = self.prepare(Growth::Within, OrdInsertKind::Normal(t.key()))?;
        let p = prepared.shown.any();
        Ok((p, self.insert_prepared(prepared, t)))
    }

    /// Inserts an item by its key and returns its pointer.
    ///
    /// If the search finds an entry with an equal key, that entry keeps its pointer, its item is replaced, and the old item is returned;
    /// this never fails. Otherwise a new entry goes into a gap that fits its key. It has the arena's generation and takes the slot freed
    /// last, or else the least one never used. If no slot is vacant, the arena first grows to twice its capacity, at least 4 and at most
    /// the limit.
    ///
    /// # Errors
    ///
    /// The arena is unchanged and `t` is dropped; use `entry_insert` to keep it.
    /// - `BeyondMaxCapacity`: a new entry is needed, and the length is at the limit.
    /// - `AllocError`: growing failed.
    ///
    /// # Complexity
    ///
    /// O(log n), plus O(n) when the arena grows (amortized O(1)). A new entry changes the parent of at most five others. The amortized
    /// number of rank changes of others is at most 4.
    pub fn insert_reallocating(&mut self, t: T) -> Result<(P, Option<T>), OrdInsertionError>
        ensures { InsertsByKey T.key_of T.Key.cmp P.Inx.most Reallocating P.numbers
            self.old t result self.new }
    {
        let prepared = self.prepare(Growth::Reallocating, OrdInsertKind::Normal(t.key()))?;
        let p = prepared.shown.any();
        Ok((p, self.insert_prepared(prepared, t)))
    }

    /// The same as `insert_reallocating`.
    ///
    /// It searches from the root, even for a key behind all others. [`entry_insert`](Self::entry_insert) finds the place of such a key in
    /// O(1), as it compares the last key first with the kind [`OrdInsertKind::Linear`] (or [`OrdInsertKind::NonhereditaryLinear`]), the
    /// index of [`last`](Self::last) and `num: 1`.
    ///
    /// ```
    /// let (two, _) = pairs.insert(OrdPair::new(2, "deux"))?;
    /// let (same, replaced) = pairs.insert(OrdPair::new(2, "two"))?;
    /// assert_eq!(rt; same, two);
    /// assert_eq!(rt; replaced, Some(OrdPair::new(2, "deux")));
    /// assert_eq!(rt; pairs.get(two), Some(&OrdPair::new(2, "two")));
    /// ```
    pub fn insert(&mut self, t: T) -> Result<(P, Option<T>), OrdInsertionError>
        ensures { InsertsByKey T.key_of T.Key.cmp P.Inx.most Reallocating P.numbers
            self.old t result self.new }
    {
        self.insert_reallocating(t)
    }
}

impl<P: BasePtr, T: Drop, A: Allocator> SimpleOrdArena<P, T, A> {
    /// Inserts an item beside the entry at an index, whatever the keys: directly before it (`Less`) or directly after it (`Greater`).
    /// `Equal` replaces the item of that entry, returns the old one, and always succeeds.
    ///
    /// A new entry gets a slot as in `insert_reallocating`, with the same errors; then the arena is unchanged and `t` is dropped.
    /// `OrdInsertKind::Manual` does the same for an index that may have no entry.
    pub fn insert_inx_manual_unwrap(
        &mut self,
        p: P::Inx,
        direction: Ordering,
        t: T,
    ) -> Result<Option<T>, OrdInsertionError>
        requires { IsOccupied self.old.list (P.Inx.number p) }
        ensures inserts { InsertsBeside P.Inx.most
            (P.Inx.number p) direction self.old t result self.new }
        ensures replaced { direction ≡ Equal
            → result ≡ Ok (option_map (λ e. e.1) (entry_at self.old (P.Inx.number p))) }
        ensures new { direction ≢ Equal → IfOk result (λ before. before ≡ None) }
        ensures updates { OnOk result ((q : ℕ × ℕ) × Updates self.old self.new q (Some t)) }
        ensures count { IfOk result
            (λ before. count self.new
            ≡ (if is_some before then count self.old else count self.old + 1)) }
        ensures refused { OnErr result (self.new ≡ self.old) }
    {
        match direction {
            Ordering::Equal => Ok(Some(self.replace(p, t))),
            Ordering::Less | Ordering::Greater => {
                self.put_growing((p, direction), t)?;
                Ok(None)
            }
        }
    }

    // Inserts a new entry directly before or after another.
    fn put_growing(&mut self, at: (P::Inx, Ordering), t: T) -> Result<P, OrdInsertionError>
        requires { CanInsertAt P.Inx.number (Some at) self.old.list }
        ensures inserted { IfOk result
            (λ p. IsInsertion (with_room_by Reallocating P.Inx.most self.old.list) self.new.list
            (insert_at P.Inx.number (Some at) self.old.list.entries)
            t (P.numbers p).0 (P.numbers p).1) }
        ensures grown { OnOk result (IsGrown self.old.shape self.new.shape) }
        ensures refused { IfErr result (LacksSlot Reallocating P.Inx.most self.old.list) }
        ensures err { OnErr result (self.new ≡ self.old) }
    {
        let p = self.tree.insert_reallocating(Some(at), t)?;
        Ok(p)
    }
}

impl<P: BasePtr, T, A: Allocator> SimpleOrdArena<P, T, A> {
    /// Inserts an item directly before (`Less`) or directly after (`Greater`) the entry at an index, whatever the keys, and returns its
    /// pointer. The direction is never `Equal`.
    ///
    /// A slot must be vacant, as after [`reserve`](Self::reserve), so the call can't fail and takes no memory. The new entry has the
    /// arena's generation and takes the slot freed last, or else the least one never used.
    ///
    /// # Complexity
    ///
    /// Amortized O(1), at most O(log n). It changes the parent of at most five others.
    pub fn insert_beside(&mut self, p: P::Inx, direction: Ordering, t: T) -> P
        requires occupied { IsOccupied self.old.list (P.Inx.number p) }
        requires direction { direction ≢ Equal }
        requires vacant { count self.old < self.old.list.capacity }
        ensures inserts { PutsBeside P.Inx.most
            (P.Inx.number p) direction self.old t (P.numbers result) self.new }
        ensures updates { Updates self.old self.new (P.numbers result) (Some t) }
        ensures count { count self.new ≡ count self.old + 1 }
        ensures capacity { self.new.list.capacity ≡ self.old.list.capacity }
    {
        self.tree.insert_reserved(Some((p, direction)), t)
    }

    /// Inserts an item into an arena without entries, and returns its pointer.
    ///
    /// A slot must be there, as after [`reserve`](Self::reserve), so the call can't fail and takes no memory. The new entry has the
    /// arena's generation and takes the slot freed last, or else the least one never used. O(1).
    pub fn insert_first(&mut self, t: T) -> P
        requires empty { self.old.list.entries ≡ [] }
        requires vacant { 0 < self.old.list.capacity }
        ensures inserts { PutsAlone P.Inx.most self.old t (P.numbers result) self.new }
        ensures updates { Updates self.old self.new (P.numbers result) (Some t) }
        ensures count { count self.new ≡ 1 }
        ensures capacity { self.new.list.capacity ≡ self.old.list.capacity }
    {
        self.tree.insert_reserved(None, t)
    }
}
