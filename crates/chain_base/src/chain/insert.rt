//! Insertions.
ghost use Rattle.std.specs.Prelude.{◌≡◌, ◌<◌, ◌≤◌, ◌++◌, ◌∷◌, [], length};
ghost use Rattle.std.specs.Option.{option_map};
ghost use Rattle.arena_base.specs.Room.{FailsIfFull, FailsOnlyIfFull};
ghost use Rattle.chain_base.specs.Chain.{chain_limit, with_room};
ghost use Rattle.chain_base.specs.Insert.{placed, CanPlace, InsertsItem, IsInsertion, PutsBetween};

use super::ChainArena;
use super::links::relink;
use crate::link::LinkNoGen;
use arena_base::{BasePtr, InsertionError};
use std::alloc::Allocator;

/// Where a new entry goes in the list.
#[derive(Debug, PartialEq, Eq, Drop)]
pub enum LinkInsertKind<P: BasePtr> {
    /// As the only entry. The list must be empty.
    Disconnected,
    /// Directly after the entry at this index, which must have one.
    NextToInx(P::Inx),
    /// Directly before the entry at this index, which must have one.
    PrevToInx(P::Inx),
}

impl<P: BasePtr, T: Drop, A: Allocator> ChainArena<P, T, A> {
    /// Inserts `t` at the place that `kind` names, into the first slot of the free list, and returns its pointer. That is the slot freed
    /// last, else the least never used. The entry's generation is the arena's.
    ///
    /// # Errors
    ///
    /// The chain is unchanged and `t` is dropped.
    /// - `NotWithinCapacity`: no slot is vacant.
    #[inline(always)]
    pub fn insert_within_capacity(
        &mut self,
        kind: LinkInsertKind<P>,
        t: T,
    ) -> Result<P, InsertionError>
        requires { CanPlace P.Inx.number kind self.old }
        ensures { InsertsItem P.numbers self.old self.new
            (placed P.Inx.number kind self.old.entries) t result
            (FailsIfFull (length self.old.entries) self.old.capacity result (self.new ≡ self.old))
            (self.new.capacity ≡ self.old.capacity) }
    {
        if self.len() == self.capacity() {
            return Err(InsertionError::NotWithinCapacity);
        }
        Ok(self.insert_reserved(kind, t))
    }

    /// Inserts `t` behind the last entry, as `insert_within_capacity` does at a place, and returns its pointer.
    ///
    /// # Errors
    ///
    /// The chain is unchanged and `t` is dropped.
    /// - `NotWithinCapacity`: no slot is vacant.
    #[inline(always)]
    pub fn push_back_within_capacity(&mut self, t: T) -> Result<P, InsertionError>
        ensures { InsertsItem P.numbers self.old self.new (λ e. self.old.entries ++ e ∷ []) t result
            (FailsIfFull (length self.old.entries) self.old.capacity result (self.new ≡ self.old))
            (self.new.capacity ≡ self.old.capacity) }
    {
        let last = self.last;
        let p = self
            .arena
            .insert_within_capacity(LinkNoGen::new((last, None), t))?;
        let new = Some(p.inx());
        relink(
            &mut self.arena,
            last,
            new,
            new,
            None,
            &mut self.first,
            &mut self.last,
        );
        Ok(p)
    }

    /// Inserts `t`, as `insert_within_capacity` does, and grows first if no slot is vacant.
    ///
    /// Growing doubles the capacity, to at least 4 and at most the limit.
    ///
    /// # Errors
    ///
    /// The chain is unchanged and `t` is dropped.
    /// - `BeyondMaxCapacity`: the chain is full and its capacity is at the limit.
    /// - `AllocError`: growing failed.
    pub fn insert_reallocating(
        &mut self,
        kind: LinkInsertKind<P>,
        t: T,
    ) -> Result<P, InsertionError>
        requires { CanPlace P.Inx.number kind self.old }
        ensures { InsertsItem P.numbers (with_room P.Inx.most self.old) self.new
            (placed P.Inx.number kind self.old.entries) t result
            (FailsOnlyIfFull (length self.old.entries) self.old.capacity
            (chain_limit P.Inx.most self.old) result (self.new ≡ self.old))
            (self.old.capacity ≤ self.new.capacity) }
    {
        self.make_room()?;
        Ok(self.insert_reserved(kind, t))
    }
}

impl<P: BasePtr, T, A: Allocator> ChainArena<P, T, A> {
    /// Inserts `t` at the place that `kind` names, as `insert_within_capacity` does, and returns its pointer. A slot must be vacant, so
    /// the call can't fail.
    #[inline(always)]
    pub fn insert_reserved(&mut self, kind: LinkInsertKind<P>, t: T) -> P
        requires place { CanPlace P.Inx.number kind self.old }
        requires vacant { length self.old.entries < self.old.capacity }
        ensures inserted { IsInsertion self.old self.new
            (placed P.Inx.number kind self.old.entries) t (P.numbers result).0 (P.numbers result).1 }
        ensures capacity { self.new.capacity ≡ self.old.capacity }
    {
        let (prev, next) = self.neighbours(kind);
        let p = self.arena.insert_reserved(LinkNoGen::new((prev, next), t));
        let new = Some(p.inx());
        relink(
            &mut self.arena,
            prev,
            new,
            new,
            next,
            &mut self.first,
            &mut self.last,
        );
        p
    }

    // The neighbours of a new entry.
    fn neighbours(&self, kind: LinkInsertKind<P>) -> (Option<P::Inx>, Option<P::Inx>)
        requires { CanPlace P.Inx.number kind self.now }
        ensures { PutsBetween self.now.entries (placed P.Inx.number kind self.now.entries)
            (option_map P.Inx.number result.0) (option_map P.Inx.number result.1) }
    {
        match kind {
            LinkInsertKind::Disconnected => (None, None),
            LinkInsertKind::NextToInx(i) => (Some(i), self.link(i).next()),
            LinkInsertKind::PrevToInx(i) => (self.link(i).prev(), Some(i)),
        }
    }
}
