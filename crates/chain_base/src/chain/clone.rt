//! Clones of other chains, with their pointers and their order.
ghost use Rattle.std.specs.Prelude.{◌≡◌};
ghost use Rattle.arena_base.specs.Clone.{Grants};
ghost use Rattle.arena_base.specs.Room.{Reallocates, ClonesBy, ClonesOrFails};
ghost use Rattle.chain_base.specs.Chain.{chain_limit, greatest_index, IsSound};
ghost use Rattle.chain_base.specs.Clone.{IsClone, IsRefusedClone, ShowsLink};

use super::ChainArena;
use crate::link::LinkNoGen;
use arena_base::{BasePtr, CloneEntry, ReallocationError};
use std::alloc::{AllocError, Allocator};

impl<P: BasePtr, T: Drop, A: Allocator> ChainArena<P, T, A> {
    /// Makes this chain a clone of `source`: it has the source's pointers, order and generation, and items made by `map`. Its own entries
    /// are dropped.
    ///
    /// `map` is called for each entry of the source, in index order, with its pointer, a reference to its item, and the indexes of the
    /// entries before and after it. If the capacity is less than the source's greatest index, it grows to that first. The maximum stays,
    /// and the free list is ascending, as if no slot had been used. One pass over the slots of both.
    ///
    /// # Errors
    ///
    /// The chain is unchanged, and `map` isn't called.
    /// - `BeyondMaxCapacity`: the source's greatest index is beyond this chain's limit.
    /// - `AllocError`: growing failed.
    pub fn clone_from_with<
        U,
        B: Allocator + Copy,
        F: FnMut(P, &U, (Option<P::Inx>, Option<P::Inx>)) -> T + Drop,
    >(&mut self, source: &ChainArena<P, U, B>, map: F) -> Result<(), ReallocationError>
        requires { F.IsAlwaysCallable map }
        ensures { Reallocates (chain_limit P.Inx.most self.old) self.old.capacity
            (greatest_index source.now.entries) result
            ((last : F) × IsClone P.numbers (ShowsLink P.Inx.number F.step) map
            source.now self.old self.new last) (self.new ≡ self.old) }
    {
        let mut calls = ShowLink { f: map };
        self.clone_by(source, &mut calls)
    }

    /// Makes this chain a clone of `source`, as `clone_from_with` does. `map` may be refused memory for an item.
    ///
    /// # Errors
    ///
    /// - `BeyondMaxCapacity`: the source's greatest index is beyond this chain's limit. The chain is unchanged.
    /// - `AllocError`: growing failed, and the chain is unchanged. Or `map` was refused memory, which ends the call: the chain is empty,
    ///   with the source's generation and the capacity of a clone.
    pub fn try_clone_from_with<
        U,
        B: Allocator + Copy,
        F: FnMut(P, &U, (Option<P::Inx>, Option<P::Inx>)) -> Result<T, AllocError> + Drop,
    >(&mut self, source: &ChainArena<P, U, B>, map: F) -> Result<(), ReallocationError>
        requires { F.IsAlwaysCallable map }
        ensures { ClonesOrFails (chain_limit P.Inx.most self.old) self.old.capacity
            (greatest_index source.now.entries) result
            ((last : F) × IsClone P.numbers (Grants P.numbers (ShowsLink P.Inx.number F.step)) map
            source.now self.old self.new last)
            (self.new ≡ self.old)
            ((last : F) × IsRefusedClone P.numbers (ShowsLink P.Inx.number F.step) map
            source.now self.old self.new last) }
    {
        let mut calls = TryShowLink { f: map };
        self.clone_by(source, &mut calls)
    }

    /// Makes this chain a clone of `source`, as `try_clone_from_with` does, with `map` in place of the closure.
    ///
    /// `map` is left in the state after the call for the last entry, or after the refused call. It is unchanged if growing fails or the
    /// index is beyond the limit.
    pub fn clone_by<U, B: Allocator + Copy, M: CloneEntry<P, LinkNoGen<P, U>, T>>(
        &mut self,
        source: &ChainArena<P, U, B>,
        map: &mut M,
    ) -> Result<(), ReallocationError>
        requires { M.callable map.old }
        ensures { ClonesBy (chain_limit P.Inx.most self.old) self.old.capacity
            (greatest_index source.now.entries) result (M.callable map.new)
            (IsSound P.Inx.most P.Gen.greatest source.now)
            (IsClone P.numbers (Grants P.numbers M.step) map.old source.now self.old self.new map.new)
            ((self.new ≡ self.old) × (map.new ≡ map.old))
            (IsRefusedClone P.numbers M.step map.old source.now self.old self.new map.new) }
    {
        // For the prover: the list is sound.
        let _ = source.len();
        let mut link = CloneLink { map };
        let cloned = self.arena.clone_by(&source.arena, &mut link);
        match cloned {
            Ok(()) => {
                self.first = source.first;
                self.last = source.last;
            }
            // An item was refused, or nothing changed.
            Err(_) => if self.arena.is_empty() {
                self.first = None;
                self.last = None;
            },
        }
        cloned
    }
}

/// Makes a link of a clone, with the neighbours of the source's link.
#[doc(hidden)]
#[derive(Drop)]
pub struct CloneLink<'a, M> {
    map: &'a mut M,
}

impl<'a, P: BasePtr, T, U, M: CloneEntry<P, LinkNoGen<P, U>, T>> CloneEntry<
    P,
    LinkNoGen<P, U>,
    LinkNoGen<P, T>,
> for CloneLink<'a, M> {
    ghost use Rattle.std.specs.Prelude.{◌≡◌, MatchResult, Err};
    ghost use Rattle.chain_base.specs.Clone.{ClonesLink};

    ghost callable = { λ m. M.callable m.map.now };

    ghost step = { λ m p link answer n. (n.map.ghost_name ≡ m.map.ghost_name)
        × MatchResult answer
        (λ new. ClonesLink M.step m.map.now p link new n.map.now)
        (λ refusal. M.step m.map.now p link (Err refusal) n.map.now) };

    fn clone_entry(&mut self, p: P, link: &LinkNoGen<P, U>) -> Result<LinkNoGen<P, T>, AllocError> {
        let item = self.map.clone_entry(p, link)?;
        Ok(LinkNoGen::new(link.prev_next(), item))
    }
}

/// A closure that is shown the parts of a link, and makes the items of a clone.
#[doc(hidden)]
#[derive(Drop)]
pub struct ShowLink<F> {
    f: F,
}

impl<P: BasePtr, U, T, F: FnMut(P, &U, (Option<P::Inx>, Option<P::Inx>)) -> T> CloneEntry<
    P,
    LinkNoGen<P, U>,
    T,
> for ShowLink<F> {
    ghost use Rattle.std.specs.Prelude.{MatchResult};
    ghost use Rattle.chain_base.specs.Clone.{ShowsLink};

    ghost callable = { λ c. F.IsAlwaysCallable c.f };

    ghost step = { λ c p link answer d.
        MatchResult answer (λ made. ShowsLink P.Inx.number F.step c.f p link made d.f)
        (λ refusal. ⊥) };

    fn clone_entry(&mut self, p: P, link: &LinkNoGen<P, U>) -> Result<T, AllocError> {
        let neighbours = link.prev_next();
        Ok((self.f)(p, &link.t, neighbours))
    }
}

/// Such a closure, which may be refused memory.
#[doc(hidden)]
#[derive(Drop)]
pub struct TryShowLink<F> {
    f: F,
}

impl<
    P: BasePtr,
    U,
    T,
    F: FnMut(P, &U, (Option<P::Inx>, Option<P::Inx>)) -> Result<T, AllocError>,
> CloneEntry<P, LinkNoGen<P, U>, T> for TryShowLink<F> {
    ghost use Rattle.chain_base.specs.Clone.{ShowsLink};

    ghost callable = { λ c. F.IsAlwaysCallable c.f };

    ghost step = { λ c p link answer d. ShowsLink P.Inx.number F.step c.f p link answer d.f };

    fn clone_entry(&mut self, p: P, link: &LinkNoGen<P, U>) -> Result<T, AllocError> {
        let neighbours = link.prev_next();
        (self.f)(p, &link.t, neighbours)
    }
}
