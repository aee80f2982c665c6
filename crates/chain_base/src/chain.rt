//! `ChainArena`: an arena whose entries are linked into one list.
ghost use Rattle.std.specs.Prelude.{◌≡◌, ◌==◌, length};
ghost use Rattle.arena_base.specs.Generation.{IsLawfulGeneration};
ghost use Rattle.arena_base.specs.Invalidation.{Raises};
ghost use Rattle.chain_base.specs.Chain.{raised, IsSound, IsArenaOf};

mod canonical;
mod clone;
mod compress;
mod get;
mod growth;
pub mod insert;
mod links;
mod moving;
mod remove;
mod transfer;
pub mod walk;
mod write;

use crate::link::LinkNoGen;
use arena_base::{Arena, BasePtr, InvalidationOption};
use std::alloc::{Allocator, Global};
use std::marker::Model;

/// A list of entries, each found by its pointer in O(1), and linked to the entries before and after it.
///
/// An entry keeps its pointer while others come and go. Each call takes O(1), except clones, compressions, transfers, `clear`, growing,
/// and the two calls that look for an index.
#[derive(Drop)]
pub struct ChainArena<P: BasePtr, T, A: Allocator = Global> {
    arena: Arena<P, LinkNoGen<P, T>, A>,
    first: Option<P::Inx>,
    last: Option<P::Inx>,
}

impl<P: BasePtr, T, A: Allocator> Model for ChainArena<P, T, A> {
    ghost use Rattle.std.specs.Option.{option_map};
    ghost use Rattle.chain_base.specs.Chain.{Chain};

    ghost Value = { Chain T };

    ghost use Rattle.chain_base.specs.Layout.{chain_of, IsLaidOut};

    ghost view = { λ c. chain_of c.arena (option_map P.Inx.number c.first) };

    ghost invariant = { λ c. IsLaidOut c.arena.slots (option_map P.Inx.number c.first)
        (option_map P.Inx.number c.last)
        (chain_of c.arena (option_map P.Inx.number c.first)).entries };
}

impl<P: BasePtr, T, A: Allocator> ChainArena<P, T, A> {
    /// Returns how many entries the arena holds without growing.
    pub fn capacity(&self) -> usize
        ensures { result ≡ self.now.capacity }
    {
        self.arena.capacity()
    }

    /// Returns the maximum that was set, if any. The capacity never exceeds it, nor the greatest index of an entry.
    pub fn max_capacity(&self) -> Option<usize>
        ensures { result ≡ self.now.maximum }
    {
        self.arena.max_capacity()
    }

    /// Returns the number of entries.
    pub fn len(&self) -> usize
        ensures value { result ≡ length self.now.entries }
        ensures sound { IsSound P.Inx.most P.Gen.greatest self.now }
    {
        self.arena.len()
    }

    /// Returns whether there are no entries.
    pub fn is_empty(&self) -> bool
        ensures { result ≡ (length self.now.entries == 0) }
    {
        self.len() == 0
    }

    /// Returns the generation that the next entry gets.
    pub fn generation(&self) -> P::Gen
        ensures value { P.Gen.number result ≡ self.now.generation }
        ensures lawful { IsLawfulGeneration P.Gen.greatest self.now.generation }
    {
        self.arena.generation()
    }

    /// Returns the allocator handle that the arena keeps for growing.
    ///
    /// It has no clause: a chain's value in contracts has no allocator, and a clause can't distinguish two handles of one type.
    pub fn alloc(&self) -> A
    where
        A: Copy,
    {
        self.arena.alloc()
    }

    /// Returns the arena under the chain. Its slots hold the entries with the links to their neighbours. It finds entries by index, and
    /// has the pointer that the next insertion gives.
    pub fn arena(&self) -> &Arena<P, LinkNoGen<P, T>, A>
        ensures { IsArenaOf self.now result.now }
    {
        &self.arena
    }

    /// Sets the generation, which must be lawful. Entries keep theirs.
    pub fn set_generation(&mut self, generation: P::Gen)
        requires { IsLawfulGeneration P.Gen.greatest (P.Gen.number generation) }
        ensures { self.new ≡ record self.old { generation = P.Gen.number generation } }
    {
        self.arena.set_generation(generation);
    }

    /// Raises the generation. Entries keep theirs. After the greatest comes the first again, which is an overflow.
    pub fn inc_generation(&mut self) -> InvalidationOption<()>
        ensures { Raises P.Gen.greatest self.old.generation result
            (self.new ≡ raised P.Gen.greatest self.old) }
    {
        self.arena.inc_generation()
    }
}
