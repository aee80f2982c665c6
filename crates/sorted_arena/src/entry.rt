//! A key's place in an arena: the first entry that has it, or none.

ghost use Rattle.std.specs.Prelude.{◌≡◌, ◌↔◌, Some, None, Err, IsSome, IfOk, OnOk, IfErr, OnErr};
ghost use Rattle.std.specs.Option.{option_map};
ghost use Rattle.sorted_arena.specs.Sorted.{count, get, with_entry, with_value, without_entry, IsFree};

use crate::arena::SortedArena;
use std::alloc::{Allocator, Global};
use std::mem;
use triple_ord::{BasePtr, P0, ReallocationError};

/// The place of a key, as [`entry`](SortedArena::entry) finds it. It borrows the arena.
#[derive(Drop)]
pub enum Entry<'a, K: Ord, V, P: BasePtr = P0, A: Allocator = Global> {
    /// An entry has an equal key: the first of them.
    Occupied(OccupiedEntry<'a, K, V, P, A>),
    /// No entry has this key.
    Vacant(VacantEntry<'a, K, V, P, A>),
}

/// The first entry with a key.
#[derive(Drop)]
pub struct OccupiedEntry<'a, K: Ord, V, P: BasePtr = P0, A: Allocator = Global> {
    pub(crate) arena: &'a mut SortedArena<K, V, P, A>,
    // the key that was sought, which equals the entry's
    pub(crate) key: K,
    pub(crate) pointer: P,
    ghost named: { IsSome (get arena.now (P.numbers pointer)) },
}

/// A key that no entry has.
#[derive(Drop)]
pub struct VacantEntry<'a, K: Ord, V, P: BasePtr = P0, A: Allocator = Global> {
    pub(crate) arena: &'a mut SortedArena<K, V, P, A>,
    pub(crate) key: K,
}

impl<'a, K: Ord, V, P: BasePtr, A: Allocator> OccupiedEntry<'a, K, V, P, A> {
    /// Returns the pointer of the entry.
    pub fn pointer(&self) -> P
        ensures { result ≡ self.now.pointer }
    {
        self.pointer
    }

    /// Returns the key of the entry.
    pub fn key(&self) -> &K
        ensures { option_map (λ e. e.0) (get self.now.arena.now (P.numbers self.now.pointer))
            ≡ Some result.now }
    {
        self.arena.get(self.pointer).unwrap().0
    }

    /// Returns the value of the entry.
    pub fn value(&self) -> &V
        ensures { option_map (λ e. e.1) (get self.now.arena.now (P.numbers self.now.pointer))
            ≡ Some result.now }
    {
        self.arena.get(self.pointer).unwrap().1
    }

    /// Replaces the value of the entry and returns the old one, in O(1).
    #[tactic(auto, using(crate::proofs::CallerLemmas::written))]
    pub fn set_value(&mut self, v: V) -> V
    where
        V: Drop,
        ensures same_arena { self.new.arena.ghost_name ≡ self.old.arena.ghost_name }
        ensures pointer { self.new.pointer ≡ self.old.pointer }
        ensures before { option_map (λ e. e.1)
            (get self.old.arena.now (P.numbers self.old.pointer)) ≡ Some result }
        ensures after { self.new.arena.now ≡ with_value self.old.arena.now
            (P.numbers self.old.pointer)
            (get self.old.arena.now (P.numbers self.old.pointer)) v }
    {
        mem::replace(self.arena.value_mut(self.pointer).unwrap(), v)
    }

    /// Removes the entry and returns its key and value, in O(log n).
    pub fn remove(self) -> (K, V)
    where
        K: Drop,
        ensures value { get self.entry.arena.now (P.numbers self.entry.pointer) ≡ Some result }
        ensures after { self.exit.0.now ≡ without_entry P.Gen.greatest self.entry.arena.now
            (P.numbers self.entry.pointer) }
    {
        let pointer = self.pointer;
        self.arena.remove(pointer).unwrap()
    }
}

impl<'a, K: Ord, V, P: BasePtr, A: Allocator> VacantEntry<'a, K, V, P, A> {
    /// Returns the key.
    pub fn key(&self) -> &K
        ensures { result.now ≡ self.now.key }
    {
        &self.key
    }

    /// Returns the key, and leaves the arena as it is.
    pub fn into_key(self) -> K
        ensures key { result ≡ self.entry.key }
        ensures unchanged { self.exit.0.now ≡ self.entry.arena.now }
    {
        self.key
    }

    /// Inserts an entry with the key, as [`insert`](SortedArena::insert) does, and returns its pointer. O(log n).
    ///
    /// # Errors
    ///
    /// Those of `insert`: the pair comes back, and the arena is unchanged.
    pub fn insert(self, v: V) -> Result<P, ((K, V), ReallocationError)>
    where
        K: Drop,
        V: Drop,
        ensures ok { IfOk result (λ p. self.exit.0.now ≡ with_entry K.cmp P.Inx.most
            self.entry.arena.now (P.numbers p) (self.entry.key, v)) }
        ensures free { IfOk result (λ p. IsFree self.entry.arena.now (P.numbers p)) }
        ensures back { IfErr result (λ e. e.0 ≡ (self.entry.key, v)) }
        ensures err { OnErr result (self.exit.0.now ≡ self.entry.arena.now) }
        ensures full { (result ≡ Err ((self.entry.key, v), ReallocationError.BeyondMaxCapacity))
            ↔ (count self.entry.arena.now ≡ P.Inx.most) }
        ensures memory { result ≡ Err ((self.entry.key, v), ReallocationError.AllocError)
            → count self.entry.arena.now ≡ self.entry.arena.now.capacity }
    {
        let VacantEntry { arena, key } = self;
        arena.insert(key, v)
    }
}
