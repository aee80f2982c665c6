//! `OrdPair`: a key with a value.
ghost use Rattle.std.specs.Prelude.{◌≡◌};
ghost use Rattle.std.specs.Borrow.{Lends, sem};

use crate::item::SimpleOrdItem;
use arena_base::{Recast, Recaster};
use std::marker::Model;
use std::{fmt, mem};

/// A key with a value that doesn't count in the order of an ordered arena.
///
/// The value can be written, but not the key: there is no `k_mut`. Pairs compare by their keys, then by their values.
#[derive(Clone, Copy, Hash, PartialEq, Eq, PartialOrd, Ord, Drop)]
pub struct OrdPair<K, V> {
    k: K,
    v: V,
}

impl<K, V> Model for OrdPair<K, V> {
    ghost Value = { K × V };

    ghost view = { λ p. (p.k, p.v) };

    ghost inverse = { λ p. record { k = p.0; v = p.1 } };
}

impl<K: Ord, V> SimpleOrdItem for OrdPair<K, V> {
    type Key = K;

    ghost key_of = { λ p. p.0 };

    fn key(&self) -> &K {
        self.k()
    }
}

/// A tuple as a pair.
impl<K, V> From<(K, V)> for OrdPair<K, V> {
    ghost from_gives = { λ tuple pair. pair ≡ tuple };

    fn from(tuple: (K, V)) -> Self {
        OrdPair::new(tuple.0, tuple.1)
    }
}

impl<K, V> OrdPair<K, V> {
    ghost use Rattle.triple_ord.specs.contracts.pair.OrdPair.{the_row};

    /// Creates the pair of the key `k` and the value `v`.
    pub fn new(k: K, v: V) -> Self
        ensures { result ≡ (k, v) }
    {
        OrdPair { k, v }
    }

    /// Returns the key.
    pub fn k(&self) -> &K
        ensures { result.now ≡ self.now.0 }
    {
        &self.k
    }

    /// Returns the value.
    pub fn v(&self) -> &V
        ensures { result.now ≡ self.now.1 }
    {
        &self.v
    }

    /// Returns the value for writing. The key stays.
    pub fn v_mut(&mut self) -> &mut V
        ensures* writes_back { sem 𝓛
            (Lends (the_row K.row V.row) V.row self.entry result (λ v. (self.old.0, v))) }
        ensures value { result.now ≡ self.old.1 }
    {
        &mut self.v
    }

    /// Returns the key and the value.
    pub fn k_v(&self) -> (&K, &V)
        ensures key { result.0.now ≡ self.now.0 }
        ensures value { result.1.now ≡ self.now.1 }
    {
        (&self.k, &self.v)
    }

    /// Returns the key, and the value for writing. The key stays.
    pub fn k_v_mut(&mut self) -> (&K, &mut V)
        ensures* writes_back { sem 𝓛
            (Lends (the_row K.row V.row) V.row self.entry result.1 (λ v. (self.old.0, v))) }
        ensures key { result.0.now ≡ self.old.0 }
        ensures value { result.1.now ≡ self.old.1 }
    {
        (&self.k, &mut self.v)
    }

    // Replaces the key and returns the old one. An arena does so when it moves the entry.
    pub(crate) fn replace_k(&mut self, k: K) -> K
        ensures before { result ≡ self.old.0 }
        ensures after { self.new ≡ (k, self.old.1) }
    {
        mem::replace(&mut self.k, k)
    }

    /// Returns the key and the value, and consumes the pair.
    pub fn into_k_v(self) -> (K, V)
        ensures { result ≡ (self.0, self.1) }
    {
        let OrdPair { k, v } = self;
        (k, v)
    }
}

impl<K: fmt::Debug, V: fmt::Debug> fmt::Debug for OrdPair<K, V> {
    fn fmt<W: fmt::Write>(&self, f: &mut fmt::Formatter<W>) -> fmt::Result {
        f.debug_tuple("").field(&self.k).field(&self.v).finish()
    }
}

/// Recasts the value; the key stays.
impl<I, K, V: Recast<I>> Recast<I> for OrdPair<K, V> {
    ghost recast_gives = { λ gives old result new.
        (new.0 ≡ old.0) × V.recast_gives gives old.1 result new.1 };

    fn recast<R: Recaster<Item = I>>(&mut self, recaster: &R) -> Result<(), I> {
        self.v.recast(recaster)
    }
}
