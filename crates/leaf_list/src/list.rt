//! `LeafList`: entries in the order of their keys.
ghost use Rattle.std.specs.Prelude.{◌≡◌, []};
ghost use Rattle.leaf_list.specs.Leaves.{IsSound};

mod change;
mod read;
mod rename;
mod room;
mod search;

use crate::store::LeafStore;
use std::alloc::{Allocator, Global};
use std::marker::Model;
use triple_ord::{BasePtr, P0};

/// Keys in order, each with a name, in leaves of up to 32. Equal keys keep the order of their insertion.
///
/// Each leaf has a number, which it keeps as long as it exists. In contracts a list of leaves is the list of the leaves, each with its
/// number and its entries, and the number of entries that there is room for.
///
/// Only `reserve` and `clone` allocate. In the docs n is the number of entries.
#[derive(Drop)]
pub struct LeafList<K: Ord, P: BasePtr = P0, A: Allocator = Global> {
    store: LeafStore<K, P, A>,
}

impl<K: Ord, P: BasePtr, A: Allocator> Model for LeafList<K, P, A> {
    ghost use Rattle.leaf_list.specs.Leaves.{Leaves, AreOrdered};

    ghost Value = { Leaves K };

    ghost view = { λ a. a.store };

    ghost invariant = { λ a. AreOrdered K.cmp a.store.leaves };
}

impl<K: Ord, P: BasePtr, A: Allocator> LeafList<K, P, A> {
    /// Creates a list without entries and without room. It allocates nothing.
    pub fn new(alloc: A) -> Self
    where
        A: Copy,
        ensures { result ≡ record { leaves = []; room = 0 } }
    {
        LeafList {
            store: LeafStore::new(alloc),
        }
    }

    /// Returns how many entries there is room for. O(1).
    pub fn room(&self) -> usize
        ensures value { result ≡ self.now.room }
        ensures sound { IsSound K.cmp self.now }
    {
        self.store.room()
    }
}
