//! `LeafStore`: leaves in an index and in rows, whatever their order.
ghost use Rattle.std.specs.Prelude.{◌≡◌, ◌*◌, ◌+◌, ◌<◌, ◌≤◌, []};
ghost use Rattle.leaf_list.specs.Leaves.{greatest_number, AreApart};

mod change;
mod find;
mod neighbours;
mod read;
mod refill;
mod room;
mod write;

use leaf_row::{ROW, Row};
use std::alloc::Allocator;
use std::marker::Model;
use triple_ord::{BasePtr, BasePtrInx, OrdPair, SimpleOrdArena};

/// How many entries each leaf but the last has at least.
pub(crate) const LEAST: usize = 16;

/// How many entries a leaf has at most.
pub(crate) const CAPACITY: usize = ROW + 1;

/// Leaves in a list, each with a number that it keeps as long as it exists. Their entries are in any order.
#[derive(Drop)]
pub(crate) struct LeafStore<K, P: BasePtr, A: Allocator> {
    // The first entry of each leaf.
    index: SimpleOrdArena<P, OrdPair<K, P::Inx>, A>,
    // The other entries of each leaf, in the row of its number, counted from 1.
    rows: Vec<Row<K, P::Inx, A>, A>,
}

impl<K, P: BasePtr, A: Allocator> Model for LeafStore<K, P, A> {
    ghost use Rattle.leaf_list.specs.Leaves.{Leaves};

    ghost Value = { Leaves K };

    ghost use Rattle.leaf_list.specs.Layout.{leaves_of, AreStored};

    ghost view = { λ a. leaves_of P.Inx.number a.index a.rows.items };

    ghost invariant = { λ a. AreStored a.index a.rows.items };
}

impl<K, P: BasePtr, A: Allocator> LeafStore<K, P, A> {
    /// Creates a store without leaves. It allocates nothing.
    pub(crate) fn new(alloc: A) -> Self
    where
        A: Copy,
        ensures { result ≡ record { leaves = []; room = 0 } }
    {
        LeafStore {
            index: SimpleOrdArena::new(alloc),
            rows: Vec::new(alloc),
        }
    }

    /// Returns the room.
    pub(crate) fn room(&self) -> usize
        ensures value { result ≡ self.now.room }
        ensures numbers { 16 * greatest_number self.now.leaves ≤ self.now.room }
        ensures apart { AreApart self.now.leaves }
    {
        self.index.capacity() * LEAST
    }

    // The row of a leaf, which has its number, counted from 1.
    #[inline(always)]
    fn row_of(leaf: P::Inx) -> usize
        requires { 0 < P.Inx.number leaf }
        ensures { result + 1 ≡ P.Inx.number leaf }
    {
        leaf.try_into_usize().unwrap() - 1
    }
}
