//! `SimpleOrdArena`: an arena in the order of keys.
ghost use Rattle.std.specs.Prelude.{◌≡◌, ◌==◌, length};
ghost use Rattle.ord_tree.specs.Generation.{IsLawfulGeneration, overflows_after};
ghost use Rattle.ord_tree.specs.Invalidation.{is_overflow};
ghost use Rattle.ord_tree.specs.Chain.{raised, IsSound};
ghost use Rattle.ord_tree.specs.Tree.{IsSoundTree, IsChainOf};
ghost use Rattle.triple_ord.specs.Arena.{Reads};

mod access;
mod append;
mod check;
mod clone;
mod clone_to;
mod compare;
mod debug;
mod drain;
mod entry;
mod find;
mod find_linear;
mod find_with;
mod growth;
mod insert;
mod insert_entry;
mod iter;
mod neighbours;
mod place;
mod prepare;
mod rebuild;
mod recast;
mod rekey;
mod remove;
mod slot_drain;
mod slots;
mod traits;
mod walk;
mod write;

use arena_base::{BasePtr, InvalidationOption};
use chain_base::ChainArena;
pub use drain::{CapacityDrain, OrderedDrain};
pub use insert_entry::SimpleOrdArenaInsertEntry;
pub use iter::Iter;
use ord_tree::{OrdTree, SimpleOrdArenaNode};
pub use slot_drain::Drain;
use std::alloc::{Allocator, Global};
use std::marker::Model;
pub use walk::OrderedPtrAdvancer;

/// Entries in the order of their keys. An entry is found in O(1) by its pointer, and in O(log n) by its key.
///
/// An entry keeps its pointer while others come and go. The entries form one list, with a rank-balanced tree over it (Haeupler, Sen and
/// Tarjan, "Rank-balanced trees", 2015). Nothing is assumed of the order of the keys. If it is broken, a search is as safe as ever: it
/// finds an entry with an equal key, or stops between two neighbours, the first with a smaller key and the second with a greater one.
///
/// In the examples of the calls `pairs` is an empty `SimpleOrdArena<P0, OrdPair<u64, &str>>`, as `SimpleOrdArena::new(rt.alloc())` makes it.
#[derive(Drop)]
pub struct SimpleOrdArena<P: BasePtr, T, A: Allocator = Global> {
    tree: OrdTree<P, T, A>,
}

impl<P: BasePtr, T, A: Allocator> Model for SimpleOrdArena<P, T, A> {
    ghost use Rattle.ord_tree.specs.Tree.{Tree, tree_code};

    ghost Value = { Tree T };

    ghost coded = { tree_code T.code };

    ghost view = { λ a. a.tree };
}

impl<P: BasePtr, T, A: Allocator> SimpleOrdArena<P, T, A> {
    /// Returns how many entries the arena holds without growing.
    pub fn capacity(&self) -> usize
        ensures { Reads P.Inx.most P.Gen.greatest self.now (result ≡ self.now.list.capacity) }
    {
        self.chain().capacity()
    }

    /// Returns the maximum that was set, if any. The capacity never exceeds it, nor what the pointers' indexes can name.
    pub fn max_capacity(&self) -> Option<usize>
        ensures { result ≡ self.now.list.maximum }
    {
        self.tree.chain().max_capacity()
    }

    /// Returns the number of entries.
    pub fn len(&self) -> usize
        ensures value { result ≡ length self.now.list.entries }
        ensures sound { IsSound P.Inx.most P.Gen.greatest self.now.list }
        ensures tree { IsSoundTree self.now }
    {
        self.tree.len()
    }

    /// Returns whether there are no entries.
    pub fn is_empty(&self) -> bool
        ensures { result ≡ (length self.now.list.entries == 0) }
    {
        self.tree.is_empty()
    }

    /// Returns the generation of the next entry.
    pub fn generation(&self) -> P::Gen
        ensures value { P.Gen.number result ≡ self.now.list.generation }
        ensures lawful { IsLawfulGeneration P.Gen.greatest self.now.list.generation }
    {
        self.tree.chain().generation()
    }

    /// Sets the generation of the next entry. Existing entries keep theirs.
    pub fn set_generation(&mut self, generation: P::Gen)
        requires { IsLawfulGeneration P.Gen.greatest (P.Gen.number generation) }
        ensures { self.new
            ≡ record self.old {
              list = record self.old.list { generation = P.Gen.number generation };
            } }
    {
        self.tree.set_generation(generation);
    }

    // The list under the tree, which is sound.
    fn chain(&self) -> &ChainArena<P, SimpleOrdArenaNode<P, T>, A>
        ensures { Reads P.Inx.most P.Gen.greatest self.now (IsChainOf self.now result.now) }
    {
        // For the prover: the list is sound.
        let _ = self.tree.len();
        self.tree.chain()
    }

    /// Raises the generation of the next entry. Existing entries keep theirs. The result says whether the generation overflowed.
    pub fn inc_generation(&mut self) -> InvalidationOption<()>
        ensures after { self.new
            ≡ record self.old { list = raised P.Gen.greatest self.old.list } }
        ensures overflow { is_overflow result
            ≡ overflows_after P.Gen.greatest self.old.list.generation }
    {
        self.tree.inc_generation()
    }
}
