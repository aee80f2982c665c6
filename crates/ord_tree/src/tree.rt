//! `OrdTree`: a chain of entries with a balanced tree over it.

ghost use Rattle.std.specs.Prelude.{◌≡◌, ◌==◌, None, IfSome, is_some, length};
ghost use Rattle.std.specs.Option.{option_map};
ghost use Rattle.chain_base.specs.Generation.{IsLawfulGeneration};
ghost use Rattle.chain_base.specs.Chain.{raised, entry_at, next_index};
ghost use Rattle.chain_base.specs.Invalidation.{Raises};
ghost use Rattle.ord_tree.specs.Shape.{root_of};
ghost use Rattle.ord_tree.specs.Tree.{IsChainOf, IsSoundTree, Measures};

mod append;
mod clone;
mod growth;
mod insert;
mod lookup;
mod moving;
mod rebuild;
mod remove;
mod write;

use crate::node::SimpleOrdArenaNode;
use crate::node_inx::NodeInx;
use arena_base::{BasePtr, InvalidationOption};
use chain_base::ChainArena;
use std::alloc::{Allocator, Global};
use std::marker::Model;

/// A list of entries with a balanced tree over it. It knows no keys: a new entry is put beside a given entry.
///
/// The in-order traversal of the tree is the list. The tree is rank-balanced (Haeupler, Sen and Tarjan, "Rank-balanced trees", 2015,
/// ranks shifted by one): a missing node has rank 0, a node without children has rank 1, and a node's rank exceeds that of each side by 1
/// or 2. So a tree of n > 0 entries and rank R has `2^(R+1) <= (n+1)^2`, and no path down passes more than R entries.
#[derive(Drop)]
pub struct OrdTree<P: BasePtr, T, A: Allocator = Global> {
    chain: ChainArena<P, SimpleOrdArenaNode<P, T>, A>,
    root: Option<NodeInx<P::Inx>>,
}

impl<P: BasePtr, T, A: Allocator> Model for OrdTree<P, T, A> {
    ghost use Rattle.std.specs.Option.{option_map};
    ghost use Rattle.ord_tree.specs.Tree.{Tree, tree_code};

    ghost Value = { Tree T };

    ghost coded = { tree_code T.code };

    ghost use Rattle.ord_tree.specs.Layout.{tree_of, shape_in, IsLaidOut};

    ghost view = { λ t. tree_of t.chain (option_map P.Inx.number t.root) };

    ghost invariant = { λ t. IsLaidOut t.chain (option_map P.Inx.number t.root)
        (shape_in t.chain (option_map P.Inx.number t.root)) };
}

impl<P: BasePtr, T, A: Allocator> OrdTree<P, T, A> {
    /// Returns the list, with the links and ranks of its entries.
    pub fn chain(&self) -> &ChainArena<P, SimpleOrdArenaNode<P, T>, A>
        ensures chain { IsChainOf self.now result.now }
        ensures sound { IsSoundTree self.now }
    {
        &self.chain
    }

    /// Returns the pointer that the next insertion gives, if a slot is vacant. O(1).
    pub fn next_insertion_ptr(&self) -> Option<P>
        ensures index { option_map (λ p. (P.numbers p).0) result ≡ next_index self.now.list }
        ensures generation { IfSome result (λ p. (P.numbers p).1 ≡ self.now.list.generation) }
    {
        self.chain.arena().next_insertion_ptr()
    }

    /// Returns the number of entries.
    pub fn len(&self) -> usize
        ensures { Measures P.Inx.most P.Gen.greatest self.now result (length self.now.list.entries) }
    {
        self.chain.len()
    }

    /// Returns whether there are no entries.
    pub fn is_empty(&self) -> bool
        ensures { result ≡ (length self.now.list.entries == 0) }
    {
        self.len() == 0
    }

    /// Returns whether there is an entry at the index.
    pub fn contains_inx(&self, i: P::Inx) -> bool
        ensures { result ≡ is_some (entry_at self.now.list.entries (P.Inx.number i)) }
    {
        self.chain.contains_inx(i)
    }

    /// Returns the index of the root, or `None` if there are no entries.
    pub fn root(&self) -> Option<P::Inx>
        ensures { option_map P.Inx.number result ≡ root_of self.now.shape }
    {
        Some(self.root?.get())
    }

    /// Sets the generation of the next entry. Existing entries keep theirs.
    pub fn set_generation(&mut self, generation: P::Gen)
        requires { IsLawfulGeneration P.Gen.greatest (P.Gen.number generation) }
        ensures { self.new ≡ record self.old {
          list = record self.old.list { generation = P.Gen.number generation };
        } }
    {
        self.chain.set_generation(generation);
    }

    /// Raises the generation of the next entry. Existing entries keep theirs. The result says whether the generation overflowed.
    pub fn inc_generation(&mut self) -> InvalidationOption<()>
        ensures { Raises P.Gen.greatest self.old.list.generation result
            (self.new ≡ record self.old { list = raised P.Gen.greatest self.old.list }) }
    {
        self.chain.inc_generation()
    }
}
