//! Removing entries and invalidating pointers.

ghost use Rattle.std.specs.Prelude.{◌≡◌, OnSome, is_some};
ghost use Rattle.std.specs.Option.{option_map};
ghost use Rattle.chain_base.specs.Invalidation.{valid_value, allowed_value, is_overflow, IsRemoval, IsRenewal, IsSureRemoval, Raises};
ghost use Rattle.chain_base.specs.Chain.{IsOccupied, entry_at, item_of, removed, renewed, cleared};
ghost use Rattle.ord_tree.specs.Shape.{missing};
ghost use Rattle.ord_tree.specs.Tree.{IsShrunk};

use super::OrdTree;
use super::insert::neighbour;
use crate::detach::detach;
use crate::node::SimpleOrdArenaNode;
use crate::node_inx::node_at;
use crate::tree_links::Side;
use arena_base::{BasePtr, InvalidationOption, InvalidationResult};
use chain_base::LinkNoGen;
use std::alloc::Allocator;

impl<P: BasePtr, T, A: Allocator> OrdTree<P, T, A> {
    /// Removes the entry at an index, returns its generation and its item, and raises the generation.
    ///
    /// The next insertion takes its slot. Every other entry keeps its pointer, its item and its order. Returns `InvalidPtr` if there is
    /// no entry at the index; the tree is unchanged then.
    ///
    /// # Complexity
    ///
    /// O(log n), and no memory. At most nine nodes get a new parent. The amortized number of rank changes is at most 9.
    pub fn remove_inx(&mut self, i: P::Inx) -> InvalidationResult<(P::Gen, T)>
        ensures removal { IsRemoval P.Gen.greatest self.old.list.generation result
            (option_map (λ e. (P.Gen.number e.0, e.1)) (valid_value result))
            (entry_at self.old.list.entries (P.Inx.number i))
            (self.new.list ≡ removed P.Gen.greatest self.old.list (P.Inx.number i))
            (self.new ≡ self.old) }
        ensures shape { OnSome (valid_value result) (IsShrunk self.old.shape self.new.shape) }
    {
        if !self.chain.contains_inx(i) {
            return InvalidationResult::InvalidPtr;
        }
        self.remove_entry(i).valid()
    }

    /// Removes the entry at an occupied index, returns its generation and its item, and raises the generation.
    ///
    /// The next insertion takes its slot. Every other entry keeps its pointer, its item and its order.
    ///
    /// # Complexity
    ///
    /// O(log n), and no memory. At most nine nodes get a new parent. The amortized number of rank changes is at most 9.
    pub fn remove_entry(&mut self, i: P::Inx) -> InvalidationOption<(P::Gen, T)>
        requires { IsOccupied self.old.list (P.Inx.number i) }
        ensures removal { IsSureRemoval P.Gen.greatest self.old.list.generation result
            (P.Gen.number (allowed_value result).0, (allowed_value result).1)
            (entry_at self.old.list.entries (P.Inx.number i))
            (self.new.list ≡ removed P.Gen.greatest self.old.list (P.Inx.number i)) }
        ensures shape { IsShrunk self.old.shape self.new.shape }
    {
        // For the prover: the list is sound.
        prove!(self.chain.len() <= self.chain.capacity());
        let z = node_at(&self.chain, i);
        let before = neighbour(&self.chain, z, Side::Lesser);
        detach(&mut self.chain, &mut self.root, z, before);
        item_taken(self.chain.remove_entry(i))
    }

    /// Gives the entry that the pointer names a new pointer, with the same index and the raised generation. Its place and the shape stay.
    ///
    /// Returns `InvalidPtr` if the pointer names no entry; the tree is unchanged then.
    pub fn invalidate(&mut self, p: P) -> InvalidationResult<P>
        ensures { IsRenewal P.numbers P.Gen.greatest self.old.list.generation result (P.numbers p).0
            (is_some (item_of self.old.list.entries (P.numbers p)))
            (self.new ≡ record self.old {
              list = renewed P.Gen.greatest self.old.list (P.numbers p).0;
            }) (self.new ≡ self.old) }
    {
        self.chain.invalidate(p)
    }

    /// Drops all entries and raises the generation, once even if there were none. The capacity stays, and the free list is ascending, as
    /// if no slot had been used. Takes no memory.
    pub fn clear(&mut self) -> InvalidationOption<()>
    where
        T: Drop,
        ensures { Raises P.Gen.greatest self.old.list.generation result
            (self.new ≡ record { list = cleared P.Gen.greatest self.old.list; shape = missing }) }
    {
        self.root = None;
        self.chain.clear()
    }
}

// The chain's result, with the item alone in place of the node.
fn item_taken<P: BasePtr, T>(
    taken: InvalidationOption<(P::Gen, LinkNoGen<P, SimpleOrdArenaNode<P, T>>)>,
) -> InvalidationOption<(P::Gen, T)>
    ensures value { allowed_value result
        ≡ ((allowed_value taken).0, (allowed_value taken).1.item.t) }
    ensures overflow { is_overflow result ≡ is_overflow taken }
{
    taken.map(|(generation, link)| (generation, link.t.t))
}
