//! Writing items in place. The shape stays.

ghost use Rattle.std.specs.Prelude.{◌≡◌, ℕ, Option, Some, IsSome};
ghost use Rattle.std.specs.Option.{option_map};
ghost use Rattle.std.specs.Borrow.{sem, Lends};
ghost use Rattle.chain_base.specs.Chain.{entry_at};
ghost use Rattle.ord_tree.specs.Node.{entry_in};
ghost use Rattle.ord_tree.specs.Tree.{with_item};
ghost use Rattle.ord_tree.specs.Layout.{with_node_item};

use super::OrdTree;
use crate::node::SimpleOrdArenaNode;
use arena_base::{BasePtr, ItemsMut};
use chain_base::ChainArena;
use std::alloc::Allocator;

impl<P: BasePtr, T, A: Allocator> ItemsMut<P, T> for OrdTree<P, T, A> {
    ghost entry_at = { λ t. entry_at t.list.entries };

    ghost written = { with_item };

    fn contains_inx(&self, i: P::Inx) -> bool {
        self.contains_inx(i)
    }

    fn pair_mut(&mut self, i: P::Inx) -> (P::Gen, &mut T) {
        self.chain.node_item_mut(i)
    }
}

// A chain of nodes as a container of their items.
trait NodeItemsMut<P: BasePtr, T> {
    // The generation and the item of the node at an index.
    ghost item_at: { Self → ℕ → Option (ℕ × T) };

    // The nodes with another item in the one at an index.
    ghost written: { Self → ℕ → T → Self };

    // The generation and the item, open to writing, of the node at an occupied index.
    fn node_item_mut(&mut self, i: P::Inx) -> (P::Gen, &mut T)
        requires { IsSome (item_at self.old (P.Inx.number i)) }
        ensures* writes_back { sem 𝓛
            (Lends Self.row T.row self.entry result.1 (written self.old (P.Inx.number i))) }
        ensures value { item_at self.old (P.Inx.number i)
            ≡ Some (P.Gen.number result.0, result.1.now) };
}

impl<P: BasePtr, T, A: Allocator> NodeItemsMut<P, T>
    for ChainArena<P, SimpleOrdArenaNode<P, T>, A> {
    ghost item_at = { λ nodes i. option_map entry_in (entry_at nodes.entries i) };

    ghost written = { with_node_item };

    fn node_item_mut(&mut self, i: P::Inx) -> (P::Gen, &mut T) {
        let pair = self.pair_mut(i);
        let node = pair.1;
        (pair.0, &mut node.t)
    }
}
