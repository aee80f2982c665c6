//! Looking up nodes by index.

ghost use Rattle.std.specs.Prelude.{◌≡◌, None, MatchOption};
ghost use Rattle.chain_base.specs.Chain.{IsOccupied, entry_at};
ghost use Rattle.ord_tree.specs.Tree.{IsArenaBelow, ShowsNode};

use super::OrdTree;
use crate::node::SimpleOrdArenaNode;
use arena_base::{Arena, BasePtr};
use chain_base::LinkNoGen;
use std::alloc::Allocator;

impl<P: BasePtr, T, A: Allocator> OrdTree<P, T, A> {
    /// Returns the arena below the tree. Its slots hold the nodes with the links of the list, so it can be walked by index.
    pub fn arena(&self) -> &Arena<P, LinkNoGen<P, SimpleOrdArenaNode<P, T>>, A>
        ensures { IsArenaBelow self.now result.now }
    {
        self.chain().arena()
    }

    /// Returns the generation of the entry at an occupied index, and its node with the neighbours in the list. O(1).
    pub fn entry(&self, i: P::Inx) -> (P::Gen, &LinkNoGen<P, SimpleOrdArenaNode<P, T>>)
        requires { IsOccupied self.now.list (P.Inx.number i) }
        ensures { ShowsNode self.now (P.Inx.number i) (P.Gen.number result.0) result.1.now }
    {
        self.arena().entry(i)
    }

    /// Returns the generation of the entry at an index, and its node with the neighbours in the list, or `None` if there is no entry.
    /// O(1).
    pub fn get_inx_node(
        &self,
        i: P::Inx,
    ) -> Option<(P::Gen, &LinkNoGen<P, SimpleOrdArenaNode<P, T>>)>
        ensures { MatchOption result (entry_at self.now.list.entries (P.Inx.number i) ≡ None)
            (λ e. ShowsNode self.now (P.Inx.number i) (P.Gen.number e.0) e.1.now) }
    {
        self.arena().get_inx(i)
    }
}
