//! Moving an entry in the list.

ghost use Rattle.std.specs.Prelude.{◌≡◌, ℕ, List, Option, Some};
ghost use Rattle.chain_base.specs.Chain.{IsOccupied};
ghost use Rattle.chain_base.specs.Move.{with_entry_moved, without_entry};
ghost use Rattle.ord_tree.specs.Node.{indexes, slots_of};
ghost use Rattle.ord_tree.specs.Tree.{put_on, CanPutAt};
ghost use Rattle.ord_tree.specs.Move.{IsRearranged, IsAside};
ghost use Rattle.ord_tree.specs.LeafBranch.{IsLeafBranch};

use super::OrdTree;
use super::insert::{kind_of, neighbour};
use crate::detach::detach;
use crate::leaf::add_leaf;
use crate::node::SimpleOrdArenaNode;
use crate::node_inx::{NodeInx, node_at};
use crate::nodes::Nodes;
use crate::tree_links::{Branch, Side, TreeLinks};
use arena_base::BasePtr;
use chain_base::ChainArena;
use std::alloc::Allocator;

impl<P: BasePtr, T, A: Allocator> OrdTree<P, T, A> {
    /// Moves the entry at `i` directly beside the other entry that `at` names, to the side in `at`. It keeps its pointer and its item.
    ///
    /// The other entries keep their order. If the entry is already at that place, the list is unchanged.
    ///
    /// # Complexity
    ///
    /// O(log n), and no memory. At most fifteen nodes get a new parent. The amortized number of rank changes is at most 14.
    pub fn move_beside(&mut self, i: P::Inx, at: (P::Inx, Side))
        requires entry { IsOccupied self.old.list (P.Inx.number i) }
        requires place { CanPutAt P.Inx.number (Some at) (without_entry self.old.list (P.Inx.number i)) }
        ensures list { self.new.list
            ≡ with_entry_moved self.old.list (P.Inx.number i) (put_on at.1 (P.Inx.number at.0)) }
        ensures shape { IsRearranged self.old.shape self.new.shape }
    {
        // For the prover: the list is sound.
        prove!(self.chain.len() <= self.chain.capacity());
        let z = node_at(&self.chain, i);
        let before = neighbour(&self.chain, z, Side::Lesser);
        detach(&mut self.chain, &mut self.root, z, before);
        self.chain.move_beside(i, kind_of(Some(at)));
        let y = node_at(&self.chain, at.0);
        let branch = branch_across(&self.chain, y, at.1, z);
        let leaf = TreeLinks {
            back: Some(branch.parent),
            lesser: None,
            greater: None,
            rank: 1,
        };
        self.chain.set_links(z, leaf);
        add_leaf(
            &mut self.chain,
            &mut self.root,
            branch.side,
            branch.parent,
            z,
        );
    }
}

// The branch for a leaf x that is in the list directly beside y, on that side, but not yet in the tree: that side of y if it is empty,
// else the facing side of x's neighbour on that side, which is then empty.
fn branch_across<P: BasePtr, T, A: Allocator>(
    chain: &ChainArena<P, SimpleOrdArenaNode<P, T>, A>,
    y: NodeInx<P::Inx>,
    side: Side,
    x: NodeInx<P::Inx>,
) -> Branch<NodeInx<P::Inx>>
    requires beside { IsOccupied chain.now (P.Inx.number y) }
    requires leaf { IsOccupied chain.now (P.Inx.number x) }
    requires aside { (root : Option ℕ) × (order : List ℕ)
        × IsAside (slots_of chain.now) root order (indexes chain.now.entries) side (P.Inx.number y) (P.Inx.number x) }
    ensures { (root : Option ℕ) (order : List ℕ)
        → IsAside (slots_of chain.now) root order (indexes chain.now.entries) side (P.Inx.number y) (P.Inx.number x)
        → IsLeafBranch P.Inx.number (P.Inx.number y) side (slots_of chain.now) order result }
{
    let links = chain.links(y);
    if links.child(side).is_none() {
        return Branch { parent: y, side };
    }
    let parent = neighbour(chain, x, side).unwrap();
    Branch {
        parent,
        side: side.other(),
    }
}
