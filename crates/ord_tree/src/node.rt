//! `SimpleOrdArenaNode`: an item and its place in the tree.

ghost use Rattle.std.specs.Prelude.{◌≡◌, None, option_map};

use crate::node_inx::{NodeInx, kept};
use crate::tree_links::Side;
use arena_base::{BasePtr, OptInx};

/// What the chain stores for an entry of a tree: the item, and the links and rank of its node.
///
/// The links are indexes without generations, since a link always leads to an entry. The fields that a descent reads are adjacent, and an
/// empty link takes no extra space.
#[derive(Clone, Debug, Drop)]
pub struct SimpleOrdArenaNode<P: BasePtr, T> {
    /// The root of the lesser side, or `None` if that side is empty.
    pub p_tree0: OptInx<P>,
    /// The root of the greater side, or `None` if that side is empty.
    pub p_tree1: OptInx<P>,
    /// The item.
    pub t: T,
    /// The parent, or `None` at the root.
    pub p_back: OptInx<P>,
    /// The rank: 1 for a node without children, at most 126 ([`rank_law`](crate::laws::rank_law)).
    pub rank: u8,
}

impl<P: BasePtr, T> SimpleOrdArenaNode<P, T> {
    ghost use Rattle.ord_tree.specs.TreeLinks.{with_child_at};
    ghost use Rattle.ord_tree.specs.Node.{Relinks};

    /// Creates a node without children.
    pub(crate) fn leaf(p_back: Option<NodeInx<P::Inx>>, t: T) -> Self
        ensures { result ≡ record {
          p_tree0 = None;
          p_tree1 = None;
          t = t;
          p_back = option_map P.Inx.number p_back;
          rank = 1;
        } }
    {
        SimpleOrdArenaNode {
            p_tree0: OptInx::none(),
            p_tree1: OptInx::none(),
            t,
            p_back: kept(p_back),
            rank: 1,
        }
    }

    /// Returns a node with this item and the same links and rank.
    pub(crate) fn with_item<U>(&self, t: U) -> SimpleOrdArenaNode<P, U>
        ensures { result ≡ record {
          p_tree0 = self.now.p_tree0;
          p_tree1 = self.now.p_tree1;
          t = t;
          p_back = self.now.p_back;
          rank = self.now.rank;
        } }
    {
        SimpleOrdArenaNode {
            p_tree0: OptInx::new(self.p_tree0.get()),
            p_tree1: OptInx::new(self.p_tree1.get()),
            t,
            p_back: OptInx::new(self.p_back.get()),
            rank: self.rank,
        }
    }

    /// Replaces the root of a side.
    pub(crate) fn set_child(&mut self, side: Side, child: Option<NodeInx<P::Inx>>)
        ensures { Relinks (with_child_at side (option_map P.Inx.number child)) self.old self.new }
    {
        match side {
            Side::Lesser => self.p_tree0 = kept(child),
            Side::Greater => self.p_tree1 = kept(child),
        }
    }

    /// Replaces the root of a side, the parent and the rank.
    pub(crate) fn relink(
        &mut self,
        side: Side,
        child: Option<NodeInx<P::Inx>>,
        back: Option<NodeInx<P::Inx>>,
        rank: u8,
    )
        ensures { Relinks
            (λ n. record (with_child_at side (option_map P.Inx.number child) n) {
              back = option_map P.Inx.number back;
              rank = rank;
            }) self.old self.new }
    {
        self.set_child(side, child);
        self.p_back = kept(back);
        self.rank = rank;
    }
}
