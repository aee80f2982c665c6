//! Adding a leaf, and the repair that follows.

ghost use Rattle.std.specs.Prelude.{ℕ, ◌+◌, List, option_map};
ghost use Rattle.ord_tree.specs.Leaf.{IsNewLeaf, beside};
ghost use Rattle.ord_tree.specs.Potential.{potential};
ghost use Rattle.ord_tree.specs.Promote.{IsRepaired, Repairs};
ghost use Rattle.ord_tree.specs.Account.{IsSpelledWithin, rank_in};

use crate::nodes::Nodes;
use crate::promote::promote_all;
use crate::tree_links::Side;

/// Attaches the leaf x to a side of y that has no child, and repairs the ranks above it.
#[inline(always)]
pub fn add_leaf<N: Nodes>(
    nodes: &mut N,
    root: &mut Option<N::Inx>,
    side: Side,
    y: N::Inx,
    x: N::Inx,
)
    requires { (order : List ℕ) × (slack : ℕ)
        × IsNewLeaf (N.at nodes.old) (option_map N.number root.old) side
        (N.number y) (N.number x) order slack }
    ensures { Repairs
        (λ (o : List ℕ × ℕ). IsNewLeaf (N.at nodes.old) (option_map N.number root.old) side
        (N.number y) (N.number x) o.0 o.1)
        (λ o. IsRepaired (N.at nodes.old) (N.at nodes.new) (option_map N.number root.new)
        (beside side (N.number y) (N.number x) o.0) o.1)
        (λ o bud. IsSpelledWithin (rank_in bud.built.shape) (N.at nodes.new)
        (option_map N.number root.new)
        (beside side (N.number y) (N.number x) o.0) (potential bud.built.shape + 4))
        (N.list nodes.old) (N.list nodes.new) }
{
    nodes.set_child(y, side, Some(x));
    promote_all(nodes, root, x);
}
