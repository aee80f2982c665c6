//! Rotations: the only steps of a repair that change the shape.

ghost use Rattle.std.specs.Prelude.{option_map};
ghost use Rattle.ord_tree.specs.Rotate.{Site, Rotates};

use crate::nodes::{Nodes, hang, replace_child};
use crate::tree_links::Side;

/// Lifts y, the child of z on a side, to the place of z, and gives each its new rank.
///
/// ```text
///         z                 y
///        / \               / \
///       y   far    ->  outer  z
///      / \                   / \
///  outer  inner          inner  far
/// ```
///
/// The other side is the mirror image.
#[inline(always)]
pub fn rotate<N: Nodes>(
    nodes: &mut N,
    root: &mut Option<N::Inx>,
    side: Side,
    z: N::Inx,
    y: N::Inx,
    rank_z: u8,
    rank_y: u8,
)
    requires { Site (N.at nodes.old) (option_map N.number root.old) side (N.number z) (N.number y) }
    ensures { Rotates side (N.number z) (N.number y) rank_z rank_y
        (N.at nodes.old) (N.at nodes.new) (option_map N.number root.old)
        (option_map N.number root.new) (N.list nodes.old) (N.list nodes.new) }
{
    let other = side.other();
    // For the prover: what `child` returns is a link of this node.
    let _ = nodes.links(y);
    let high = nodes.links(z);
    let inner = nodes.child(y, other);
    replace_child(nodes, root, high.back, z, Some(y));
    hang(nodes, inner, Some(z));
    nodes.relink(z, side, inner, Some(y), rank_z);
    nodes.relink(y, other, Some(z), high.back, rank_y);
}
