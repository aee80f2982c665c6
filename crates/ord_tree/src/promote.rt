//! The repair after an insertion: promotions up the tree, then at most one single or double rotation.

ghost use Rattle.std.specs.Prelude.{ℕ, ◌+◌, List, option_map, MatchOption};
ghost use Rattle.ord_tree.specs.Promote.{IsRising, IsSteep, IsRepaired, IsPromoted, Repairs};
ghost use Rattle.ord_tree.specs.Account.{IsSpelledWithin, IsRisingWithin, rising_ranks, rising_credit, steep_ranks, steep_credit};

use crate::nodes::{Nodes, rank_of, side_of};
use crate::rotate::rotate;
use crate::tree_links::Side;

/// Restores the rank rule at z by a rotation: its child y has z's rank r, and its other side has rank r-2.
///
/// If the outer child of y is the higher one, y takes the place of z.
///
/// ```text
///            z r                      y r
///           /   \                    /   \
///        y r    r-2     ->        r-1     z r-1
///       /   \                            /     \
///    r-1     r-2                       r-2     r-2
/// ```
///
/// If the inner child is the higher one, it takes the place of z.
///
/// ```text
///            z r                        x r
///           /   \                      /   \
///        y r    r-2     ->        y r-1     z r-1
///       /   \                     /   \     /   \
///    r-2     x r-1              r-2    a   b    r-2
///           /  \
///          a    b
/// ```
pub fn rotate_once_or_twice<N: Nodes>(
    nodes: &mut N,
    root: &mut Option<N::Inx>,
    side: Side,
    z: N::Inx,
    y: N::Inx,
)
    requires { (order : List ℕ) × (slack : ℕ)
        × IsSteep (N.at nodes.old) (option_map N.number root.old) side
        (N.number z) (N.number y) order slack }
    ensures { Repairs
        (λ (o : List ℕ × ℕ). IsSteep (N.at nodes.old) (option_map N.number root.old) side
        (N.number z) (N.number y) o.0 o.1)
        (λ o. IsRepaired (N.at nodes.old) (N.at nodes.new) (option_map N.number root.new) o.0 o.1)
        (λ o steep. IsSpelledWithin (steep_ranks steep) (N.at nodes.new)
        (option_map N.number root.new) o.0 (steep_credit steep + 3))
        (N.list nodes.old) (N.list nodes.new) }
{
    let low = nodes.links(y);
    let outer = rank_of(nodes, nodes.child(y, side));
    if low.rank - outer == 1 {
        rotate(nodes, root, side, z, y, outer, low.rank);
        return;
    }
    let other = side.other();
    let x = nodes.child(y, other).unwrap();
    let rank = nodes.links(x).rank;
    rotate(nodes, root, other, y, x, rank, low.rank);
    rotate(nodes, root, side, z, x, rank, low.rank);
}

/// Does one step of the repair after y has risen by one. Returns the parent if it has now risen.
#[inline(always)]
pub fn promote<N: Nodes>(nodes: &mut N, root: &mut Option<N::Inx>, y: N::Inx) -> Option<N::Inx>
    requires { (order : List ℕ) × (slack : ℕ)
        × IsRising (N.at nodes.old) (option_map N.number root.old) (N.number y) order slack }
    ensures { Repairs
        (λ (o : List ℕ × ℕ). IsRising (N.at nodes.old) (option_map N.number root.old)
        (N.number y) o.0 o.1)
        (λ o. MatchOption result
        (IsRepaired (N.at nodes.old) (N.at nodes.new) (option_map N.number root.new) o.0 o.1)
        (λ z. IsPromoted (N.at nodes.old) (N.at nodes.new) (option_map N.number root.new)
        (N.number y) (N.number z) o.0 o.1))
        (λ o rising. MatchOption result
        (IsSpelledWithin (rising_ranks rising) (N.at nodes.new) (option_map N.number root.new) o.0
        (rising_credit rising + 3))
        (λ z. IsRisingWithin (rising_ranks rising) (N.at nodes.new) (option_map N.number root.new)
        (N.number z) o.0 o.1 (rising_credit rising)))
        (N.list nodes.old) (N.list nodes.new) }
{
    let low = nodes.links(y);
    let Some(z) = low.back else {
        return None;
    };
    let high = nodes.links(z);
    if high.rank > low.rank {
        return None;
    }
    let side = side_of::<N>(&high, y);
    let sibling = rank_of(nodes, nodes.child(z, side.other()));
    if high.rank - sibling == 1 {
        nodes.set_rank(z, high.rank + 1);
        return Some(z);
    }
    rotate_once_or_twice(nodes, root, side, z, y);
    None
}

/// Repairs the tree, starting at a node that has risen by one.
#[inline(always)]
pub fn promote_all<N: Nodes>(nodes: &mut N, root: &mut Option<N::Inx>, y: N::Inx)
    requires { (order : List ℕ) × (slack : ℕ)
        × IsRising (N.at nodes.old) (option_map N.number root.old) (N.number y) order slack }
    ensures { Repairs
        (λ (o : List ℕ × ℕ). IsRising (N.at nodes.old) (option_map N.number root.old)
        (N.number y) o.0 o.1)
        (λ o. IsRepaired (N.at nodes.old) (N.at nodes.new) (option_map N.number root.new) o.0 o.1)
        (λ o rising. IsSpelledWithin (rising_ranks rising) (N.at nodes.new)
        (option_map N.number root.new) o.0 (rising_credit rising + 3))
        (N.list nodes.old) (N.list nodes.new) }
{
    let mut rising = y;
    while let Some(z) = promote(nodes, root, rising) {
        rising = z;
    }
}
