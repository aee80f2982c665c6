//! The repair after a removal: demotions up the tree, then at most one single or double rotation.

ghost use Rattle.std.specs.Prelude.{ℕ, ◌+◌, List, option_map, MatchBool, MatchOption};
ghost use Rattle.ord_tree.specs.Promote.{IsRepaired, Repairs};
ghost use Rattle.ord_tree.specs.Demote.{IsFallen, IsLeaning, IsDemoted, HasDemoted};
ghost use Rattle.ord_tree.specs.Account.{IsSpelledWithin, IsDemotedWithin, IsFallenWithin, fallen_ranks, fallen_credit, leaning_ranks, leaning_credit};

use crate::nodes::{Nodes, branch_of, rank_of};
use crate::rotate::rotate;
use crate::tree_links::{Branch, Side};

/// Restores the rank rule at y, of rank r, if its child s has rank r-1 and its other side r-3. Returns whether y was demoted.
///
/// If the outer child of s has rank r-2, s takes the place of y.
///
/// ```text
///        y r                        s r
///       /   \                      /   \
///    r-3     s r-1      ->    y a+1     r-2
///           /   \             /   \
///          a     r-2       r-3     a
/// ```
///
/// If both children of s have rank r-3, s and y are demoted.
///
/// ```text
///        y r                  y r-1
///       /   \                /     \
///    r-3     s r-1   ->   r-3       s r-2
///           /   \                  /     \
///        r-3     r-3            r-3       r-3
/// ```
///
/// Otherwise the inner child of s takes the place of y.
///
/// ```text
///        y r                          a r
///       /   \                       /     \
///    r-3     s r-1      ->      y r-2      s r-2
///           /   \               /   \      /   \
///      a r-2     r-3         r-3     b    c     r-3
///       /  \
///      b    c
/// ```
pub fn demote_or_rotate<N: Nodes>(
    nodes: &mut N,
    root: &mut Option<N::Inx>,
    side: Side,
    y: N::Inx,
    s: N::Inx,
) -> bool
    requires { (order : List ℕ)
        × IsLeaning (N.at nodes.old) (option_map N.number root.old) side
        (N.number y) (N.number s) order }
    ensures { Repairs
        (IsLeaning (N.at nodes.old) (option_map N.number root.old) side (N.number y) (N.number s))
        (λ order. MatchBool result
        (IsDemoted (N.at nodes.old) (N.at nodes.new)
        (option_map N.number root.new) (N.number y) order)
        (IsRepaired (N.at nodes.old) (N.at nodes.new) (option_map N.number root.new) order 1))
        (λ order lean. MatchBool result
        (IsDemotedWithin (leaning_ranks lean) (N.at nodes.new) (option_map N.number root.new)
        (N.number y) order (leaning_credit lean))
        (IsSpelledWithin (leaning_ranks lean) (N.at nodes.new) (option_map N.number root.new) order
        (leaning_credit lean + 7)))
        (N.list nodes.old) (N.list nodes.new) }
{
    let other = side.other();
    let rank = nodes.links(y).rank;
    let links = nodes.links(s);
    let outer = rank_of(nodes, nodes.child(s, side));
    let inner = rank_of(nodes, nodes.child(s, other));
    if links.rank - outer == 1 {
        rotate(nodes, root, side, y, s, inner + 1, rank);
        return false;
    }
    if links.rank - inner == 2 {
        nodes.set_rank(s, links.rank - 1);
        nodes.set_rank(y, rank - 1);
        return true;
    }
    let a = nodes.child(s, other).unwrap();
    rotate(nodes, root, other, s, a, inner, rank);
    rotate(nodes, root, side, y, a, inner, rank);
    false
}

/// Restores the rank rule at y, one side of which has fallen by one. Returns whether y was demoted.
pub fn demote<N: Nodes>(nodes: &mut N, root: &mut Option<N::Inx>, y: N::Inx, side: Side) -> bool
    requires { (order : List ℕ)
        × IsFallen (N.at nodes.old) (option_map N.number root.old) (N.number y) side order }
    ensures { Repairs
        (IsFallen (N.at nodes.old) (option_map N.number root.old) (N.number y) side)
        (λ order. MatchBool result
        (IsDemoted (N.at nodes.old) (N.at nodes.new)
        (option_map N.number root.new) (N.number y) order)
        (IsRepaired (N.at nodes.old) (N.at nodes.new) (option_map N.number root.new) order 1))
        (λ order fallen. MatchBool result
        (IsDemotedWithin (fallen_ranks fallen) (N.at nodes.new) (option_map N.number root.new)
        (N.number y) order (fallen_credit fallen))
        (IsSpelledWithin (fallen_ranks fallen) (N.at nodes.new) (option_map N.number root.new) order
        (fallen_credit fallen + 7)))
        (N.list nodes.old) (N.list nodes.new) }
{
    let links = nodes.links(y);
    let low = rank_of(nodes, nodes.child(y, side));
    let other = side.other();
    let Some(s) = nodes.child(y, other) else {
        nodes.set_rank(y, 1);
        return true;
    };
    if links.rank - low <= 2 {
        return false;
    }
    let sibling = nodes.links(s).rank;
    if links.rank - sibling == 2 {
        nodes.set_rank(y, links.rank - 1);
        return true;
    }
    demote_or_rotate(nodes, root, other, y, s)
}

/// Does one step of the repair at a node one side of which has fallen by one. Returns the node's own branch if it has now fallen.
pub fn demote_next<N: Nodes>(
    nodes: &mut N,
    root: &mut Option<N::Inx>,
    branch: Branch<N::Inx>,
) -> Option<Branch<N::Inx>>
    requires { (order : List ℕ)
        × IsFallen (N.at nodes.old) (option_map N.number root.old)
        (N.number branch.parent) branch.side order }
    ensures { Repairs
        (IsFallen (N.at nodes.old) (option_map N.number root.old)
        (N.number branch.parent) branch.side)
        (λ order. MatchOption result
        (IsRepaired (N.at nodes.old) (N.at nodes.new) (option_map N.number root.new) order 1)
        (λ next. HasDemoted (N.at nodes.old) (N.at nodes.new) (option_map N.number root.new)
        (N.number branch.parent) (N.number next.parent) next.side order))
        (λ order fallen. MatchOption result
        (IsSpelledWithin (fallen_ranks fallen) (N.at nodes.new) (option_map N.number root.new) order
        (fallen_credit fallen + 7))
        (λ next. IsFallenWithin (fallen_ranks fallen) (N.at nodes.new)
        (option_map N.number root.new) (N.number next.parent) next.side order
        (fallen_credit fallen)))
        (N.list nodes.old) (N.list nodes.new) }
{
    if !demote(nodes, root, branch.parent, branch.side) {
        return None;
    }
    branch_of(nodes, branch.parent)
}

/// Repairs the tree, starting at a branch that has fallen by one.
pub fn demote_all<N: Nodes>(nodes: &mut N, root: &mut Option<N::Inx>, fallen: Branch<N::Inx>)
    requires { (order : List ℕ)
        × IsFallen (N.at nodes.old) (option_map N.number root.old)
        (N.number fallen.parent) fallen.side order }
    ensures { Repairs
        (IsFallen (N.at nodes.old) (option_map N.number root.old)
        (N.number fallen.parent) fallen.side)
        (λ order. IsRepaired (N.at nodes.old) (N.at nodes.new)
        (option_map N.number root.new) order 1)
        (λ order first. IsSpelledWithin (fallen_ranks first) (N.at nodes.new)
        (option_map N.number root.new) order (fallen_credit first + 7))
        (N.list nodes.old) (N.list nodes.new) }
{
    let mut branch = fallen;
    while let Some(next) = demote_next(nodes, root, branch) {
        branch = next;
    }
}
