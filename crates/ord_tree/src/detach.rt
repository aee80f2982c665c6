//! Removing a node from the tree, and the repair that follows.

ghost use Rattle.std.specs.Prelude.{◌≡◌, ℕ, ◌+◌, None, Some, List, option_map, is_some, IsSomeAnd, MatchOption};
ghost use Rattle.ord_tree.specs.Shape.{Shape};
ghost use Rattle.ord_tree.specs.Potential.{potential};
ghost use Rattle.ord_tree.specs.Promote.{IsBuilt};
ghost use Rattle.ord_tree.specs.Demote.{IsFallen};
ghost use Rattle.ord_tree.specs.Account.{IsSpelledWithin, IsFallenWithin, ranks_without};
ghost use Rattle.ord_tree.specs.Detach.{without, stand_in, IsLoose, CanStandIn, StandsIn, IsDetachable, TakesOut};

use crate::demote::demote_all;
use crate::nodes::{Nodes, branch_of, hang, replace_child};
use crate::tree_links::{Branch, Side};

/// Takes v, which has no child on side `bare`, out of the tree. Its other child, if any, takes its place.
///
/// Returns that branch, which has fallen by one, or `None` if it is the root's.
#[inline(always)]
pub fn cut<N: Nodes>(
    nodes: &mut N,
    root: &mut Option<N::Inx>,
    v: N::Inx,
    bare: Side,
) -> Option<Branch<N::Inx>>
    requires { (order : List ℕ)
        × IsLoose (N.at nodes.old) (option_map N.number root.old) (N.number v) bare order }
    ensures taken { TakesOut
        (IsLoose (N.at nodes.old) (option_map N.number root.old) (N.number v) bare)
        (λ order. MatchOption result
        (IsBuilt (N.at nodes.new) (option_map N.number root.new) (without (N.number v) order) 1)
        (λ branch. IsFallen (N.at nodes.new) (option_map N.number root.new)
        (N.number branch.parent) branch.side (without (N.number v) order)))
        (λ order loose. MatchOption result
        (IsSpelledWithin (ranks_without (N.number v) loose.built.shape) (N.at nodes.new)
        (option_map N.number root.new) (without (N.number v) order)
        (potential loose.built.shape + 1))
        (λ branch. IsFallenWithin (ranks_without (N.number v) loose.built.shape) (N.at nodes.new)
        (option_map N.number root.new) (N.number branch.parent) branch.side
        (without (N.number v) order) (potential loose.built.shape + 1)))
        1 (N.at nodes.old) (N.at nodes.new) (N.list nodes.old) (N.list nodes.new) }
    ensures occupied { (j : ℕ) → is_some (N.at nodes.new j) ≡ is_some (N.at nodes.old j) }
{
    let links = nodes.links(v);
    let branch = branch_of(nodes, v);
    let rest = links.child(bare.other());
    replace_child(nodes, root, links.back, v, rest);
    hang(nodes, rest, links.back);
    branch
}

/// Puts v, which is not in the tree, in the place of z, with z's links and rank.
pub fn substitute<N: Nodes>(nodes: &mut N, root: &mut Option<N::Inx>, z: N::Inx, v: N::Inx)
    requires { (s : Shape)
        × CanStandIn (N.at nodes.old) (option_map N.number root.old) (N.number z) (N.number v) s }
    ensures { StandsIn (N.number z) (N.number v) (N.at nodes.old) (N.at nodes.new)
        (option_map N.number root.old) (option_map N.number root.new)
        (N.list nodes.old) (N.list nodes.new) }
{
    let links = nodes.links(z);
    replace_child(nodes, root, links.back, z, Some(v));
    hang(nodes, links.lesser, Some(v));
    hang(nodes, links.greater, Some(v));
    nodes.set_links(v, links);
}

/// Returns the branch after v has replaced z.
fn branch_with<N: Nodes>(
    branch: Option<Branch<N::Inx>>,
    z: N::Inx,
    v: N::Inx,
) -> Option<Branch<N::Inx>>
    ensures { MatchOption branch (result ≡ None) (λ p. IsSomeAnd result
        (λ q. (N.number q.parent ≡ stand_in (N.number z) (N.number v) (N.number p.parent))
        × (q.side ≡ p.side))) }
{
    let Branch { parent, side } = branch?;
    let parent = if N::is_same(parent, z) { v } else { parent };
    Some(Branch { parent, side })
}

/// Takes z out of the tree; `before` is its predecessor in the list. Returns the branch that has fallen by one, if any.
///
/// If z has no lesser child, its greater child takes its place. Otherwise its predecessor, which has no greater child, is taken out first
/// and then takes the place of z.
pub fn displace<N: Nodes>(
    nodes: &mut N,
    root: &mut Option<N::Inx>,
    z: N::Inx,
    before: Option<N::Inx>,
) -> Option<Branch<N::Inx>>
    requires { (order : List ℕ)
        × IsDetachable (N.at nodes.old) (option_map N.number root.old)
        (N.number z) (option_map N.number before) order }
    ensures { TakesOut
        (IsDetachable (N.at nodes.old) (option_map N.number root.old)
        (N.number z) (option_map N.number before))
        (λ order. MatchOption result
        (IsBuilt (N.at nodes.new) (option_map N.number root.new) (without (N.number z) order) 1)
        (λ branch. IsFallen (N.at nodes.new) (option_map N.number root.new)
        (N.number branch.parent) branch.side (without (N.number z) order)))
        (λ order can. MatchOption result
        (IsSpelledWithin (ranks_without (N.number z) can.built.shape) (N.at nodes.new)
        (option_map N.number root.new) (without (N.number z) order)
        (potential can.built.shape + 2))
        (λ branch. IsFallenWithin (ranks_without (N.number z) can.built.shape) (N.at nodes.new)
        (option_map N.number root.new) (N.number branch.parent) branch.side
        (without (N.number z) order) (potential can.built.shape + 2)))
        4 (N.at nodes.old) (N.at nodes.new) (N.list nodes.old) (N.list nodes.new) }
{
    if nodes.links(z).lesser.is_none() {
        return cut(nodes, root, z, Side::Lesser);
    }
    let v = before.unwrap();
    let branch = cut(nodes, root, v, Side::Greater);
    substitute(nodes, root, z, v);
    branch_with::<N>(branch, z, v)
}

/// Takes z out of the tree and repairs the ranks above; `before` is its predecessor in the list.
pub fn detach<N: Nodes>(nodes: &mut N, root: &mut Option<N::Inx>, z: N::Inx, before: Option<N::Inx>)
    requires { (order : List ℕ)
        × IsDetachable (N.at nodes.old) (option_map N.number root.old)
        (N.number z) (option_map N.number before) order }
    ensures { TakesOut
        (IsDetachable (N.at nodes.old) (option_map N.number root.old)
        (N.number z) (option_map N.number before))
        (λ order. IsBuilt (N.at nodes.new) (option_map N.number root.new)
        (without (N.number z) order) 1)
        (λ order can. IsSpelledWithin (ranks_without (N.number z) can.built.shape) (N.at nodes.new)
        (option_map N.number root.new) (without (N.number z) order) (potential can.built.shape + 9))
        9 (N.at nodes.old) (N.at nodes.new) (N.list nodes.old) (N.list nodes.new) }
{
    if let Some(branch) = displace(nodes, root, z, before) {
        demote_all(nodes, root, branch);
    }
}
