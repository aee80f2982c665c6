//! The tree below a link of the arena.
ghost use Rattle.std.specs.Prelude.{◌≡◌, ◌≢◌, ◌≤◌, true, false, Some, MatchOption, option_map};
ghost use Rattle.triple_ord.specs.Shape.{missing, node, rank_of, size_of, height, root_of};
ghost use Rattle.triple_ord.specs.{Chain.IsDistinct, Tree.IsSoundTree};
ghost use Rattle.tree_picture.specs.Below.{part_at, part_below};
ghost use Rattle.tree_picture.specs.declared.picture.TheConstants.{MOST_ENTRIES};

use crate::picture::MOST_ENTRIES;
use std::alloc::Allocator;
use triple_ord::{BasePtr, SimpleOrdArena};

/// A node's links and rank.
#[derive(Drop)]
pub struct Branch<I> {
    /// The root of the lesser side, if any.
    pub lesser: Option<I>,
    /// The root of the greater side, if any.
    pub greater: Option<I>,
    /// The rank.
    pub rank: u8,
}

/// How far the tree below a link extends.
#[derive(Clone, Copy)]
pub struct Extent {
    /// The number of nodes.
    pub nodes: u16,
    /// The number of levels.
    pub levels: u16,
    /// The rank of the root; 0 if there is none.
    pub rank: u8,
}

/// Returns the links and the rank of the node at an index, if there is an entry.
pub fn branch_at<P: BasePtr, T, A: Allocator>(
    arena: &SimpleOrdArena<P, T, A>,
    i: P::Inx,
) -> Option<Branch<P::Inx>>
    ensures { MatchOption result (part_at arena.now.shape (P.Inx.number i) ≡ missing)
        (λ b. part_at arena.now.shape (P.Inx.number i)
        ≡ node (part_below arena.now.shape (option_map P.Inx.number b.lesser)) (P.Inx.number i)
        b.rank (part_below arena.now.shape (option_map P.Inx.number b.greater))) }
{
    let entry = arena.get_inx_node(i)?;
    let node = entry.1;
    Some(Branch {
        lesser: node.t.p_tree0.get(),
        greater: node.t.p_tree1.get(),
        rank: node.t.rank,
    })
}

/// Returns whether the entry at an index is the root.
fn is_root<P: BasePtr, T, A: Allocator>(arena: &SimpleOrdArena<P, T, A>, i: P::Inx) -> bool
    ensures yes { IsSoundTree arena.now → result ≡ true
        → root_of arena.now.shape ≡ Some (P.Inx.number i) }
    ensures no { IsSoundTree arena.now → IsDistinct arena.now.list.entries → result ≡ false
        → root_of arena.now.shape ≢ Some (P.Inx.number i) }
{
    let Some(entry) = arena.get_inx_node(i) else {
        return false;
    };
    let node = entry.1;
    node.t.p_back.get().is_none()
}

/// Returns the index of the root, if there are entries. O(n).
pub fn root<P: BasePtr, T, A: Allocator>(arena: &SimpleOrdArena<P, T, A>) -> Option<P::Inx>
    ensures { option_map P.Inx.number result ≡ root_of arena.now.shape }
{
    // For the prover: the list and the shape are sound.
    let _ = arena.len();
    for (p, _) in arena {
        if is_root(arena, p.inx()) {
            return Some(p.inx());
        }
    }
    None
}

/// Returns how far the tree below a link extends.
pub fn extent_below<P: BasePtr, T, A: Allocator>(
    arena: &SimpleOrdArena<P, T, A>,
    link: Option<P::Inx>,
) -> Extent
    requires { size_of (part_below arena.now.shape (option_map P.Inx.number link)) ≤ MOST_ENTRIES }
    ensures nodes { result.nodes
        ≡ size_of (part_below arena.now.shape (option_map P.Inx.number link)) }
    ensures levels { result.levels
        ≡ height (part_below arena.now.shape (option_map P.Inx.number link)) }
    ensures rank { result.rank
        ≡ rank_of (part_below arena.now.shape (option_map P.Inx.number link)) }
{
    let none = Extent {
        nodes: 0,
        levels: 0,
        rank: 0,
    };
    let Some(i) = link else {
        return none;
    };
    let Some(branch) = branch_at(arena, i) else {
        return none;
    };
    let lesser = extent_below(arena, branch.lesser);
    let greater = extent_below(arena, branch.greater);
    Extent {
        nodes: lesser.nodes + 1 + greater.nodes,
        levels: lesser.levels.max(greater.levels) + 1,
        rank: branch.rank,
    }
}
