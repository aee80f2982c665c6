//! What the nodes say about a tree: ranks, parents and children.
use super::Numbers;
use triple_ord::BasePtr;

/// A node's rank, and the indexes of its parent and of its children.
#[derive(Clone, Copy)]
struct Node {
    rank: u8,
    parent: Option<u32>,
    lesser: Option<u32>,
    greater: Option<u32>,
}

/// The node at an index; rank 0 and no links if there is none.
fn node_at(a: &Numbers, i: u32) -> Node {
    match a.get_inx_node(i) {
        Some((_, node)) => Node {
            rank: node.t.rank,
            parent: node.t.p_back.get(),
            lesser: node.t.p_tree0.get(),
            greater: node.t.p_tree1.get(),
        },
        None => Node {
            rank: 0,
            parent: None,
            lesser: None,
            greater: None,
        },
    }
}

/// By how much a node's rank exceeds that of a child, which is 0 if there is none.
fn difference(a: &Numbers, rank: u8, child: Option<u32>) -> u8 {
    rank.saturating_sub(node_at(a, child.unwrap_or(0)).rank)
}

/// Whether the rank of the node at an index exceeds that of each child by one or two, and a leaf has rank 1.
fn keeps_rules(a: &Numbers, i: u32) -> bool {
    let node = node_at(a, i);
    let is_leaf = node.lesser.is_none() && node.greater.is_none();
    matches!(difference(a, node.rank, node.lesser), 1 | 2)
        && matches!(difference(a, node.rank, node.greater), 1 | 2)
        && (node.rank == 1 || !is_leaf)
}

/// Whether the rank rules hold, as read from the nodes.
pub(super) fn has_ranks(a: &Numbers) -> bool {
    for (p, _) in a {
        if !keeps_rules(a, p.inx()) {
            return false;
        }
    }
    true
}

/// The number of entries in both arenas that have another parent in the second one. All indexes are at most 7.
pub(super) fn moved(a: &Numbers, b: &Numbers) -> u32 {
    let mut moved = 0u32;
    for i in 1u32..=7 {
        let old = node_at(a, i);
        let new = node_at(b, i);
        if old.rank > 0 && new.rank > 0 && old.parent != new.parent {
            moved = moved.saturating_add(1);
        }
    }
    moved
}
