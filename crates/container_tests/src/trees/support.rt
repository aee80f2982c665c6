//! What several of these files use.
use arena_base::{Advancer, BasePtr, InsertionError, ItemsMut, P0};
use chain_base::ChainPtrAdvancer;
use ord_tree::{OrdTree, Side};
use std::alloc::{Allocator, Global};
use std::cmp::Ordering;

pub(super) type Keys<A = Global> = OrdTree<P0, u8, A>;

/// A key with its place in the tree.
#[derive(Clone, Copy, PartialEq, Eq)]
pub(super) struct Place {
    pub(super) index: u32,
    pub(super) key: u8,
    pub(super) rank: u8,
    pub(super) parent: Option<u32>,
    pub(super) children: (Option<u32>, Option<u32>),
}

/// Returns the place of the entry that an advancer gives next.
fn next_place<A: Allocator>(tree: &Keys<A>, advancer: &mut ChainPtrAdvancer<P0>) -> Option<Place> {
    let p = advancer.advance(tree.chain())?;
    let node = tree.chain().get(p)?;
    Some(Place {
        index: p.inx(),
        key: node.t,
        rank: node.rank,
        parent: node.p_back.get(),
        children: (node.p_tree0.get(), node.p_tree1.get()),
    })
}

/// Returns each key in order, with its place in the tree. If a node or memory is missing, the result is shorter than the tree.
pub(super) fn places<A: Allocator>(alloc: Global, tree: &Keys<A>) -> Vec<Place> {
    let mut places = Vec::new(alloc);
    let first = tree.chain().first().unwrap_or(P0::invalid());
    if let Some(mut advancer) = tree.chain().advancer_chain(first) {
        for _ in 0..tree.len() {
            if let Some(place) = next_place(tree, &mut advancer) {
                let _ = places.push(place);
            }
        }
    }
    places
}

/// Returns where a key goes: before the first greater one, or behind the last.
pub(super) fn place_of(places: &[Place], key: u8) -> Option<(u32, Side)> {
    place_around(places, None, key)
}

/// Returns the same among all entries except the one at `index`.
pub(super) fn place_around(places: &[Place], index: Option<u32>, key: u8) -> Option<(u32, Side)> {
    let mut at = None;
    for place in places {
        if Some(place.index) == index {
            continue;
        }
        if place.key < key {
            at = Some((place.index, Side::Greater));
        } else if at.is_none() {
            at = Some((place.index, Side::Lesser));
        }
    }
    at
}

/// Inserts a key at a place and returns the call's result; `None` if the tree has no such place.
pub(super) fn insert_at<A: Allocator>(
    tree: &mut Keys<A>,
    at: Option<(u32, Side)>,
    key: u8,
) -> Option<Result<P0, InsertionError>> {
    let is_there = match at {
        None => tree.is_empty(),
        Some((index, _)) => tree.contains_inx(index),
    };
    if !is_there {
        return None;
    }
    let at = match at {
        None => None,
        Some((index, Side::Lesser)) => Some((index, Ordering::Less)),
        Some((index, Side::Greater)) => Some((index, Ordering::Greater)),
    };
    Some(tree.insert_reallocating(at, key))
}

/// Returns the index of a key.
pub(super) fn index_of(places: &[Place], key: u8) -> Option<u32> {
    for place in places {
        if place.key == key {
            return Some(place.index);
        }
    }
    None
}

/// Inserts a key if it is absent, or removes it. Returns whether that succeeded; it needs the places of all entries.
pub(super) fn toggle<A: Allocator>(tree: &mut Keys<A>, places: &[Place], key: u8) -> bool {
    if places.len() != tree.len() {
        return false;
    }
    match index_of(places, key) {
        None => matches!(insert_at(tree, place_of(places, key), key), Some(Ok(_))),
        Some(index) => tree.remove_inx(index).allow().is_some(),
    }
}

/// Returns how many indexes of the first list have another parent in the second.
pub(super) fn moved(old: &[Place], new: &[Place]) -> usize {
    let mut moved: usize = 0;
    for before in old {
        for after in new {
            if after.index == before.index && after.parent != before.parent {
                moved = moved.saturating_add(1);
            }
        }
    }
    moved
}

/// Returns the rank of a child.
fn rank_at(places: &[Place], index: Option<u32>) -> u8 {
    match places.iter().find(|place| Some(place.index) == index) {
        Some(place) => place.rank,
        None => 0,
    }
}

/// Returns how much higher a node's rank is than that of each child.
pub(super) fn steps(places: &[Place], place: &Place) -> (u8, u8) {
    let (lesser, greater) = place.children;
    (
        place.rank.saturating_sub(rank_at(places, lesser)),
        place.rank.saturating_sub(rank_at(places, greater)),
    )
}

/// Returns the potential of a tree: one for each full node, three for each slack one.
pub(super) fn potential(places: &[Place]) -> usize {
    let mut potential: usize = 0;
    for place in places {
        potential = potential.saturating_add(match steps(places, place) {
            (1, 1) => 1,
            (2, 2) => 3,
            _ => 0,
        });
    }
    potential
}

/// Returns how many indexes of the first list have another rank in the second.
pub(super) fn rank_changes(old: &[Place], new: &[Place]) -> usize {
    let mut changes: usize = 0;
    for before in old {
        for after in new {
            if after.index == before.index && after.rank != before.rank {
                changes = changes.saturating_add(1);
            }
        }
    }
    changes
}
