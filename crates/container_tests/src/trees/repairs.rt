//! Repairs by a table. Its rows were worked out independently of the code.
use super::support::{Keys, Place, moved, places, toggle};
use std::alloc::Global;

/// A key, its rank and its parent's key; 0 for the root's parent.
type Node = (u8, u8, u8);

/// Keys to insert; keys to insert or remove after that; the resulting tree; and how many parents the last key moves.
type Row = (&'static [u8], &'static [u8], &'static [Node], usize);

/// Keys of a tree, and one to insert into it.
const INSERTIONS: &[Row] = &[
    // the parent already has rank 2
    (&[2, 1], &[3], &[(1, 1, 2), (2, 2, 0), (3, 1, 2)], 0),
    (&[2, 3], &[1], &[(1, 1, 2), (2, 2, 0), (3, 1, 2)], 0),
    // the grandparent's rank is greater
    (
        &[3, 2, 5, 4],
        &[1],
        &[(1, 1, 2), (2, 2, 3), (3, 3, 0), (4, 1, 5), (5, 2, 3)],
        0,
    ),
    (
        &[3, 4, 1, 2],
        &[5],
        &[(1, 2, 3), (2, 1, 1), (3, 3, 0), (4, 2, 3), (5, 1, 4)],
        0,
    ),
    // promotions
    (
        &[2, 1, 4],
        &[3],
        &[(1, 1, 2), (2, 3, 0), (3, 1, 4), (4, 2, 2)],
        0,
    ),
    (
        &[3, 4, 1],
        &[2],
        &[(1, 2, 3), (2, 1, 1), (3, 3, 0), (4, 1, 3)],
        0,
    ),
    // a single rotation
    (&[1, 2], &[3], &[(1, 1, 2), (2, 2, 0), (3, 1, 2)], 2),
    (&[3, 2], &[1], &[(1, 1, 2), (2, 2, 0), (3, 1, 2)], 2),
    // a double rotation
    (&[1, 3], &[2], &[(1, 1, 2), (2, 2, 0), (3, 1, 2)], 2),
    (&[3, 1], &[2], &[(1, 1, 2), (2, 2, 0), (3, 1, 2)], 2),
    // a single rotation after promotions, with an inner subtree
    (
        &[8, 7, 6, 5, 9, 3, 1, 4],
        &[2],
        &[
            (1, 2, 3),
            (2, 1, 1),
            (3, 3, 7),
            (4, 1, 5),
            (5, 2, 3),
            (6, 1, 5),
            (7, 4, 0),
            (8, 2, 7),
            (9, 1, 8),
        ],
        3,
    ),
    (
        &[2, 3, 4, 5, 1, 7, 9, 6],
        &[8],
        &[
            (1, 1, 2),
            (2, 2, 3),
            (3, 4, 0),
            (4, 1, 5),
            (5, 2, 7),
            (6, 1, 5),
            (7, 3, 3),
            (8, 1, 9),
            (9, 2, 7),
        ],
        3,
    ),
    // a double rotation after promotions, with both inner subtrees: an insertion moves no more
    (
        &[4, 1, 3, 8, 10, 2, 9, 7, 5],
        &[6],
        &[
            (1, 2, 3),
            (2, 1, 1),
            (3, 3, 5),
            (4, 1, 3),
            (5, 4, 0),
            (6, 1, 7),
            (7, 2, 8),
            (8, 3, 5),
            (9, 1, 10),
            (10, 2, 8),
        ],
        5,
    ),
    (
        &[7, 10, 8, 3, 1, 9, 2, 4, 6],
        &[5],
        &[
            (1, 2, 3),
            (2, 1, 1),
            (3, 3, 6),
            (4, 2, 3),
            (5, 1, 4),
            (6, 4, 0),
            (7, 1, 8),
            (8, 3, 6),
            (9, 1, 10),
            (10, 2, 8),
        ],
        5,
    ),
    // keys in order
    (
        &[1, 2, 3, 4, 5, 6],
        &[7],
        &[
            (1, 1, 2),
            (2, 2, 4),
            (3, 1, 2),
            (4, 3, 0),
            (5, 1, 6),
            (6, 2, 4),
            (7, 1, 6),
        ],
        2,
    ),
    (
        &[7, 6, 5, 4, 3, 2],
        &[1],
        &[
            (1, 1, 2),
            (2, 2, 4),
            (3, 1, 2),
            (4, 3, 0),
            (5, 1, 6),
            (6, 2, 4),
            (7, 1, 6),
        ],
        2,
    ),
];

/// Keys of a tree, and those to remove from it.
const REMOVALS: &[Row] = &[
    // a leaf; a node with one side, which its child replaces
    (&[1], &[1], &[], 0),
    (&[1, 2], &[1], &[(2, 1, 0)], 1),
    (&[2, 1], &[2], &[(1, 1, 0)], 1),
    (&[1, 3, 4, 2], &[1], &[(2, 1, 3), (3, 3, 0), (4, 1, 3)], 1),
    (&[1, 2, 4, 3], &[4], &[(1, 1, 2), (2, 3, 0), (3, 1, 2)], 1),
    // a node with both sides, replaced by its predecessor: its child, then one further down
    (&[1, 2, 3], &[2], &[(1, 2, 0), (3, 1, 1)], 2),
    (
        &[1, 4, 5, 2, 3],
        &[4],
        &[(1, 1, 2), (2, 2, 3), (3, 3, 0), (5, 1, 3)],
        3,
    ),
    // the same if the predecessor has a lesser side
    (&[2, 3, 4, 1], &[3], &[(1, 1, 2), (2, 3, 0), (4, 1, 2)], 2),
    (
        &[50, 30, 70, 60, 10],
        &[50],
        &[(10, 1, 30), (30, 3, 0), (60, 1, 70), (70, 2, 30)],
        2,
    ),
    (
        &[1, 2, 7, 4, 5, 6, 3],
        &[5],
        &[
            (1, 1, 2),
            (2, 3, 4),
            (3, 1, 2),
            (4, 4, 0),
            (6, 1, 7),
            (7, 2, 4),
        ],
        4,
    ),
    // the parent has no children left
    (&[2, 1], &[1], &[(2, 1, 0)], 0),
    (&[1, 2], &[2], &[(1, 1, 0)], 0),
    (&[2, 3, 4, 1], &[1], &[(2, 1, 3), (3, 3, 0), (4, 1, 3)], 0),
    (&[1, 2, 3, 4], &[4], &[(1, 1, 2), (2, 3, 0), (3, 1, 2)], 0),
    // the parent is at most two above
    (&[1, 2, 3], &[1], &[(2, 2, 0), (3, 1, 2)], 0),
    (&[1, 2, 3], &[3], &[(1, 1, 2), (2, 2, 0)], 0),
    // the sibling is two below
    (&[1, 2, 4, 3], &[4, 1], &[(2, 2, 0), (3, 1, 2)], 0),
    (&[1, 2, 4, 3], &[1, 4], &[(2, 1, 3), (3, 2, 0)], 0),
    (
        &[5, 7, 3, 1, 4, 2, 6],
        &[7, 4],
        &[(1, 2, 3), (2, 1, 1), (3, 4, 0), (5, 2, 3), (6, 1, 5)],
        0,
    ),
    (
        &[6, 7, 1, 3, 5, 2, 4],
        &[6, 7],
        &[(1, 2, 3), (2, 1, 1), (3, 4, 0), (4, 1, 5), (5, 2, 3)],
        0,
    ),
    // the sibling's outer child is one below it: a single rotation
    (&[1, 2, 3, 4], &[1], &[(2, 1, 3), (3, 3, 0), (4, 1, 3)], 2),
    (&[2, 3, 4, 1], &[4], &[(1, 1, 2), (2, 3, 0), (3, 1, 2)], 2),
    (
        &[1, 2, 3, 4, 5],
        &[1],
        &[(2, 2, 4), (3, 1, 2), (4, 3, 0), (5, 1, 4)],
        3,
    ),
    (
        &[1, 4, 5, 2, 3],
        &[5],
        &[(1, 1, 2), (2, 3, 0), (3, 1, 4), (4, 2, 2)],
        3,
    ),
    // the same further up
    (
        &[1, 2, 5, 3, 6, 4, 7],
        &[1],
        &[
            (2, 1, 3),
            (3, 2, 5),
            (4, 1, 3),
            (5, 4, 0),
            (6, 2, 5),
            (7, 1, 6),
        ],
        3,
    ),
    (
        &[1, 3, 5, 7, 6, 4, 2],
        &[7],
        &[
            (1, 2, 3),
            (2, 1, 1),
            (3, 4, 0),
            (4, 1, 5),
            (5, 2, 3),
            (6, 1, 5),
        ],
        3,
    ),
    // both children of the sibling are two below it
    (
        &[2, 6, 3, 1, 4, 7, 5],
        &[5, 1],
        &[(2, 1, 3), (3, 3, 0), (4, 1, 6), (6, 2, 3), (7, 1, 6)],
        0,
    ),
    (
        &[6, 3, 1, 7, 5, 4, 2],
        &[2, 7],
        &[(1, 1, 3), (3, 2, 5), (4, 1, 3), (5, 3, 0), (6, 1, 5)],
        0,
    ),
    // only its inner child is one below it: a double rotation
    (&[1, 2, 4, 3], &[1], &[(2, 1, 3), (3, 3, 0), (4, 1, 3)], 3),
    (&[1, 3, 4, 2], &[4], &[(1, 1, 2), (2, 3, 0), (3, 1, 2)], 3),
    // the same further up, with both inner subtrees
    (
        &[1, 2, 7, 8, 3, 4, 5, 6],
        &[1],
        &[
            (2, 1, 3),
            (3, 2, 5),
            (4, 1, 3),
            (5, 4, 0),
            (6, 1, 7),
            (7, 2, 5),
            (8, 1, 7),
        ],
        5,
    ),
    (
        &[7, 1, 6, 3, 8, 2, 4, 5],
        &[8],
        &[
            (1, 1, 2),
            (2, 2, 4),
            (3, 1, 2),
            (4, 4, 0),
            (5, 1, 6),
            (6, 2, 4),
            (7, 1, 6),
        ],
        5,
    ),
    // a removal moves no more
    (
        &[
            14, 5, 19, 3, 11, 17, 21, 2, 4, 7, 13, 16, 18, 20, 1, 6, 9, 12, 15, 8, 10,
        ],
        &[14],
        &[
            (1, 1, 2),
            (2, 2, 3),
            (3, 3, 5),
            (4, 1, 3),
            (5, 5, 13),
            (6, 1, 7),
            (7, 2, 9),
            (8, 1, 7),
            (9, 4, 5),
            (10, 1, 11),
            (11, 2, 9),
            (12, 1, 11),
            (13, 6, 0),
            (15, 1, 16),
            (16, 2, 17),
            (17, 3, 19),
            (18, 1, 17),
            (19, 4, 13),
            (20, 1, 21),
            (21, 2, 19),
        ],
        9,
    ),
];

/// Returns the key at an index; 0 if there is none.
fn key_at(places: &[Place], index: Option<u32>) -> u8 {
    for place in places {
        if Some(place.index) == index {
            return place.key;
        }
    }
    0
}

/// Returns whether the places are exactly these nodes, in order.
fn has_nodes(places: &[Place], wanted: &[Node]) -> bool {
    let mut left = wanted.iter();
    for place in places {
        let node = (place.key, place.rank, key_at(places, place.parent));
        if left.next() != Some(&node) {
            return false;
        }
    }
    left.next().is_none()
}

/// Inserts or removes keys in turn. Returns how many parents the last one moves; `None` if a key fails.
fn moved_by(alloc: Global, tree: &mut Keys, keys: &[u8]) -> Option<usize> {
    let (mut last, mut is_done) = (0, true);
    for key in keys {
        let old = places(alloc, tree);
        is_done = toggle(tree, &old, *key) && is_done;
        last = moved(&old, &places(alloc, tree));
    }
    is_done.then_some(last)
}

/// Returns whether a row's tree, and the parents that its last key moves, are as the row says.
fn is_repaired(alloc: Global, row: &Row) -> bool {
    let (keys, changes, wanted, moves) = row;
    let mut tree = Keys::new(alloc);
    moved_by(alloc, &mut tree, keys).is_some()
        && moved_by(alloc, &mut tree, changes) == Some(*moves)
        && has_nodes(&places(alloc, &tree), wanted)
}

#[test]
fn insertions_are_repaired_by_the_table(rt: HostRuntime) {
    for row in INSERTIONS {
        assert!(rt; is_repaired(rt.alloc(), row));
    }
}

#[test]
fn removals_are_repaired_by_the_table(rt: HostRuntime) {
    for row in REMOVALS {
        assert!(rt; is_repaired(rt.alloc(), row));
    }
}
