//! The amortized bound is exact: an insertion and a removal need their whole allowance.
use super::support::{Keys, Place, places, potential, rank_changes, toggle};
use std::alloc::Global;

/// A key and its rank.
type Ranked = (u8, u8);

/// Keys to insert, or to remove if present, in turn; the resulting tree; the last key, and the tree after it; how many ranks of other
/// entries that changes; and its allowance.
struct Step {
    keys: &'static [u8],
    before: &'static [Ranked],
    last: u8,
    after: &'static [Ranked],
    changes: usize,
    allowance: usize,
}

/// An insertion with a single rotation: the ranks of 1 and 2 change, and all three nodes are full.
const INSERTION: Step = Step {
    keys: &[1, 2],
    before: &[(1, 2), (2, 1)],
    last: 3,
    after: &[(1, 1), (2, 2), (3, 1)],
    changes: 2,
    allowance: 4,
};

/// A removal of the root: 7 replaces it, 6 and 5 are demoted, and a double rotation lifts 4 above 2 and 5.
const REMOVAL: Step = Step {
    keys: &[12, 11, 10, 8, 7, 6, 5, 2, 1, 4, 9, 3, 9],
    before: &[
        (1, 1),
        (2, 3),
        (3, 1),
        (4, 2),
        (5, 4),
        (6, 2),
        (7, 1),
        (8, 5),
        (10, 1),
        (11, 3),
        (12, 1),
    ],
    last: 8,
    after: &[
        (1, 1),
        (2, 2),
        (3, 1),
        (4, 4),
        (5, 2),
        (6, 1),
        (7, 5),
        (10, 1),
        (11, 3),
        (12, 1),
    ],
    changes: 5,
    allowance: 9,
};

/// Returns whether a tree has exactly these keys with these ranks, in order.
fn has_ranks(places: &[Place], ranks: &[Ranked]) -> bool {
    let ranked = places.iter().map(|place| (place.key, place.rank));
    ranked.eq(ranks.iter().copied())
}

/// Returns whether the last key of a step changes as many ranks as stated, and needs its whole allowance.
fn is_exact(alloc: Global, step: &Step) -> bool {
    let mut tree = Keys::new(alloc);
    for key in step.keys {
        let now = places(alloc, &tree);
        let _ = toggle(&mut tree, &now, *key);
    }
    let before = places(alloc, &tree);
    let _ = toggle(&mut tree, &before, step.last);
    let after = places(alloc, &tree);
    let needed = step.changes.saturating_add(potential(&after));
    has_ranks(&before, step.before)
        && has_ranks(&after, step.after)
        && rank_changes(&before, &after) == step.changes
        && needed == potential(&before).saturating_add(step.allowance)
}

#[test]
fn a_step_can_need_its_whole_allowance(rt: HostRuntime) {
    assert!(rt; is_exact(rt.alloc(), &INSERTION));
    assert!(rt; is_exact(rt.alloc(), &REMOVAL));
}
