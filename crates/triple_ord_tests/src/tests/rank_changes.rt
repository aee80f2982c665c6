//! The amortized bound over a long random run, and the bounds on new parents. Ranks and parents are read from the outside at each step.
use super::support::Keys;
use std::alloc::Global;
use triple_ord::OrdPair;

/// The maximum number of entries.
const MOST: u32 = 256;

/// What a run did, and whether each step gave few enough entries a new parent.
#[derive(Clone, Copy)]
struct Account {
    insertions: u64,
    removals: u64,
    moves: u64,
    changes: u64,
    is_within: bool,
}

/// The next number of a linear congruential generator (Knuth, MMIX).
fn next(seed: u64) -> u64 {
    seed.wrapping_mul(6364136223846793005)
        .wrapping_add(1442695040888963407)
}

/// What a node stores: its rank, 0 for a vacant index, and its parent.
#[derive(Clone, Copy, PartialEq, Eq)]
struct Node {
    rank: u8,
    parent: Option<u32>,
}

/// A vacant index.
const NONE: Node = Node {
    rank: 0,
    parent: None,
};

/// The node at an index.
fn node_at(a: &Keys, index: u32) -> Node {
    match a.get_inx_node(index) {
        Some((_, node)) => Node {
            rank: node.t.rank,
            parent: node.t.p_back.get(),
        },
        None => NONE,
    }
}

/// Overwrites the old nodes by the current ones, by index from 1. Returns how many entries in both states have different ranks, and how
/// many have different parents.
fn changes(nodes: &mut [Node], a: &Keys) -> (u64, u64) {
    let mut changes = (0u64, 0u64);
    let mut index: u32 = 0;
    for node in nodes.iter_mut() {
        index = index.wrapping_add(1);
        let now = node_at(a, index);
        if node.rank != 0 && now.rank != 0 {
            changes.0 = changes.0.wrapping_add((node.rank != now.rank) as u64);
            changes.1 = changes.1.wrapping_add((node.parent != now.parent) as u64);
        }
        *node = now;
    }
    changes
}

/// Inserts a key that is missing. A key that exists moves to the other key, if there is one and it is missing, or is removed. Returns how
/// many entries may get a new parent.
fn step(a: &mut Keys, key: u64, other: Option<u64>, account: &mut Account) -> u64 {
    let Some(p) = a.find_key(&key) else {
        let _ = a.insert(OrdPair::new(key, ()));
        account.insertions = account.insertions.wrapping_add(1);
        return 5;
    };
    if let Some(other) = other {
        if other % 3 != 0 && a.find_key(&other).is_none() {
            let _ = a.rekey(p, OrdPair::new(other, ()));
            account.moves = account.moves.wrapping_add(1);
            return 15;
        }
    }
    let _ = a.remove(p);
    account.removals = account.removals.wrapping_add(1);
    9
}

/// A run over random keys, with moves or only with insertions and removals.
fn run(alloc: Global, steps: u64, has_moves: bool) -> Account {
    let mut a = Keys::new(alloc);
    let mut account = Account {
        insertions: 0,
        removals: 0,
        moves: 0,
        changes: 0,
        is_within: true,
    };
    let mut nodes = [NONE; MOST as usize];
    let mut seed = 1;
    for _ in 0..steps {
        seed = next(seed);
        let most = u64::from(MOST);
        let key = (seed >> 33) % most;
        let other = if has_moves {
            Some((seed >> 48) % most)
        } else {
            None
        };
        let most_parents = step(&mut a, key, other, &mut account);
        let (ranks, parents) = changes(&mut nodes, &a);
        account.changes = account.changes.wrapping_add(ranks);
        account.is_within = account.is_within && parents <= most_parents;
    }
    account
}

/// The allowed number of rank changes of a run: 4 for an insertion, 9 for a removal, 14 for a move.
fn allowed(account: &Account) -> u64 {
    account
        .insertions
        .wrapping_mul(4)
        .wrapping_add(account.removals.wrapping_mul(9))
        .wrapping_add(account.moves.wrapping_mul(14))
}

#[test]
fn rank_changes_stay_within_the_amortized_bound(rt: HostRuntime) {
    let account = run(rt.alloc(), 100_000, false);
    assert!(rt; account.insertions.wrapping_add(account.removals) == 100_000);
    assert!(rt; account.is_within && account.changes <= allowed(&account));
    // Random runs need less than a quarter of the bound.
    assert!(rt; account.changes.wrapping_mul(4) < allowed(&account));
}

#[test]
fn moves_stay_within_the_amortized_bound(rt: HostRuntime) {
    let account = run(rt.alloc(), 100_000, true);
    assert!(rt; account.moves > 10_000);
    assert!(rt; account.is_within && account.changes <= allowed(&account));
    assert!(rt; account.changes.wrapping_mul(4) < allowed(&account));
}
