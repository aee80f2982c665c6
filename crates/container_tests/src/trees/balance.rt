//! Insertions, removals and moves in every order, compared with a plain vector.
use super::support::{
    Keys, Place, index_of, moved, place_around, places, potential, rank_changes, steps, toggle,
};
use arena_base::ItemsMut;
use ord_tree::Side;
use std::alloc::Global;

/// Returns whether no node has both children two below it.
fn is_tight(places: &[Place]) -> bool {
    places.iter().all(|place| steps(places, place) != (2, 2))
}

/// Returns whether the rules of the balance hold, seen from outside: ranks, and links that agree.
fn is_ranked(places: &[Place], root: Option<u32>) -> bool {
    for place in places {
        let (lesser, greater) = place.children;
        let steps = steps(places, place);
        let is_step = |step: u8| step == 1 || step == 2;
        let is_leaf = lesser.is_none() && greater.is_none();
        if !is_step(steps.0) || !is_step(steps.1) || is_leaf && place.rank != 1 {
            return false;
        }
        for other in places {
            let is_child = Some(other.index) == lesser || Some(other.index) == greater;
            let is_root = other.parent.is_none() == (Some(other.index) == root);
            if (other.parent == Some(place.index)) != is_child || !is_root {
                return false;
            }
        }
    }
    true
}

/// Returns whether a tree has exactly these keys in order, and keeps the rules of the balance.
fn is_balanced(places: &[Place], root: Option<u32>, sorted: &[u8]) -> bool {
    let keys = places.iter().map(|place| place.key);
    keys.eq(sorted.iter().copied()) && is_ranked(places, root)
}

/// Returns the order with this number among all orders of the keys from 1 to `count`.
fn order_of(alloc: Global, count: u8, number: usize) -> Vec<u8> {
    let mut order = Vec::new(alloc);
    let mut number = number;
    for key in 1..=count {
        let places = order.len().saturating_add(1);
        let _ = order.insert(number % places, key);
        number /= places;
    }
    order
}

/// Inserts or removes a key in a plain vector. Returns how many parents the tree may move, and its allowance for rank changes.
fn toggle_sorted(sorted: &mut Vec<u8>, key: u8) -> (usize, usize) {
    match sorted.binary_search(&key) {
        Err(at) => {
            let _ = sorted.insert(at, key);
            (5, 4)
        }
        Ok(at) => {
            let _ = sorted.remove(at);
            (9, 9)
        }
    }
}

/// Returns the other key of the entry that has this one at first.
fn other_of(key: u8) -> u8 {
    11u8.saturating_sub(key)
}

/// Moves an entry beside another, and gives it a key. Returns whether the tree has both entries.
fn move_beside(tree: &mut Keys, index: u32, at: (u32, Side), key: u8) -> bool {
    let are_there = tree.contains_inx(index) && tree.contains_inx(at.0);
    if !are_there || at.0 == index {
        return false;
    }
    tree.move_beside(index, at);
    match tree.item_at_mut(index) {
        Some(item) => {
            *item = key;
            true
        }
        None => false,
    }
}

/// Inserts a key, or moves its entry to the place of its other key, or removes the entry with the other key. A single entry is removed at
/// once.
fn turn(tree: &mut Keys, places: &[Place], key: u8) -> bool {
    let other = other_of(key);
    let Some(index) = index_of(places, key) else {
        let is_moved = index_of(places, other).is_some();
        return toggle(tree, places, if is_moved { other } else { key });
    };
    match place_around(places, Some(index), other) {
        Some(at) => move_beside(tree, index, at, other),
        None => toggle(tree, places, key),
    }
}

/// Does the same in a plain vector. Returns how many parents the tree may move, and its allowance for rank changes.
fn turn_sorted(sorted: &mut Vec<u8>, key: u8) -> (usize, usize) {
    let other = other_of(key);
    if sorted.contains(&other) {
        return toggle_sorted(sorted, other);
    }
    if sorted.len() < 2 || !sorted.contains(&key) {
        return toggle_sorted(sorted, key);
    }
    let _ = toggle_sorted(sorted, key);
    let _ = toggle_sorted(sorted, other);
    (15, 14)
}

/// Returns whether the old potential and the allowance pay for the rank changes and the new potential.
fn is_paid(old: &[Place], new: &[Place], allowance: usize) -> bool {
    let needed = rank_changes(old, new).saturating_add(potential(new));
    needed <= potential(old).saturating_add(allowance)
}

/// A tree, the places of its keys, and a plain vector of the same keys.
#[derive(Drop)]
struct Both {
    tree: Keys,
    places: Vec<Place>,
    sorted: Vec<u8>,
}

/// What happens to a key that is present.
#[derive(Clone, Copy, PartialEq, Eq)]
enum Mix {
    /// No key comes twice.
    Insertions,
    /// It is removed.
    Removals,
    /// Its entry moves to the place of its other key, and is removed after that.
    Moves,
}

/// Makes a change in both. If it succeeds, returns how many parents the tree may move, and its allowance for rank changes.
fn change(both: &mut Both, key: u8, mix: Mix) -> Option<(usize, usize)> {
    let is_done = if mix == Mix::Moves {
        turn(&mut both.tree, &both.places, key)
    } else {
        toggle(&mut both.tree, &both.places, key)
    };
    if !is_done {
        return None;
    }
    Some(if mix == Mix::Moves {
        turn_sorted(&mut both.sorted, key)
    } else {
        toggle_sorted(&mut both.sorted, key)
    })
}

/// Makes a change in both and returns whether they agree. Insertions alone must leave a tight tree.
fn agree_on(alloc: Global, both: &mut Both, key: u8, mix: Mix) -> bool {
    let Some((most_moved, allowance)) = change(both, key, mix) else {
        return false;
    };
    let new = places(alloc, &both.tree);
    let is_right = is_balanced(&new, both.tree.root(), &both.sorted)
        && moved(&both.places, &new) <= most_moved
        && is_paid(&both.places, &new, allowance)
        && (mix != Mix::Insertions || is_tight(&new));
    both.places = new;
    is_right
}

/// Returns whether a tree and a plain vector agree after each of these keys in turn.
fn agree_on_all(alloc: Global, keys: &[u8], mix: Mix) -> bool {
    let mut both = Both {
        tree: Keys::new(alloc),
        places: Vec::new(alloc),
        sorted: Vec::new(alloc),
    };
    let mut agree = true;
    for key in keys {
        agree = agree_on(alloc, &mut both, *key, mix) && agree;
    }
    agree
}

#[test]
fn insertions_in_every_order_keep_the_balance(rt: HostRuntime) {
    let mut orders: usize = 1;
    for count in 1..=7u8 {
        orders = orders.saturating_mul(usize::from(count));
        for number in 0..orders {
            let order = order_of(rt.alloc(), count, number);
            assert!(rt; order.len() == usize::from(count));
            assert!(rt; agree_on_all(rt.alloc(), &order, Mix::Insertions));
        }
    }
}

#[test]
fn insertions_and_removals_in_every_mix_keep_the_balance(rt: HostRuntime) {
    for word in 0..78_125usize {
        assert!(rt; agree_on_all(rt.alloc(), &digits_of(word), Mix::Removals));
    }
}

#[test]
fn moves_in_every_mix_keep_the_balance(rt: HostRuntime) {
    for word in 0..78_125usize {
        assert!(rt; agree_on_all(rt.alloc(), &digits_of(word), Mix::Moves));
    }
}

/// Returns the seven digits of a word in base 5, as keys from 1 to 5.
fn digits_of(word: usize) -> [u8; 7] {
    let mut digits = [0; 7];
    let mut rest = word;
    for digit in &mut digits {
        *digit = [1, 2, 3, 4, 5][rest % 5];
        rest /= 5;
    }
    digits
}
