//! A list of leaves beside a plain vector of the same entries.
ghost use Rattle.std.specs.Prelude.{◌≡◌, ◌<◌, true, IsSome};
ghost use Rattle.std.specs.Option.{option_map};
ghost use Rattle.leaf_list.specs.Leaves.{count, IsFree};
ghost use Rattle.leaf_list.specs.Place.{entry_at, IsPlace};

use leaf_list::{LeafList, Place};
use std::alloc::{Allocator, Global};
use triple_ord::P0;

/// Keys with names.
pub(crate) type Keys<A = Global> = LeafList<u64, P0, A>;

/// A list beside the vector of its keys and names, in order.
#[derive(Drop)]
pub(crate) struct Beside {
    pub(crate) list: Keys,
    pub(crate) entries: Vec<(u64, u32)>,
}

/// Returns whether an entry with this name can be inserted: there is room, and no entry has the name.
pub(crate) fn can_enter<A: Allocator>(list: &Keys<A>, name: u32) -> bool
    ensures room { result ≡ true → count list.now < list.now.room }
    ensures free { result ≡ true → IsFree list.now name }
{
    let room = list.room();
    let mut at = list.first();
    for i in 0..room {
        let Some(p) = at else {
            return name > 0;
        };
        if list.entry(p).1 == name {
            return false;
        }
        at = list.after(p);
    }
    false
}

/// Inserts an entry, if it can be inserted.
pub(crate) fn enter<A: Allocator>(list: &mut Keys<A>, k: u64, name: u32) -> bool {
    if !can_enter(list, name) {
        return false;
    }
    let _ = list.enter(k, name);
    true
}

/// Returns the place of the entry with this index.
pub(crate) fn nth(list: &Keys, index: usize) -> Option<Place<u32>>
    ensures { IsPlace list.now.leaves (option_map (λ p. (p.leaf, p.at)) result) }
{
    let mut at = list.first();
    for i in 0..index {
        at = next(list, at);
    }
    at
}

/// Returns the place of the next entry, if there is one.
pub(crate) fn next<A: Allocator>(list: &Keys<A>, at: Option<Place<u32>>) -> Option<Place<u32>>
    requires { IsPlace list.now.leaves (option_map (λ p. (p.leaf, p.at)) at) }
    ensures { IsPlace list.now.leaves (option_map (λ p. (p.leaf, p.at)) result) }
{
    match at {
        Some(p) => list.after(p),
        None => None,
    }
}

/// Returns whether an entry is at the place with this key and name, and is found there by its name.
fn is_at<A: Allocator>(list: &Keys<A>, at: Option<Place<u32>>, k: u64, name: u32) -> bool
    requires { IsPlace list.now.leaves (option_map (λ p. (p.leaf, p.at)) at) }
{
    match at {
        Some(p) => {
            let (other, n) = list.entry(p);
            *other == k && n == name && is_found(list, p)
        }
        None => false,
    }
}

/// Returns whether the entry at a place is found there by its name.
fn is_found<A: Allocator>(list: &Keys<A>, p: Place<u32>) -> bool
    requires { IsSome (entry_at list.now.leaves (p.leaf, p.at)) }
{
    // For the prover: no two entries have the same name.
    let _ = list.room();
    let name = list.entry(p).1;
    list.place(p.leaf, name) == p
}

/// Returns whether the list has these entries in this order, by places and from both ends.
pub(crate) fn agrees<A: Allocator>(list: &Keys<A>, entries: &[(u64, u32)]) -> bool {
    let mut at = list.first();
    for entry in entries {
        if !is_at(list, at, entry.0, entry.1) {
            return false;
        }
        at = next(list, at);
    }
    at.is_none() && agrees_forth(list, entries) && agrees_back(list, entries)
}

/// Returns whether the list gives these entries from its front.
fn agrees_forth<A: Allocator>(list: &Keys<A>, entries: &[(u64, u32)]) -> bool {
    let mut left = list.iter();
    for (k, name) in entries {
        match left.next() {
            Some((other, n)) if other == k && n == *name => {}
            _ => return false,
        }
    }
    left.next().is_none()
}

/// Returns whether the list gives these entries from its back.
fn agrees_back<A: Allocator>(list: &Keys<A>, entries: &[(u64, u32)]) -> bool {
    let mut left = list.iter();
    for (k, name) in entries.iter().rev() {
        match left.next_back() {
            Some((other, n)) if other == k && n == *name => {}
            _ => return false,
        }
    }
    left.next_back().is_none()
}

/// Returns the number of entries with a key less than `k`, or at most `k`.
pub(crate) fn count_before(entries: &[(u64, u32)], k: u64, with_equals: bool) -> usize {
    let mut n = 0usize;
    for (key, _) in entries {
        if *key < k || with_equals && *key == k {
            n = n.saturating_add(1);
        }
    }
    n
}

/// Inserts an entry into both, after every entry with a key ≤ its own.
pub(crate) fn insert(beside: &mut Beside, k: u64, name: u32) -> bool {
    let at = count_before(&beside.entries, k, true);
    enter(&mut beside.list, k, name)
        && at <= beside.entries.len()
        && beside.entries.insert(at, (k, name)).is_ok()
}

/// Removes the entry with this index from both, and returns whether it is the same.
pub(crate) fn remove(beside: &mut Beside, index: usize) -> bool {
    match nth(&beside.list, index) {
        Some(p) if index < beside.entries.len() => {
            let (entry, _) = beside.list.leave(p);
            entry == beside.entries.remove(index)
        }
        _ => false,
    }
}
