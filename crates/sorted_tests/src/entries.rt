//! Searches by a closure, places, and removals that return pointers, over the orders of up to three keys, beside the vector.
use crate::support::{Beside, Entry, Numbers, ORDERS, are_alike, beside_of};
use sorted_arena::{BasePtr, Entry as Place, P0};
use std::alloc::Global;

/// The keys that are asked for: 0 to 6, of which entries have 1, 3 and 5.
const ASKED: u64 = 7;

/// An entry of the vector, as the arena gives it.
fn parts(entries: &[Entry], place: usize) -> Option<(P0, u64, usize)> {
    let entry = entries.get(place)?;
    Some((entry.p, entry.k, entry.v))
}

/// How many entries have a smaller key.
fn rank(entries: &[Entry], k: u64) -> usize {
    let mut count = 0usize;
    for entry in entries {
        if entry.k < k {
            count = count.saturating_add(1);
        }
    }
    count
}

/// Whether a key is found by a closure as it is by itself, and has its entry and its rank.
fn is_found(beside: &Beside, k: u64) -> bool {
    let arena = &beside.arena;
    let by_closure = (
        arena.find_by(|x| x.cmp(&k)),
        arena.lower_bound_by(|x| x.cmp(&k)),
        arena.upper_bound_by(|x| x.cmp(&k)),
    );
    let by_key = (arena.find(&k), arena.lower_bound(&k), arena.upper_bound(&k));
    let place = rank(&beside.entries, k);
    let wanted = match parts(&beside.entries, place) {
        Some(entry) if entry.1 == k => Some(entry),
        _ => None,
    };
    let given = match arena.get_by_key(&k) {
        Some((p, key, v)) => Some((p, *key, *v)),
        None => None,
    };
    by_closure == by_key && given == wanted && arena.rank(&k) == place
}

/// Whether each entry has its place.
fn are_placed(beside: &Beside) -> bool {
    let Beside { arena, entries } = beside;
    for place in 0..entries.len() {
        let p = entries[place].p;
        if arena.nth(place) != Some(p) || arena.rank_of(p) != Some(place) {
            return false;
        }
    }
    arena.nth(entries.len()) == None
}

/// Whether the first or the last entries come out one after another, up to a key, and the others stay.
fn are_popped(beside: &mut Beside, until: u64) -> bool {
    let Beside { arena, entries } = beside;
    let due = rank(entries, until.saturating_add(1));
    if due > entries.len() {
        return false;
    }
    for place in 0..due {
        if arena.pop_first_entry_until(&until) != parts(entries, place) {
            return false;
        }
    }
    if arena.pop_first_entry_until(&until) != None || !are_alike(arena, &entries[due..]) {
        return false;
    }
    if due < entries.len() && arena.pop_last_entry() != parts(entries, entries.len() - 1) {
        return false;
    }
    due + 1 >= entries.len() || arena.pop_first_entry() == parts(entries, due)
}

/// Pointers with their keys and values.
type Drained = Vec<(P0, u64, usize)>;

/// Whether the entries up to a key are drained by a range, or popped, without a lack of memory.
fn is_drained(arena: &mut Numbers, until: u64, by_range: bool, drained: &mut Drained) -> bool {
    if by_range {
        arena.drain_entries(..=until, drained).is_ok()
    } else {
        arena.pop_entries_until(&until, drained).is_ok()
    }
}

/// Whether these are the first entries, in order.
fn are_first(entries: &[Entry], given: &[(P0, u64, usize)]) -> bool {
    for place in 0..given.len() {
        if given.get(place).copied() != parts(entries, place) {
            return false;
        }
    }
    true
}

/// Whether the entries up to a key come out behind what a vector has.
fn are_drained(beside: &mut Beside, until: u64, by_range: bool, drained: &mut Drained) -> bool {
    let Beside { arena, entries } = beside;
    let due = rank(entries, until.saturating_add(1));
    let held = (P0::_from_raw(9, 9), 9, 9);
    if drained.push(held).is_err() || !is_drained(arena, until, by_range, drained) {
        return false;
    }
    let Some((first, rest)) = drained.as_slice().split_first() else {
        return false;
    };
    let is_right = *first == held && rest.len() == due && are_first(entries, rest);
    is_right && due <= entries.len() && are_alike(arena, &entries[due..])
}

/// Whether a key is found, or inserted, and its entry is removed by it.
fn is_found_or_inserted(beside: &mut Beside, k: u64) -> Option<bool> {
    let Beside { arena, entries } = beside;
    let before = arena.find(&k);
    let (p, back) = arena.find_or_insert(k, 77).ok()?;
    let is_right = match before {
        Some(q) => (p, back) == (q, Some(77)) && arena.len() == entries.len(),
        None => back == None && arena.get(p) == Some((&k, &77)),
    };
    let (q, key, _) = arena.remove_key_entry(&k)?;
    Some(is_right && (q, key) == (p, k) && !arena.contains(p))
}

/// Whether the place of a key is at the first entry that has it, whose value is written then, or a new one has it; and whether the same
/// entry is found again, and removed.
fn is_entered(arena: &mut Numbers, k: u64) -> Option<bool> {
    let before = arena.find(&k);
    let p = match arena.entry(k) {
        Place::Occupied(mut entry) => {
            entry.set_value(77);
            entry.pointer()
        }
        Place::Vacant(entry) => entry.insert(77).ok()?,
    };
    let is_first = arena.find(&k) == Some(p) && (before == None || before == Some(p));
    let taken = match arena.entry(k) {
        Place::Occupied(entry) => Some(entry.remove()),
        Place::Vacant(_) => None,
    };
    Some(is_first && taken == Some((k, 77)) && !arena.contains(p))
}

/// Whether an arena of n keys in this order is searched and popped as the vector.
fn is_searched(alloc: Global, n: usize, number: usize, k: u64) -> Option<bool> {
    let mut beside = beside_of(alloc, n, number)?;
    Some(is_found(&beside, k) && are_placed(&beside) && are_popped(&mut beside, k))
}

/// Whether such an arena is drained as the vector.
fn is_emptied(alloc: Global, n: usize, number: usize, k: u64) -> Option<bool> {
    let mut beside = beside_of(alloc, n, number)?;
    let mut drained = Vec::new(alloc);
    Some(are_drained(&mut beside, k, number % 2 == 0, &mut drained))
}

/// Whether such an arena finds or inserts a key, and removes its entry.
fn is_changed(alloc: Global, n: usize, number: usize, k: u64) -> Option<bool> {
    let is_right = is_found_or_inserted(&mut beside_of(alloc, n, number)?, k)?;
    Some(is_right && is_entered(&mut beside_of(alloc, n, number)?.arena, k)?)
}

#[test]
fn entries_are_found_placed_and_removed_as_in_a_vector(rt: HostRuntime) {
    for (n, orders) in &ORDERS[..4] {
        for number in 0..*orders {
            for k in 0..ASKED {
                assert_eq!(rt; is_searched(rt.alloc(), *n, number, k), Some(true));
                assert_eq!(rt; is_emptied(rt.alloc(), *n, number, k), Some(true));
                assert_eq!(rt; is_changed(rt.alloc(), *n, number, k), Some(true));
            }
        }
    }
}
