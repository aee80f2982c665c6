//! Tests that keep entries: every choice among the entries of every order of up to six keys, beside the vector.
use crate::support::{Beside, Entry, ORDERS, are_alike, are_found, beside_of};
use std::alloc::Global;

/// How many choices there are among so many entries.
const CHOICES: [usize; 6] = [1, 2, 4, 8, 16, 32];

/// Whether the bit at a place is set.
fn is_chosen(bits: usize, place: usize) -> bool {
    let mut rest = bits;
    for _ in 0..place {
        rest /= 2;
    }
    rest % 2 == 1
}

/// The entries whose bits are set.
fn chosen(alloc: Global, entries: &[Entry], bits: usize) -> Option<Vec<Entry>> {
    let mut kept = Vec::new(alloc);
    for place in 0..entries.len() {
        if is_chosen(bits, place) {
            kept.push(entries[place]).ok()?;
        }
    }
    Some(kept)
}

/// Whether the test is asked once for each entry, in order, and those are kept whose bits are set.
fn is_retained(alloc: Global, n: usize, number: usize, bits: usize) -> Option<bool> {
    let Beside { mut arena, entries } = beside_of(alloc, n, number)?;
    let kept = chosen(alloc, &entries, bits)?;
    let mut asked = 0usize;
    let mut right = 0usize;
    arena.retain(|k, v| {
        let place = asked;
        asked = asked.wrapping_add(1);
        if let Some(entry) = entries.get(place) {
            if (entry.k, entry.v) == (*k, *v) {
                right = right.wrapping_add(1);
            }
        }
        is_chosen(bits, place)
    });
    let is_asked = (asked, right) == (entries.len(), entries.len());
    Some(is_asked && are_alike(&arena, &kept) && are_found(&arena, &kept))
}

#[test]
fn retain_asks_about_each_entry_once_and_keeps_the_chosen_ones(rt: HostRuntime) {
    for (n, orders) in &ORDERS {
        for number in 0..*orders {
            for bits in 0..CHOICES[*n % 6] {
                assert_eq!(rt; is_retained(rt.alloc(), *n, number, bits), Some(true));
            }
        }
    }
}
