//! Many calls in turn, each beside a plain vector.
use crate::support::{Beside, Keys, agrees, can_enter, count_before, insert, nth, remove};
use std::alloc::Global;

/// The next of a sequence of pseudorandom numbers.
fn next_random(seed: u64) -> u64 {
    seed.wrapping_mul(6364136223846793005)
        .wrapping_add(1442695040888963407)
}

/// Returns whether a search stops at the same entry as in the vector.
fn is_bound(beside: &Beside, k: u64, with_equals: bool) -> bool {
    let index = count_before(&beside.entries, k, with_equals);
    let (found, _) = beside.list.bound(&k, with_equals);
    found == nth(&beside.list, index)
}

/// A list with many entries after so many insertions and removals by turns.
fn mixed(alloc: Global, steps: u32) -> Option<Beside> {
    let mut beside = Beside {
        list: Keys::new(alloc),
        entries: Vec::new(alloc),
    };
    beside.list.reserve(steps as usize).ok()?;
    let mut seed = 7u64;
    for i in 0..steps {
        seed = next_random(seed);
        let r = seed >> 33;
        let len = beside.entries.len();
        let is_done = if r % 5 < 3 || len == 0 {
            insert(&mut beside, (r >> 8) % 40, i + 1)
        } else {
            remove(&mut beside, (r >> 8) as usize % len)
        };
        if !is_done || !is_bound(&beside, r % 41, i % 2 == 0) {
            return None;
        }
        if i % 16 == 0 && !agrees(&beside.list, &beside.entries) {
            return None;
        }
    }
    Some(beside)
}

/// Exchanges the names of the first and the last entry, and returns whether both agree.
fn swaps_names(beside: &mut Beside) -> bool {
    let n = beside.entries.len();
    let (Some(p), Some(q)) = (beside.list.first(), beside.list.last()) else {
        return false;
    };
    if n == 0 {
        return false;
    }
    beside.list.swap_names(p, q);
    let name = beside.entries[0].1;
    beside.entries[0].1 = beside.entries[n - 1].1;
    beside.entries[n - 1].1 = name;
    agrees(&beside.list, &beside.entries)
}

/// Gives the first entry another name, and returns whether both agree.
fn renames(beside: &mut Beside, name: u32) -> bool {
    match beside.list.first() {
        Some(p) if can_enter(&beside.list, name) && !beside.entries.is_empty() => {
            beside.list.rename(p, name);
            beside.entries[0].1 = name;
            agrees(&beside.list, &beside.entries)
        }
        _ => false,
    }
}

#[test]
fn calls_agree_with_a_vector(rt: HostRuntime) {
    let mut beside = mixed(rt.alloc(), 900).expect(&rt, "the same entries");
    assert!(rt; beside.entries.len() > 100);
    assert!(rt; swaps_names(&mut beside));
    assert!(rt; renames(&mut beside, 1000));
    let mut copy = beside.list.clone().expect(&rt, "memory");
    assert!(rt; agrees(&copy, &beside.entries));
    copy.shrink(0);
    assert!(rt; agrees(&copy, &beside.entries));
    assert!(rt; copy.room() <= beside.list.room());
    copy.clear();
    assert!(rt; agrees(&copy, &[]));
    assert!(rt; agrees(&beside.list, &beside.entries));
}
