//! Leaves that become full, are split, and take entries over, at each border of their sizes.
use crate::support::{Beside, Keys, agrees, insert, remove};
use std::alloc::Global;

/// Numbers of entries around the sizes of one, two and three leaves.
const SIZES: [u32; 14] = [1, 2, 15, 16, 17, 31, 32, 33, 47, 48, 49, 63, 64, 65];

/// A list with n entries, inserted in ascending order, in descending order, or by turns; each key occurs three times.
fn filled(alloc: Global, n: u32, order: u32) -> Option<Beside> {
    let mut beside = Beside {
        list: Keys::new(alloc),
        entries: Vec::new(alloc),
    };
    beside.list.reserve(n as usize).ok()?;
    for i in 0..n {
        let k = match order {
            0 => i,
            1 => n - i,
            _ if i % 2 == 0 => i,
            _ => n.saturating_mul(2) - i,
        };
        if !insert(&mut beside, (k / 3) as u64, i + 1) || !agrees(&beside.list, &beside.entries) {
            return None;
        }
    }
    Some(beside)
}

/// Removes all entries, always the first, the last, or the one in the middle.
fn emptied(beside: &mut Beside, order: u32) -> bool {
    let n = beside.entries.len();
    for _ in 0..n {
        let len = beside.entries.len();
        let index = match order {
            0 => 0,
            1 => len.saturating_sub(1),
            _ => len / 2,
        };
        if !remove(beside, index) || !agrees(&beside.list, &beside.entries) {
            return false;
        }
    }
    agrees(&beside.list, &[])
}

#[test]
fn entries_come_and_go_at_each_border(rt: HostRuntime) {
    for n in SIZES.iter() {
        for into in 0..3u32 {
            for out in 0..3u32 {
                let mut beside = filled(rt.alloc(), *n, into).expect(&rt, "the same entries");
                assert!(rt; emptied(&mut beside, out));
            }
        }
    }
}
