//! The measures of entries that get other keys: in place, and removed and inserted again.
use crate::arena::Pairs;
use crate::keys::{Keys, keys_of, shuffle};
use crate::lap::{Lap, rounds};
use crate::report::{Row, print};
use crate::store::{Store, filled};
use anyhow::Result;
use std::alloc::{AllocError, Global};
use std::time::Instant;
use triple_ord::{OrdInsertKind, OrdPair, P0};

/// Measures each kind of new keys at n entries, and prints it.
pub fn run(rt: &HostRuntime, n: usize) -> Result<()> {
    let keys = keys_of(rt.alloc(), n)?;
    compare_rekeying(rt, "rekey in place", &keys, Target::Here)?;
    compare_rekeying(rt, "rekey to a near key", &keys, Target::Near)?;
    compare_rekeying(rt, "rekey to a random key", &keys, Target::Random)
}

// Where the new keys lie: between the neighbours of the entry, about four entries further on, or anywhere.
#[derive(Clone, Copy)]
enum Target {
    Here,
    Near,
    Random,
}

// A pointer, and the key that its entry gets.
#[derive(Clone, Copy)]
struct Change {
    p: P0,
    key: u64,
}

// An arena of the random keys, and a change for each of its entries, in a random order.
fn changes_of(
    alloc: Global,
    keys: &Keys,
    target: Target,
) -> Result<(Pairs, Vec<Change>), AllocError> {
    let pairs: Pairs = filled(alloc, &keys.random)?;
    let mut names = pairs.names(alloc)?;
    shuffle(names.as_mut_slice());
    let four_entries = (u64::MAX / (keys.random.len() as u64).max(1)).saturating_mul(4);
    let mut changes = Vec::new(alloc);
    for (p, random) in names.iter().zip(&keys.misses) {
        let Some(pair) = pairs.get(*p) else {
            continue;
        };
        let key = match target {
            Target::Here => pair.k().saturating_add(1),
            Target::Near => pair.k().saturating_add(four_entries),
            Target::Random => *random,
        };
        changes.push(Change { p: *p, key })?;
    }
    Ok((pairs, changes))
}

// Each entry gets its key in place.
fn rekey_all(pairs: &mut Pairs, changes: &[Change]) {
    for change in changes {
        let _ = pairs.rekey(change.p, OrdPair::new(change.key, change.key >> 8));
    }
}

// Each entry is removed, and one with its key is inserted, behind all with an equal key as `rekey` does.
fn reinsert_all(pairs: &mut Pairs, changes: &[Change]) -> Result<(), AllocError> {
    for change in changes {
        let _ = pairs.remove(change.p);
        match pairs.entry_insert(OrdInsertKind::Nonhereditary(&change.key)) {
            Ok(entry) => {
                let _ = entry.insert(OrdPair::new(change.key, change.key >> 8));
            }
            Err(_) => return Err(AllocError),
        }
    }
    Ok(())
}

// A sum that depends on the order of the entries.
fn order_of(pairs: &Pairs) -> u64 {
    let mut sum = 0u64;
    for (_, pair) in pairs {
        sum = sum.wrapping_mul(31).wrapping_add(*pair.v());
    }
    sum
}

fn rekeying(rt: &HostRuntime, keys: &Keys, target: Target) -> Result<Lap> {
    let (mut pairs, changes) = changes_of(rt.alloc(), keys, target)?;
    let start = Instant::now(rt)?;
    rekey_all(&mut pairs, &changes);
    let lap = Lap::since(rt, start, 0)?;
    Ok(Lap {
        sum: order_of(&pairs),
        ..lap
    })
}

fn reinserting(rt: &HostRuntime, keys: &Keys, target: Target) -> Result<Lap> {
    let (mut pairs, changes) = changes_of(rt.alloc(), keys, target)?;
    let start = Instant::now(rt)?;
    reinsert_all(&mut pairs, &changes)?;
    let lap = Lap::since(rt, start, 0)?;
    Ok(Lap {
        sum: order_of(&pairs),
        ..lap
    })
}

fn compare_rekeying(rt: &HostRuntime, measure: &str, keys: &Keys, target: Target) -> Result<()> {
    let n = keys.random.len();
    let mut own = rekeying(rt, keys, target)?;
    let mut other = reinserting(rt, keys, target)?;
    for _ in 1..rounds(n) {
        own = own.or_quicker(rekeying(rt, keys, target)?);
        other = other.or_quicker(reinserting(rt, keys, target)?);
    }
    let row = Row {
        n,
        measure,
        name: "arena",
        own,
        other,
        other_name: "remove and insert",
    };
    print(rt, row)?;
    Ok(())
}
