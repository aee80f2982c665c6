//! The measures of the arena, each of it and of another structure in turn.
use crate::arena::{Pairs, Pointed, SmallPairs, appended};
use crate::hints::{FromHints, FromTheRoot, hints_of};
use crate::keys::{Keys, keys_of, pairs_of, shuffle};
use crate::lap::{Lap, rounds};
use crate::map::Map;
use crate::report::{Row, print};
use crate::store::{Finding, Store, Walking, churn, filled, take_all};
use crate::task::{Getting, Measure, Neighbours, Reached, Stepping, compare};
use crate::vector::{Items, Slots};
use anyhow::Result;
use std::alloc::{AllocError, Global};
use std::time::Instant;

/// Measures everything at n entries, and prints it.
pub fn run(rt: &HostRuntime, n: usize) -> Result<()> {
    let keys = keys_of(rt.alloc(), n)?;
    compare_changing(rt, &keys)?;
    compare_standing(rt, &keys)?;
    compare_rebuilt(rt, &keys)?;
    compare_small(rt, &keys)
}

// Entries that come and go.
fn compare_changing(rt: &HostRuntime, keys: &Keys) -> Result<()> {
    for (measure, work) in &changes(keys) {
        compare_work::<Pairs, Map>(rt, MAP, measure, *work)?;
    }
    compare_appending(rt, &keys.ascending)
}

// What is done to structures whose entries come and go.
fn changes(keys: &Keys) -> [(&'static str, Work<'_>); 4] {
    [
        ("insert random keys", Work::Fill(&keys.random)),
        ("insert ascending keys", Work::Fill(&keys.ascending)),
        ("remove by pointer", Work::Remove(keys)),
        ("remove and insert", Work::Churn(keys)),
    ]
}

// Entries that stay.
fn compare_standing(rt: &HostRuntime, keys: &Keys) -> Result<()> {
    let pairs: Pairs = filled(rt.alloc(), &keys.random)?;
    compare_with_map(rt, &pairs, keys)?;
    for (measure, places) in &[
        ("find at the hint", 0usize),
        ("find beside the hint", 1),
        ("find ten from the hint", 10),
    ] {
        compare_hints(rt, measure, &pairs, *places)?;
    }
    compare_with_vectors(rt, &pairs)
}

// The arena of these keys beside a map of them.
fn compare_with_map(rt: &HostRuntime, pairs: &Pairs, keys: &Keys) -> Result<()> {
    let map: Map = filled(rt.alloc(), &keys.random)?;
    compare_finding(rt, MAP, "find hits", pairs, &map, &keys.hits)?;
    compare_finding(rt, MAP, "find misses", pairs, &map, &keys.misses)?;
    compare_walking(rt, MAP, "go through in order", pairs, &map)
}

// The arena in the canonical order.
fn compare_rebuilt(rt: &HostRuntime, keys: &Keys) -> Result<()> {
    for (measure, keys_of_arena) in &[
        ("rebuild random keys", &keys.random),
        ("rebuild ascending keys", &keys.ascending),
    ] {
        compare_rebuilding(rt, measure, keys_of_arena, &keys.ascending)?;
    }
    let rebuilt = rebuilt_of(rt.alloc(), &keys.random)?;
    let map: Map = filled(rt.alloc(), &keys.random)?;
    compare_walking(rt, MAP, "go through rebuilt", &rebuilt, &map)
}

// The arena with generations of 32 bits, beside the usual one.
fn compare_small(rt: &HostRuntime, keys: &Keys) -> Result<()> {
    for (measure, work) in &changes(keys) {
        compare_work::<SmallPairs, Pairs>(rt, SMALL, measure, *work)?;
    }
    let small: SmallPairs = filled(rt.alloc(), &keys.random)?;
    let usual: Pairs = filled(rt.alloc(), &keys.random)?;
    compare_small_standing(rt, keys, &small, &usual)
}

// The same, while their entries stay.
fn compare_small_standing(
    rt: &HostRuntime,
    keys: &Keys,
    small: &SmallPairs,
    usual: &Pairs,
) -> Result<()> {
    for (measure, keys) in &[("find hits", &keys.hits), ("find misses", &keys.misses)] {
        compare_finding(rt, SMALL, measure, small, usual, keys)?;
    }
    compare_walking(rt, SMALL, "go through in order", small, usual)?;
    compare_small_pointers(rt, small, usual)
}

// The names of the structures that are measured in turn.
const MAP: (&str, &str) = ("arena", "BTreeMap");

const SMALL: (&str, &str) = ("arena of P32", "arena");

fn compare_small_pointers(rt: &HostRuntime, small: &SmallPairs, usual: &Pairs) -> Result<()> {
    let mut small_names = small.names(rt.alloc())?;
    shuffle(small_names.as_mut_slice());
    let mut names = usual.names(rt.alloc())?;
    shuffle(names.as_mut_slice());
    let own = Pointed {
        pairs: small,
        pointers: small_names.as_slice(),
    };
    let other = Pointed {
        pairs: usual,
        pointers: names.as_slice(),
    };
    let measure = Measure {
        n: usual.len(),
        name: "get by pointer",
        own_name: SMALL.0,
        other_name: SMALL.1,
    };
    compare(rt, measure, &Getting(&own), &Getting(&other))?;
    let neighbours = Measure {
        name: "both neighbours",
        ..measure
    };
    compare(rt, neighbours, &Neighbours(&own), &Neighbours(&other))
}

// Prints the best rounds of the arena and of a map.
fn report(rt: &HostRuntime, n: usize, measure: &str, arena: Lap, map: Lap) -> Result<()> {
    report_both(rt, MAP, n, measure, (arena, map))
}

// Prints the best rounds of two structures with these names.
fn report_both(
    rt: &HostRuntime,
    names: (&str, &str),
    n: usize,
    measure: &str,
    laps: (Lap, Lap),
) -> Result<()> {
    let row = Row {
        n,
        measure,
        name: names.0,
        own: laps.0,
        other: laps.1,
        other_name: names.1,
    };
    print(rt, row)?;
    Ok(())
}

// What is done in a round to a structure of its own.
#[derive(Clone, Copy)]
enum Work<'a> {
    Fill(&'a [u64]),
    Remove(&'a Keys),
    Churn(&'a Keys),
}

impl Work<'_> {
    // How many operations it is.
    fn size(self) -> usize {
        match self {
            Work::Fill(keys) => keys.len(),
            Work::Remove(keys) | Work::Churn(keys) => keys.random.len(),
        }
    }

    fn lap<S: Store>(self, rt: &HostRuntime) -> Result<Lap> {
        match self {
            Work::Fill(keys) => filling::<S>(rt, keys),
            Work::Remove(keys) => removal::<S>(rt, keys),
            Work::Churn(keys) => churning::<S>(rt, keys),
        }
    }
}

fn filling<S: Store>(rt: &HostRuntime, keys: &[u64]) -> Result<Lap> {
    let start = Instant::now(rt)?;
    let store: S = filled(rt.alloc(), keys)?;
    Ok(Lap::since(rt, start, store.size() as u64)?)
}

// A structure of these keys, with the names of its entries in a random order.
fn named<S: Store>(alloc: Global, keys: &[u64]) -> Result<(S, Vec<S::Name>), AllocError> {
    let store: S = filled(alloc, keys)?;
    let mut names = store.names(alloc)?;
    shuffle(names.as_mut_slice());
    Ok((store, names))
}

fn removal<S: Store>(rt: &HostRuntime, keys: &Keys) -> Result<Lap> {
    let (mut store, names) = named::<S>(rt.alloc(), &keys.random)?;
    let start = Instant::now(rt)?;
    let sum = take_all(&mut store, &names);
    Ok(Lap::since(rt, start, sum)?)
}

fn churning<S: Store>(rt: &HostRuntime, keys: &Keys) -> Result<Lap> {
    let (mut store, names) = named::<S>(rt.alloc(), &keys.random)?;
    let start = Instant::now(rt)?;
    let sum = churn(&mut store, &names, &keys.misses)?;
    Ok(Lap::since(rt, start, sum)?)
}

fn compare_work<S: Store, O: Store>(
    rt: &HostRuntime,
    names: (&str, &str),
    measure: &str,
    work: Work,
) -> Result<()> {
    let mut own = work.lap::<S>(rt)?;
    let mut other = work.lap::<O>(rt)?;
    for _ in 1..rounds(work.size()) {
        own = own.or_quicker(work.lap::<S>(rt)?);
        other = other.or_quicker(work.lap::<O>(rt)?);
    }
    report_both(rt, names, work.size(), measure, (own, other))
}

fn appending(rt: &HostRuntime, keys: &[u64]) -> Result<Lap> {
    let start = Instant::now(rt)?;
    let pairs = appended(rt.alloc(), keys)?;
    Ok(Lap::since(rt, start, pairs.size() as u64)?)
}

fn compare_appending(rt: &HostRuntime, keys: &[u64]) -> Result<()> {
    let mut arena = appending(rt, keys)?;
    let mut map = filling::<Map>(rt, keys)?;
    for _ in 1..rounds(keys.len()) {
        arena = arena.or_quicker(appending(rt, keys)?);
        map = map.or_quicker(filling::<Map>(rt, keys)?);
    }
    report(rt, keys.len(), "append ascending keys", arena, map)
}

fn compare_finding<S: Store, O: Store>(
    rt: &HostRuntime,
    names: (&str, &str),
    measure: &str,
    own: &S,
    other: &O,
    keys: &[u64],
) -> Result<()> {
    let measure = Measure {
        n: keys.len(),
        name: measure,
        own_name: names.0,
        other_name: names.1,
    };
    let own = Finding { store: own, keys };
    compare(rt, measure, &own, &Finding { store: other, keys })
}

fn compare_hints(rt: &HostRuntime, measure: &str, pairs: &Pairs, places: usize) -> Result<()> {
    let hints = hints_of(rt.alloc(), pairs, places)?;
    let hints = hints.as_slice();
    let measure = Measure {
        n: hints.len(),
        name: measure,
        own_name: "arena",
        other_name: "find_key",
    };
    let own = FromHints { pairs, hints };
    compare(rt, measure, &own, &FromTheRoot { pairs, hints })
}

fn compare_walking<S: Store, O: Store>(
    rt: &HostRuntime,
    names: (&str, &str),
    measure: &str,
    own: &S,
    other: &O,
) -> Result<()> {
    let measure = Measure {
        n: own.size(),
        name: measure,
        own_name: names.0,
        other_name: names.1,
    };
    compare(
        rt,
        measure,
        &Walking { store: own },
        &Walking { store: other },
    )
}

// An arena of these keys, inserted one after another, and then in the canonical order.
fn rebuilt_of(alloc: Global, keys: &[u64]) -> Result<Pairs, AllocError> {
    let mut pairs: Pairs = filled(alloc, keys)?;
    let _ = pairs.compress_canonical(true);
    Ok(pairs)
}

fn rebuilding(rt: &HostRuntime, keys: &[u64]) -> Result<Lap> {
    let mut pairs: Pairs = filled(rt.alloc(), keys)?;
    let start = Instant::now(rt)?;
    let _ = pairs.compress_canonical(true);
    Ok(Lap::since(rt, start, pairs.size() as u64)?)
}

fn building(rt: &HostRuntime, sorted: &[(u64, u64)]) -> Result<Lap> {
    let start = Instant::now(rt)?;
    let map: Map = sorted.iter().copied().collect(rt.alloc())?;
    Ok(Lap::since(rt, start, map.size() as u64)?)
}

fn compare_rebuilding(rt: &HostRuntime, measure: &str, keys: &[u64], sorted: &[u64]) -> Result<()> {
    let sorted = pairs_of(rt.alloc(), sorted)?;
    let mut arena = rebuilding(rt, keys)?;
    let mut map = building(rt, &sorted)?;
    for _ in 1..rounds(keys.len()) {
        arena = arena.or_quicker(rebuilding(rt, keys)?);
        map = map.or_quicker(building(rt, &sorted)?);
    }
    report(rt, keys.len(), measure, arena, map)
}

fn compare_with_vectors(rt: &HostRuntime, pairs: &Pairs) -> Result<()> {
    let mut pointers = pairs.names(rt.alloc())?;
    shuffle(pointers.as_mut_slice());
    let pointed = Pointed {
        pairs,
        pointers: pointers.as_slice(),
    };
    compare_reaching(
        rt,
        pointed,
        "Vec of items",
        &Items::of(rt.alloc(), pointed)?,
    )?;
    compare_with_slots(rt, pointed, &Slots::of(rt.alloc(), pointed)?)
}

fn compare_reaching<R: Reached>(
    rt: &HostRuntime,
    pointed: Pointed,
    other_name: &str,
    vector: &R,
) -> Result<()> {
    let measure = Measure {
        n: pointed.pointers.len(),
        name: "get by pointer",
        own_name: "arena",
        other_name,
    };
    compare(rt, measure, &Getting(&pointed), &Getting(vector))
}

fn compare_with_slots(rt: &HostRuntime, pointed: Pointed, slots: &Slots) -> Result<()> {
    compare_reaching(rt, pointed, "Vec of slots", slots)?;
    let neighbours = Measure {
        n: pointed.pointers.len(),
        name: "both neighbours",
        own_name: "arena",
        other_name: "Vec of slots",
    };
    compare(rt, neighbours, &Neighbours(&pointed), &Neighbours(slots))?;
    let steps = Measure {
        name: "step to the next",
        ..neighbours
    };
    compare(rt, steps, &Stepping(&pointed), &Stepping(slots))
}
