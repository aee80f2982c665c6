//! The measures of a sorted arena and of std's `BTreeMap` in turn.
use crate::keys::{Keys, keys_of, pairs_of, shuffle};
use crate::lap::{Lap, rounds};
use crate::map::Map;
use crate::report::{Row, print};
use crate::sorted::{Bounding, InOrder, Ranging, Sorted, Span};
use crate::store::{Store, filled};
use crate::task::{Measure, Task, compare};
use anyhow::Result;
use std::alloc::{AllocError, Global};
use std::time::Instant;

/// Measures everything at n entries, and prints it.
pub fn run(rt: &HostRuntime, n: usize) -> Result<()> {
    let keys = keys_of(rt.alloc(), n)?;
    let works = [
        ("build from sorted", Work::Build(&keys.ascending)),
        ("insert random keys", Work::Fill(&keys.random)),
        ("pop all", Work::Pop(&keys.random)),
    ];
    for (measure, work) in &works {
        compare_work(rt, measure, *work)?;
    }
    compare_standing(rt, &keys)
}

// What is done in a round to a structure of its own.
#[derive(Clone, Copy)]
enum Work<'a> {
    Build(&'a [u64]),
    Fill(&'a [u64]),
    Pop(&'a [u64]),
}

impl Work<'_> {
    // How many operations it is.
    fn size(self) -> usize {
        match self {
            Work::Build(keys) | Work::Fill(keys) | Work::Pop(keys) => keys.len(),
        }
    }

    fn lap<S: InOrder>(self, rt: &HostRuntime) -> Result<Lap> {
        match self {
            Work::Build(keys) => building::<S>(rt, keys),
            Work::Fill(keys) => filling::<S>(rt, keys),
            Work::Pop(keys) => popping::<S>(rt, keys),
        }
    }
}

fn building<S: InOrder>(rt: &HostRuntime, keys: &[u64]) -> Result<Lap> {
    let pairs = pairs_of(rt.alloc(), keys)?;
    let start = Instant::now(rt)?;
    let store = S::from_sorted(rt.alloc(), pairs)?;
    Ok(Lap::since(rt, start, store.size() as u64)?)
}

fn filling<S: Store>(rt: &HostRuntime, keys: &[u64]) -> Result<Lap> {
    let start = Instant::now(rt)?;
    let store: S = filled(rt.alloc(), keys)?;
    Ok(Lap::since(rt, start, store.size() as u64)?)
}

fn popping<S: InOrder>(rt: &HostRuntime, keys: &[u64]) -> Result<Lap> {
    let mut store: S = filled(rt.alloc(), keys)?;
    let start = Instant::now(rt)?;
    let order = store.pop_all();
    Ok(Lap::since(rt, start, order)?)
}

fn compare_work(rt: &HostRuntime, measure: &str, work: Work) -> Result<()> {
    let mut arena = work.lap::<Sorted>(rt)?;
    let mut map = work.lap::<Map>(rt)?;
    for _ in 1..rounds(work.size()) {
        arena = arena.or_quicker(work.lap::<Sorted>(rt)?);
        map = map.or_quicker(work.lap::<Map>(rt)?);
    }
    let row = Row {
        n: work.size(),
        measure,
        name: "sorted arena",
        own: arena,
        other: map,
        other_name: "BTreeMap",
    };
    print(rt, row)?;
    Ok(())
}

// Entries that stay: in an arena as it grew, and in one that was compacted.
fn compare_standing(rt: &HostRuntime, keys: &Keys) -> Result<()> {
    let mut arena: Sorted = filled(rt.alloc(), &keys.random)?;
    let map: Map = filled(rt.alloc(), &keys.random)?;
    let own = Bounding {
        store: &arena,
        keys: &keys.misses,
    };
    let other = Bounding {
        store: &map,
        keys: &keys.misses,
    };
    compare_tasks(rt, "lower bound", keys, &own, &other)?;
    compare_ranges(rt, ("range of 10", "range of 1000"), keys, &arena, &map)?;
    arena.compact();
    let measures = ("compact range of 10", "compact range of 1000");
    compare_ranges(rt, measures, keys, &arena, &map)
}

// Short ranges and long ones, by the names of their measures.
fn compare_ranges(
    rt: &HostRuntime,
    (short, long): (&str, &str),
    keys: &Keys,
    arena: &Sorted,
    map: &Map,
) -> Result<()> {
    for (measure, len) in &[(short, 10), (long, 1000)] {
        let spans = spans_of(rt.alloc(), arena, *len)?;
        let own = Ranging {
            store: arena,
            spans: &spans,
        };
        let other = Ranging {
            store: map,
            spans: &spans,
        };
        compare_tasks(rt, measure, keys, &own, &other)?;
    }
    Ok(())
}

// Spans of so many entries each, the last one of fewer, in a random order. Each entry is in one of them.
fn spans_of(alloc: Global, arena: &Sorted, len: usize) -> Result<Vec<Span>, AllocError> {
    let keys: Vec<u64> = arena.iter().keys().copied().collect(alloc)?;
    let mut spans = Vec::new(alloc);
    for block in keys.chunks(len.max(1)) {
        if let (Some(first), Some(last)) = (block.first(), block.last()) {
            spans.push(Span {
                from: *first,
                until: last.saturating_add(1),
            })?;
        }
    }
    shuffle(spans.as_mut_slice());
    Ok(spans)
}

// Runs the rounds of both structures in turn. A round has an operation for each key.
fn compare_tasks<A: Task, B: Task>(
    rt: &HostRuntime,
    measure: &str,
    keys: &Keys,
    arena: &A,
    map: &B,
) -> Result<()> {
    let measure = Measure {
        n: keys.random.len(),
        name: measure,
        own_name: "sorted arena",
        other_name: "BTreeMap",
    };
    compare(rt, measure, arena, map)
}
