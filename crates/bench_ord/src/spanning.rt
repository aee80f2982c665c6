//! The measures of a timeline and of a `BTreeMap` of changes in turn.
use crate::keys::{Keys, keys_of, shuffle};
use crate::task::{Measure, Task, compare};
use anyhow::Result;
use std::alloc::{AllocError, Global};
use std::collections::BTreeMap;
use timeline::Timeline;

/// Measures the spans of a timeline of n stretches, and prints it.
pub fn run(rt: &HostRuntime, n: usize) -> Result<()> {
    let keys = keys_of(rt.alloc(), n)?;
    let line: Timeline<u64> = painted(rt.alloc(), &keys.ascending)?;
    let map: Changes = painted(rt.alloc(), &keys.ascending)?;
    compare_spans(rt, ("spans over 10", 10), &keys, &line, &map)?;
    compare_spans(rt, ("spans over 1000", 1000), &keys, &line, &map)
}

// The changes of a timeline: from each time on a value holds, or none.
type Changes = BTreeMap<u64, Option<u64>>;

// Values over time.
trait Stretches: Drop {
    // A structure without values.
    fn empty(alloc: Global) -> Self;

    // Sets a value from one time until before another, behind all that were set.
    fn put(&mut self, from: u64, until: u64, value: u64) -> Result<(), AllocError>;

    // Goes through the spans of a time, and adds up their values and the times at which they begin and end.
    fn sum_of(&self, time: Time) -> u64;
}

// The time from one moment until before another.
#[derive(Clone, Copy)]
struct Time {
    from: u64,
    until: u64,
}

// What a span adds to the sum.
fn worth(from: u64, until: u64, value: u64) -> u64 {
    until.wrapping_sub(from).wrapping_mul(value)
}

impl Stretches for Timeline<u64> {
    fn empty(alloc: Global) -> Self {
        Timeline::new(alloc)
    }

    fn put(&mut self, from: u64, until: u64, value: u64) -> Result<(), AllocError> {
        match self.set(from, until, value) {
            Ok(()) => Ok(()),
            Err(_) => Err(AllocError),
        }
    }

    fn sum_of(&self, time: Time) -> u64 {
        let mut sum = 0u64;
        for span in self.spans(time.from, time.until) {
            sum = sum.wrapping_add(worth(span.from, span.until, *span.value));
        }
        sum
    }
}

impl Stretches for Changes {
    fn empty(alloc: Global) -> Self {
        BTreeMap::new(alloc)
    }

    fn put(&mut self, from: u64, until: u64, value: u64) -> Result<(), AllocError> {
        let _ = self.insert(from, Some(value))?;
        let _ = self.insert(until, None)?;
        Ok(())
    }

    fn sum_of(&self, time: Time) -> u64 {
        let mut sum = 0u64;
        let mut from = time.from;
        let mut held = match self.range(..=time.from).next_back() {
            Some((_, value)) => *value,
            None => None,
        };
        // a map has no range that runs backwards
        let Some(behind) = time.from.checked_add(1) else {
            return 0;
        };
        if time.until < behind {
            return 0;
        }
        for (at, next) in self.range(behind..time.until) {
            sum = sum.wrapping_add(worth(from, *at, held.unwrap_or(0)));
            from = *at;
            held = *next;
        }
        sum.wrapping_add(worth(from, time.until, held.unwrap_or(0)))
    }
}

// A structure in which a value begins at each of these times, which ascend.
fn painted<S: Stretches>(alloc: Global, times: &[u64]) -> Result<S, AllocError> {
    let mut stretches = S::empty(alloc);
    for pair in times.windows(2) {
        if let [from, until] = pair {
            stretches.put(*from, *until, from.wrapping_add(1))?;
        }
    }
    Ok(stretches)
}

// The spans of each time are gone through.
#[derive(Clone, Copy)]
struct Spanning<'a, S> {
    stretches: &'a S,
    times: &'a [Time],
}

impl<S: Stretches> Task for Spanning<'_, S> {
    fn sum(&self) -> u64 {
        let mut sum = 0u64;
        for time in self.times {
            sum = sum.wrapping_add(self.stretches.sum_of(*time));
        }
        sum
    }
}

// Times of so many stretches each, the last one of fewer, in a random order. Each stretch is in one of them.
fn times_of(alloc: Global, changes: &[u64], len: usize) -> Result<Vec<Time>, AllocError> {
    let mut times = Vec::new(alloc);
    for block in changes.chunks(len.max(1)) {
        if let (Some(first), Some(last)) = (block.first(), block.last()) {
            times.push(Time {
                from: *first,
                until: last.saturating_add(1),
            })?;
        }
    }
    shuffle(times.as_mut_slice());
    Ok(times)
}

// Runs the rounds of both structures in turn. A round has an operation for each stretch.
fn compare_spans(
    rt: &HostRuntime,
    (measure, len): (&str, usize),
    keys: &Keys,
    line: &Timeline<u64>,
    map: &Changes,
) -> Result<()> {
    let times = times_of(rt.alloc(), &keys.ascending, len)?;
    let measure = Measure {
        n: keys.ascending.len(),
        name: measure,
        own_name: "timeline",
        other_name: "BTreeMap",
    };
    let own = Spanning {
        stretches: line,
        times: &times,
    };
    let other = Spanning {
        stretches: map,
        times: &times,
    };
    compare(rt, measure, &own, &other)
}
