//! What is measured of a structure that stays as it is.
use crate::lap::{Lap, rounds};
use crate::report::{Row, print};
use anyhow::Result;
use std::io;
use std::time::Instant;

/// What is done in each round.
pub trait Task {
    /// Does it, and adds up what was answered.
    fn sum(&self) -> u64;
}

/// A measure: how many operations a round of it has, its name, and those of the structure that is measured and of the one beside it.
#[derive(Clone, Copy)]
pub struct Measure<'a> {
    pub n: usize,
    pub name: &'a str,
    pub own_name: &'a str,
    pub other_name: &'a str,
}

fn lap<T: Task>(rt: &HostRuntime, task: &T) -> io::Result<Lap> {
    let start = Instant::now(rt)?;
    let sum = task.sum();
    Lap::since(rt, start, sum)
}

/// Runs the rounds of a structure and of another one in turn, and prints the best of each.
pub fn compare<A: Task, B: Task>(
    rt: &HostRuntime,
    measure: Measure,
    task: &A,
    other: &B,
) -> Result<()> {
    let mut own = lap(rt, task)?;
    let mut others = lap(rt, other)?;
    for _ in 1..rounds(measure.n) {
        own = own.or_quicker(lap(rt, task)?);
        others = others.or_quicker(lap(rt, other)?);
    }
    let row = Row {
        n: measure.n,
        measure: measure.name,
        name: measure.own_name,
        own,
        other: others,
        other_name: measure.other_name,
    };
    print(rt, row)?;
    Ok(())
}

/// Entries that are reached without a search, in an order that is random.
pub trait Reached {
    /// Reaches each entry, and adds up their values.
    fn get_all(&self) -> u64;
}

/// Entries that know their neighbours.
pub trait Linked {
    /// Asks each entry for both its neighbours, and adds up their indexes.
    fn neighbours_of_all(&self) -> u64;

    /// Steps from each entry to the next, beginning at the first, and adds up their values.
    fn step_through(&self) -> u64;
}

/// Each entry is reached.
#[derive(Clone, Copy)]
pub struct Getting<'a, R>(pub &'a R);

impl<R: Reached> Task for Getting<'_, R> {
    fn sum(&self) -> u64 {
        self.0.get_all()
    }
}

/// Each entry is asked for its neighbours.
#[derive(Clone, Copy)]
pub struct Neighbours<'a, L>(pub &'a L);

impl<L: Linked> Task for Neighbours<'_, L> {
    fn sum(&self) -> u64 {
        self.0.neighbours_of_all()
    }
}

/// Each entry leads to the next.
#[derive(Clone, Copy)]
pub struct Stepping<'a, L>(pub &'a L);

impl<L: Linked> Task for Stepping<'_, L> {
    fn sum(&self) -> u64 {
        self.0.step_through()
    }
}
