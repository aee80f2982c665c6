//! The measures of jobs by deadline: of an agenda and of another structure in turn.
use crate::keys::{keys_of, shuffle};
use crate::lap::{Lap, rounds};
use crate::report::{Row, print};
use crate::timetable::{ByDeadline, LazyHeap, Timetable};
use agenda::Agenda;
use anyhow::Result;
use std::time::Instant;

/// Measures everything at n jobs, and prints it.
pub fn run(rt: &HostRuntime, n: usize) -> Result<()> {
    let keys = keys_of(rt.alloc(), n)?;
    let deadlines = keys.random.as_slice();
    compare_with::<LazyHeap>(rt, deadlines, "BinaryHeap")?;
    compare_with::<ByDeadline>(rt, deadlines, "BTreeMap")
}

// One round: how long it took to schedule all jobs, to cancel some, and to take the others out.
#[derive(Clone, Copy)]
struct Round {
    schedule: Lap,
    cancel: Lap,
    pop: Lap,
}

impl Round {
    // The lesser times of two rounds.
    fn or_quicker(self, other: Round) -> Self {
        Round {
            schedule: self.schedule.or_quicker(other.schedule),
            cancel: self.cancel.or_quicker(other.cancel),
            pop: self.pop.or_quicker(other.pop),
        }
    }
}

// A round in which so many jobs are cancelled, in a random order.
fn round_of<T: Timetable>(rt: &HostRuntime, deadlines: &[u64], cancelled: usize) -> Result<Round> {
    let start = Instant::now(rt)?;
    let (mut timetable, mut tickets) = T::scheduled(rt.alloc(), deadlines)?;
    let schedule = Lap::since(rt, start, tickets.len() as u64)?;
    shuffle(tickets.as_mut_slice());
    tickets.truncate(cancelled);
    let start = Instant::now(rt)?;
    let sum = timetable.cancel_all(&tickets);
    let cancel = Lap::since(rt, start, sum)?;
    let start = Instant::now(rt)?;
    let order = timetable.pop_all();
    let pop = Lap::since(rt, start, order)?;
    Ok(Round {
        schedule,
        cancel,
        pop,
    })
}

// The best rounds of an agenda and of another structure, each in turn.
fn quickest<T: Timetable>(
    rt: &HostRuntime,
    deadlines: &[u64],
    cancelled: usize,
) -> Result<(Round, Round)> {
    let mut agenda = round_of::<Agenda<u64>>(rt, deadlines, cancelled)?;
    let mut other = round_of::<T>(rt, deadlines, cancelled)?;
    for _ in 1..rounds(deadlines.len()) {
        agenda = agenda.or_quicker(round_of::<Agenda<u64>>(rt, deadlines, cancelled)?);
        other = other.or_quicker(round_of::<T>(rt, deadlines, cancelled)?);
    }
    Ok((agenda, other))
}

// Compares with a structure of this name, of whose jobs first half are cancelled and then none.
fn compare_with<T: Timetable>(rt: &HostRuntime, deadlines: &[u64], name: &str) -> Result<()> {
    let n = deadlines.len();
    let half = n / 2;
    let (agenda, other) = quickest::<T>(rt, deadlines, half)?;
    report(rt, n, "schedule", agenda.schedule, other.schedule, name)?;
    report(rt, half, "cancel half", agenda.cancel, other.cancel, name)?;
    report(rt, n - half, "pop the rest", agenda.pop, other.pop, name)?;
    let (agenda, other) = quickest::<T>(rt, deadlines, 0)?;
    report(rt, n, "pop all", agenda.pop, other.pop, name)
}

// Prints the best rounds of a call that was made n times.
fn report(
    rt: &HostRuntime,
    n: usize,
    measure: &str,
    agenda: Lap,
    other: Lap,
    other_name: &str,
) -> Result<()> {
    let row = Row {
        n,
        measure,
        name: "agenda",
        own: agenda,
        other,
        other_name,
    };
    print(rt, row)?;
    Ok(())
}
