//! Measures an ordered arena beside std's `BTreeMap` and plain vectors, and its searches from a hint beside whole ones; and a sorted
//! arena beside `BTreeMap`; an agenda beside std's `BinaryHeap` and `BTreeMap`; a timeline beside a `BTreeMap` of its changes; and an order
//! book beside two `BTreeMap`s, or alone, for a comparison with a book in C++.
#![tactic(auto)]

mod arena;
mod axes;
mod book;
mod curves;
mod hints;
mod keys;
mod lap;
mod log;
mod map;
mod market;
mod measured;
mod measures;
mod names;
mod options;
mod rekeying;
mod report;
mod scheduling;
mod sorted;
mod sorting;
mod spanning;
mod store;
mod task;
mod theme;
mod timetable;
mod trading;
mod vector;

use anyhow::Result;
use line_service::{Failure, Request, arguments, ended, parse_arguments};
use options::{Task, command};
use std::io;
use std::io::{BufWriter, Write};
use std::process::ExitCode;

/// Measures everything at n entries, and prints it.
fn measure(rt: &HostRuntime, n: usize) -> Result<()> {
    measures::run(rt, n)?;
    rekeying::run(rt, n)?;
    sorting::run(rt, n)?;
    scheduling::run(rt, n)?;
    spanning::run(rt, n)?;
    trading::run(rt, n)
}

/// Measures everything at each of these numbers of entries.
fn measure_all(rt: &HostRuntime, numbers: &[usize]) -> Result<()> {
    for n in numbers {
        measure(rt, *n)?;
    }
    Ok(())
}

/// Measures an order book alone at each of these numbers of orders.
fn measure_books(rt: &HostRuntime, numbers: &[usize]) -> Result<()> {
    for n in numbers {
        book::run(rt, *n)?;
    }
    Ok(())
}

/// Draws what standard input says was measured.
fn draw(rt: &HostRuntime, caches: &[usize]) -> Result<()> {
    let text = io::read_to_string(rt.alloc(), rt.reader())?;
    let points = measured::points_of(rt.alloc(), text.as_str())?;
    let mut out = BufWriter::new(rt.alloc(), io::writer(rt))?;
    curves::draw(rt.alloc(), &mut out, &points, caches)?;
    out.flush()?;
    Ok(())
}

/// Does what is asked for.
fn work(rt: &HostRuntime, task: &Task) -> Result<()> {
    match task {
        Task::Measure(numbers) => measure_all(rt, numbers),
        Task::List(numbers) => {
            println!(rt; "entries,measure,structure,nanoseconds")?;
            measure_all(rt, numbers)
        }
        Task::MeasureBook(numbers) => measure_books(rt, numbers),
        Task::Draw(caches) => draw(rt, caches),
    }
}

/// Does what the command line asks for. What fails is written to standard error as one line.
fn work_by_arguments(rt: &HostRuntime) -> Result<ExitCode, Failure> {
    let words = arguments(rt)?;
    let command = command(rt.alloc())?;
    let matches = match parse_arguments(rt, "bench_ord", command, words.as_slice())? {
        Request::End(status) => return Ok(status),
        Request::Run(matches) => matches,
    };
    match Task::of(rt.alloc(), &matches).and_then(|task| work(rt, &task)) {
        Ok(()) => Ok(ExitCode::SUCCESS),
        Err(error) => {
            let _ = eprintln!(rt; "bench_ord: {error}");
            Ok(ExitCode::FAILURE)
        }
    }
}

fn main(rt: HostRuntime) -> ExitCode {
    let outcome = work_by_arguments(&rt);
    ended(&rt, "bench_ord", outcome)
}
