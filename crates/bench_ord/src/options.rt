//! The command line.
use anyhow::{Context, Result};
use clap::{Arg, ArgAction, ArgMatches, Command, value_parser};
use line_service::{VERSION, flag};
use std::alloc::{AllocError, Global};

/// What `--help` says behind the options.
const NOTES: &str = "\
Standard output gets the sums of what the measured calls answered, which are the same on each run;
standard error gets their times, in nanoseconds an operation, the best of several rounds.

Example:
  bench_ord 1000 10000

Exit status: 0; 64 on wrong usage; 1 if memory was refused, or reading or writing failed.
";

/// The option by which the times go to standard output.
const CSV: &str = "csv";

/// The option by which curves are drawn.
const SVG: &str = "svg";

/// The option by which an order book is measured alone.
const BOOK: &str = "book";

const NUMBER: &str = "NUMBER";

/// What is to be done.
#[derive(Drop)]
pub enum Task {
    /// To measure at each of these numbers of entries, and to print sums and times.
    Measure(Vec<usize>),
    /// To measure so, and to print the times as comma-separated values.
    List(Vec<usize>),
    /// To measure an order book alone, at each of these numbers of orders.
    MeasureBook(Vec<usize>),
    /// To draw such values as curves, with a mark for a cache of each of these sizes in bytes.
    Draw(Vec<usize>),
}

/// Returns the command line of the program.
pub fn command<'a>(alloc: Global) -> Result<Command<'a>, AllocError> {
    let csv = flag(
        alloc,
        CSV,
        "Print the times alone, as comma-separated values",
    );
    let svg = flag(
        alloc,
        SVG,
        "Draw such values, which are read from standard input, as curves; each NUMBER is the size of a cache in bytes",
    )
    .conflicts_with(CSV)?;
    let book = flag(
        alloc,
        BOOK,
        "Measure an order book alone, as tools/bench-book.cpp measures one in C++",
    )
    .conflicts_with(CSV)?
    .conflicts_with(SVG)?;
    let numbers = Arg::new(alloc, NUMBER)
        .num_args(1..)
        .action(ArgAction::Append)
        .value_parser(value_parser!(usize))
        .help("A number of entries, jobs, stretches and orders to measure at");
    Command::new(alloc, "bench_ord")
        .version(VERSION)
        .about("Measures the collections beside those of the standard library.")
        .after_help(NOTES)
        .arg(csv)?
        .arg(svg)?
        .arg(book)?
        .arg(numbers)
}

// The numbers of a parsed command line.
fn numbers_of(alloc: Global, matches: &ArgMatches<'_>) -> Result<Vec<usize>> {
    let mut numbers = Vec::new(alloc);
    if let Some(values) = matches.get_many::<usize>(NUMBER) {
        for value in values {
            numbers.push(value.context("a number is wanted")?)?;
        }
    }
    Ok(numbers)
}

impl Task {
    /// Returns what a parsed command line asks for.
    pub fn of(alloc: Global, matches: &ArgMatches<'_>) -> Result<Task> {
        let numbers = numbers_of(alloc, matches)?;
        if matches.get_flag(SVG) {
            return Ok(Task::Draw(numbers));
        }
        if matches.get_flag(CSV) {
            return Ok(Task::List(numbers));
        }
        if matches.get_flag(BOOK) {
            return Ok(Task::MeasureBook(numbers));
        }
        Ok(Task::Measure(numbers))
    }
}
