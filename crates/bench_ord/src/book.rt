//! The measures of an order book alone. `tools/bench-book.cpp` measures a book in C++ on the same orders, with the same rows and sums.
use crate::keys::{Keys, keys_of};
use crate::lap::{Lap, rounds};
use crate::market::{Book, Market};
use crate::report::print_alone;
use crate::trading::{cancel, fill, go_on, go_on_watched, place, resting_of, step};
use anyhow::Result;
use order_book::{OrderId, Side};
use std::alloc::AllocError;
use std::time::Instant;

/// The most orders at which each row is measured. At more the sweep alone is.
const MOST_ORDERS: usize = 100_000;

/// The number of fill-or-kill orders in a round.
const KILLS: usize = 10;

/// What a round does with a book of n orders and a stream of n random numbers.
#[derive(Clone, Copy)]
enum Work {
    /// A step of the stream for each number.
    Steps,
    /// For each number an order that comes to rest, and then the cancellation of one.
    Quotes,
    /// A step for each number, and a look at the best price of each side after it.
    StepsAndTop,
    /// A step for each number, and a look at so many price levels of a side after it.
    StepsAndDepth(usize),
    /// Orders for more than rests, none of which may trade in part.
    Kills,
    /// A market order of each side that takes all that rests.
    Sweep,
}

/// The rows, in the order in which they are printed.
const ROWS: [(&str, Work); 7] = [
    ("place, cancel, trade", Work::Steps),
    ("place and cancel", Work::Quotes),
    ("the mix, and best", Work::StepsAndTop),
    ("the mix, and depth 1", Work::StepsAndDepth(1)),
    ("the mix, and depth 5", Work::StepsAndDepth(5)),
    ("fill or kill", Work::Kills),
    ("sweep", Work::Sweep),
];

impl Work {
    // Whether it is measured at n orders.
    fn is_measured(self, n: usize) -> bool {
        n <= MOST_ORDERS || matches!(self, Work::Sweep)
    }

    // The number of operations of a round at n orders.
    fn operations(self, n: usize) -> usize {
        match self {
            Work::Kills => KILLS,
            _ => n,
        }
    }

    // Does it, and adds up what was answered.
    fn sum(
        self,
        book: &mut Book,
        ids: &mut Vec<OrderId>,
        stream: &[u64],
    ) -> Result<u64, AllocError> {
        match self {
            Work::Steps => go_on(book, ids, stream),
            Work::Quotes => quote(book, ids, stream),
            Work::StepsAndTop => go_on_with_top(book, ids, stream),
            Work::StepsAndDepth(levels) => go_on_watched(book, ids, stream, levels),
            Work::Kills => kill(book, stream.len() as u64),
            Work::Sweep => sweep(book),
        }
    }
}

/// Measures each row at n orders, and prints it.
pub fn run(rt: &HostRuntime, n: usize) -> Result<()> {
    let keys = keys_of(rt.alloc(), n)?;
    for (measure, work) in &ROWS {
        if work.is_measured(n) {
            let lap = best_of(rt, *work, &keys)?;
            print_alone(rt, n, measure, lap, work.operations(n))?;
        }
    }
    Ok(())
}

// The best of the rounds.
fn best_of(rt: &HostRuntime, work: Work, keys: &Keys) -> Result<Lap> {
    let (resting, stream) = (keys.random.as_slice(), keys.misses.as_slice());
    let mut best = round_of(rt, work, resting, stream)?;
    for _ in 1..rounds(resting.len()) {
        best = best.or_quicker(round_of(rt, work, resting, stream)?);
    }
    Ok(best)
}

// A round over a book in which an order rests for each number.
fn round_of(rt: &HostRuntime, work: Work, resting: &[u64], stream: &[u64]) -> Result<Lap> {
    let mut book = Book::empty(rt.alloc());
    let mut ids = Vec::with_capacity(rt.alloc(), resting.len())?;
    fill(&mut book, &mut ids, resting)?;
    let start = Instant::now(rt)?;
    let sum = work.sum(&mut book, &mut ids, stream)?;
    let lap = Lap::since(rt, start, sum)?;
    Ok(lap)
}

// Puts an order to rest for each number, and cancels one after it. Answers what was cancelled.
fn quote(book: &mut Book, ids: &mut Vec<OrderId>, stream: &[u64]) -> Result<u64, AllocError> {
    let mut sum = 0u64;
    for random in stream {
        let _ = place(book, ids, resting_of(*random))?;
        sum = sum.wrapping_add(cancel(book, ids, *random));
    }
    Ok(sum)
}

// Takes a step for each number, and looks at the best price of each side after it. Answers what was traded, cancelled and seen.
fn go_on_with_top(
    book: &mut Book,
    ids: &mut Vec<OrderId>,
    stream: &[u64],
) -> Result<u64, AllocError> {
    let mut sum = 0u64;
    for random in stream {
        sum = sum.wrapping_add(step(book, ids, *random)?);
        sum = sum.wrapping_add(book.top(Side::Buy));
        sum = sum.wrapping_add(book.top(Side::Sell));
    }
    Ok(sum)
}

// Places orders of both sides for more than n orders can be. Answers how many were killed.
fn kill(book: &mut Book, n: u64) -> Result<u64, AllocError> {
    let quantity = n.saturating_mul(16).saturating_add(1);
    let mut killed = 0u64;
    for i in 0..KILLS {
        let side = if i % 2 == 0 { Side::Buy } else { Side::Sell };
        if book.is_killed(side, quantity)? {
            killed = killed.wrapping_add(1);
        }
    }
    Ok(killed)
}

// Takes all that rests, first the asks. Answers what was traded.
fn sweep(book: &mut Book) -> Result<u64, AllocError> {
    let bought = book.take_all(Side::Buy)?;
    let sold = book.take_all(Side::Sell)?;
    Ok(bought.wrapping_add(sold))
}
