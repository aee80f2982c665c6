//! The measures of books of limit orders: of an order book and of another structure in turn.
use crate::keys::keys_of;
use crate::lap::{Lap, rounds};
use crate::market::{Book, Limit, Maps, Market};
use crate::report::{Row, print};
use anyhow::Result;
use order_book::Side;
use std::alloc::AllocError;
use std::time::Instant;

/// The number of price levels that are looked at.
const LEVELS: usize = 5;

/// Measures n orders that come to rest, a stream of n orders over them, and one more in which each step looks at the first levels of a
/// side, and prints it.
pub fn run(rt: &HostRuntime, n: usize) -> Result<()> {
    let keys = keys_of(rt.alloc(), n)?;
    let (resting, stream) = (keys.random.as_slice(), keys.misses.as_slice());
    let mut book = round_of::<Book>(rt, resting, stream)?;
    let mut maps = round_of::<Maps>(rt, resting, stream)?;
    for _ in 1..rounds(n) {
        book = book.or_quicker(round_of::<Book>(rt, resting, stream)?);
        maps = maps.or_quicker(round_of::<Maps>(rt, resting, stream)?);
    }
    report(rt, n, "place at rest", book.rest, maps.rest)?;
    report(rt, n, "place, cancel, trade", book.stream, maps.stream)?;
    report(rt, n, "the same, and depth", book.watched, maps.watched)
}

// One round: how long the orders took that came to rest, the stream over them, and the stream with looks at the levels.
#[derive(Clone, Copy)]
struct Round {
    rest: Lap,
    stream: Lap,
    watched: Lap,
}

impl Round {
    // The lesser times of two rounds.
    fn or_quicker(self, other: Round) -> Self {
        Round {
            rest: self.rest.or_quicker(other.rest),
            stream: self.stream.or_quicker(other.stream),
            watched: self.watched.or_quicker(other.watched),
        }
    }
}

// Prints the best rounds of n orders.
fn report(rt: &HostRuntime, n: usize, measure: &str, book: Lap, maps: Lap) -> Result<()> {
    let row = Row {
        n,
        measure,
        name: "order book",
        own: book,
        other: maps,
        other_name: "two BTreeMaps",
    };
    print(rt, row)?;
    Ok(())
}

// A round over an empty book.
fn round_of<M: Market>(rt: &HostRuntime, resting: &[u64], stream: &[u64]) -> Result<Round> {
    let mut market = M::empty(rt.alloc());
    let mut ids = Vec::with_capacity(rt.alloc(), resting.len())?;
    let start = Instant::now(rt)?;
    fill(&mut market, &mut ids, resting)?;
    let rest = Lap::since(rt, start, ids.len() as u64)?;
    let start = Instant::now(rt)?;
    let sum = go_on(&mut market, &mut ids, stream)?;
    let stream_lap = Lap::since(rt, start, sum)?;
    let start = Instant::now(rt)?;
    let sum = go_on_watched(&mut market, &mut ids, resting, LEVELS)?;
    Ok(Round {
        rest,
        stream: stream_lap,
        watched: Lap::since(rt, start, sum)?,
    })
}

// The side that a random number says.
fn side_of(random: u64) -> Side {
    if random & 1 == 0 {
        Side::Buy
    } else {
        Side::Sell
    }
}

// A quantity from 1 to 16.
fn quantity_of(random: u64) -> u64 {
    (random >> 32) % 16 + 1
}

/// Returns an order that rests: a bid below 1,000,000, an ask above it, at one of a thousand prices each.
pub fn resting_of(random: u64) -> Limit {
    let (side, offset) = (side_of(random), (random >> 8) % 1000 + 1);
    let price = match side {
        Side::Buy => 1_000_000 - offset,
        Side::Sell => 1_000_000 + offset,
    };
    Limit {
        side,
        price,
        quantity: quantity_of(random),
    }
}

// An order that trades at any price.
fn trading_of(random: u64) -> Limit {
    let side = side_of(random);
    let price = match side {
        Side::Buy => u64::MAX,
        Side::Sell => 0,
    };
    Limit {
        side,
        price,
        quantity: quantity_of(random),
    }
}

/// Places an order, and keeps the name of what rests of it. Answers what its trades come to.
pub fn place<M: Market>(
    market: &mut M,
    ids: &mut Vec<M::Id>,
    order: Limit,
) -> Result<u64, AllocError> {
    let (worth, id) = market.place(order)?;
    if let Some(id) = id {
        ids.push(id)?;
    }
    Ok(worth)
}

/// Cancels an order by one of the names, and forgets the name. Answers what was left of it.
pub fn cancel<M: Market>(market: &mut M, ids: &mut Vec<M::Id>, random: u64) -> u64 {
    let named = ids.len();
    if named == 0 {
        return 0;
    }
    let at = (random >> 24) as usize % named;
    let id = ids.swap_remove(at);
    market.cancel(id)
}

/// Takes a step of the stream. Of four steps two place an order at rest, one cancels, and one trades.
pub fn step<M: Market>(
    market: &mut M,
    ids: &mut Vec<M::Id>,
    random: u64,
) -> Result<u64, AllocError> {
    match (random >> 4) % 4 {
        0 => Ok(cancel(market, ids, random)),
        1 => place(market, ids, trading_of(random)),
        _ => place(market, ids, resting_of(random)),
    }
}

/// Puts an order to rest for each number.
pub fn fill<M: Market>(
    market: &mut M,
    ids: &mut Vec<M::Id>,
    numbers: &[u64],
) -> Result<(), AllocError> {
    for random in numbers {
        let _ = place(market, ids, resting_of(*random))?;
    }
    Ok(())
}

/// Takes a step for each number. Answers what was traded and cancelled.
pub fn go_on<M: Market>(
    market: &mut M,
    ids: &mut Vec<M::Id>,
    numbers: &[u64],
) -> Result<u64, AllocError> {
    let mut sum = 0u64;
    for random in numbers {
        sum = sum.wrapping_add(step(market, ids, *random)?);
    }
    Ok(sum)
}

/// Takes a step for each number, and looks at the first levels of a side after it. Answers what was traded, cancelled and seen.
pub fn go_on_watched<M: Market>(
    market: &mut M,
    ids: &mut Vec<M::Id>,
    numbers: &[u64],
    levels: usize,
) -> Result<u64, AllocError> {
    let mut sum = 0u64;
    for random in numbers {
        sum = sum.wrapping_add(step(market, ids, *random)?);
        sum = sum.wrapping_add(market.depth(side_of(*random), levels));
    }
    Ok(sum)
}
