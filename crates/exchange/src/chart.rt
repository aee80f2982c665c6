//! The first price levels of both sides, as bars.

use crate::command::Fault;
use crate::exchange::Exchange;
use order_book::{Level, Side};
use std::alloc::Global;
use std::io;
use std::io::Write;

/// The longest bar.
const BAR: [u8; 40] = [b'#'; 40];

/// Returns the greatest quantity of these levels and of the first levels of a side.
fn greatest_of(exchange: &Exchange, side: Side, levels: usize, others: &[Level]) -> u128 {
    let mut greatest = 0;
    for level in exchange.book.depth(side, levels) {
        greatest = level.quantity.max(greatest);
    }
    for level in others {
        greatest = level.quantity.max(greatest);
    }
    greatest
}

/// Writes a level with a bar that has a sign for each `unit` of its quantity, and one at least.
fn write_bar<W: Write>(writer: &mut W, word: &str, level: Level, unit: u128) -> io::Result<()> {
    let signs = (level.quantity / unit.max(1)).clamp(1, BAR.len() as u128) as usize;
    write!(writer, "{word} {:>8} ", level.price)?;
    writer.write_all(&BAR[..signs])?;
    writeln!(writer, " {}", level.quantity)
}

/// Writes the first levels of both sides as bars, the best ask right above the best bid, or that there is no level. The greatest
/// quantity has the longest bar.
pub fn write_chart<W: Write>(
    alloc: Global,
    writer: &mut W,
    exchange: &Exchange,
    levels: usize,
) -> Result<(), Fault> {
    if !exchange.has_levels(levels) {
        writeln!(writer, "no level")?;
        return Ok(());
    }
    let asks: Vec<Level> = exchange.book.depth(Side::Sell, levels).collect(alloc)?;
    let unit = greatest_of(exchange, Side::Buy, levels, &asks) / BAR.len() as u128 + 1;
    for ask in asks.iter().rev() {
        write_bar(writer, "ask", *ask, unit)?;
    }
    for bid in exchange.book.depth(Side::Buy, levels) {
        write_bar(writer, "bid", bid, unit)?;
    }
    Ok(())
}
