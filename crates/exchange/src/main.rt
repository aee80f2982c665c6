//! An exchange: reads commands from standard input, one a line, and answers each on standard output.
#![tactic(auto)]

mod answers;
mod chart;
mod command;
mod exchange;
mod values;

use answers::{Figures, obey, report, write_totals};
use command::Fault;
use exchange::Exchange;
use line_service::{Program, Session, Style, blank_value, write_json};
use std::alloc::Global;
use std::io::Write;
use std::process::ExitCode;
use std::{io, str};

/// What the program says of itself.
const PROGRAM: Program = Program {
    name: "exchange",
    about: "Trades orders by price, and at equal prices by age: reads commands, one a line, and answers each.",
    commands: COMMANDS,
    example: "printf 'buy 100 30\\nsell 100 20\\n' | exchange",
    has_times: false,
};

/// The commands.
const COMMANDS: &str = "  buy PRICE QUANTITY [TAG]            trades, and what rests, by number
  sell PRICE QUANTITY [TAG]
  post buy|sell PRICE QUANTITY [TAG]  rests, and is refused if it would trade
  ioc buy|sell PRICE QUANTITY [TAG]   trades at once; the rest is dropped
  fok buy|sell PRICE QUANTITY [TAG]   trades as a whole, or is refused
  market buy|sell QUANTITY [TAG]      trades at any price; the rest is dropped
  add buy|sell PRICE QUANTITY [TAG]   rests without trading
  replace ORDER PRICE QUANTITY        counts as a new order, under its number
  execute ORDER QUANTITY              trades so much of it, at its price
  reduce ORDER QUANTITY               takes so much off; the order keeps its place
  cancel ORDER
  uncross                             trades all that can trade at one price
  best                                the best bid and ask
  top buy|sell                        the best price of a side: quantity and orders
  depth [LEVELS]                      price, quantity and orders of each level
  chart [LEVELS]                      price and quantity of each level, as bars
  auction                             what uncross would come to: quantity, price, surplus
  help                                these commands
Numbers are decimal digits, at most 18446744073709551615.
";

/// An exchange that answers commands, and its figures.
#[derive(Drop)]
struct Clerk {
    alloc: Global,
    exchange: Exchange,
    figures: Figures,
}

impl Clerk {
    // Answers a line that says nothing.
    fn pass<W: Write>(&self, out: &mut W, style: Style) -> io::Result<()> {
        if style.is_json {
            write_json(self.alloc, out, &blank_value(self.alloc))?;
        }
        Ok(())
    }
}

impl Session for Clerk {
    // A line that can't be obeyed is reported by its number and changes nothing; a blank one is passed over.
    fn answer<W: Write>(&mut self, out: &mut W, style: Style, line: &[u8]) -> io::Result<()> {
        self.figures.lines = self.figures.lines.saturating_add(1);
        let alloc = self.alloc;
        let outcome = match str::from_utf8(line) {
            Ok(text) if text.trim_ascii().is_empty() => return self.pass(out, style),
            Ok(text) => obey(
                alloc,
                out,
                style,
                &mut self.exchange,
                &mut self.figures,
                text,
            ),
            Err(_) => Err(Fault::NotText),
        };
        report(alloc, out, style, &mut self.figures, outcome)
    }

    // The totals.
    fn finish<W: Write>(&mut self, out: &mut W, style: Style) -> io::Result<()> {
        write_totals(self.alloc, out, style, &self.exchange, &self.figures)
    }
}

fn main(rt: HostRuntime) -> ExitCode {
    let mut clerk = Clerk {
        alloc: rt.alloc(),
        exchange: Exchange::new(rt.alloc()),
        figures: Figures::new(),
    };
    PROGRAM.run(&rt, &mut clerk)
}
