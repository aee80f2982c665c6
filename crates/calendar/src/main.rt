//! A calendar of words: reads commands from standard input, one a line, and answers each on standard output.
#![tactic(auto)]

mod answers;
mod command;
mod values;

use answers::{Calendar, obey};
use command::Fault;
use line_service::{Program, Session, Style, complaint, write_json};
use serde_json::json;
use std::alloc::Global;
use std::io::Write;
use std::process::ExitCode;
use std::{io, str};
use timeline::Timeline;

/// What the program says of itself.
const PROGRAM: Program = Program {
    name: "calendar",
    about: "Says which word holds at which time: reads commands, one a line, and answers each.",
    commands: COMMANDS,
    example: "printf 'set 8 12 work\\nget 9\\n' | calendar",
    has_times: true,
};

/// The commands.
const COMMANDS: &str = "  set FROM UNTIL WORD   the word holds from FROM until before UNTIL
  set FROM - WORD       the word holds from FROM on
  clear FROM UNTIL      no word holds there; - for UNTIL: from FROM on
  get TIME              the word at a time
  at TIME               the whole span around a time; - if it has no end
  spans FROM UNTIL      a line for each span in that time
  gaps FROM UNTIL       a line for each gap in that time
  strip FROM UNTIL      that time in a row of at most 48 first letters, . for no word
  help                  these commands
";

/// A calendar that answers commands, and how many lines there were, how many of them were obeyed, and how many weren't.
#[derive(Drop)]
struct Clerk {
    alloc: Global,
    calendar: Calendar,
    lines: u64,
    done: u64,
    bad: u64,
}

impl Clerk {
    // Writes why a line isn't obeyed.
    fn complain<W: Write>(&self, out: &mut W, style: Style, fault: Fault) -> io::Result<()> {
        if style.is_json {
            return write_json(self.alloc, out, &complaint(self.alloc, self.lines, fault)?);
        }
        writeln!(out, "line {}: {fault}", self.lines)
    }
}

impl Session for Clerk {
    // A line that can't be obeyed is reported by its number and changes nothing.
    fn answer<W: Write>(&mut self, out: &mut W, style: Style, line: &[u8]) -> io::Result<()> {
        self.lines = self.lines.saturating_add(1);
        let outcome = match str::from_utf8(line) {
            Ok(text) => obey(self.alloc, out, style, &mut self.calendar, text),
            Err(_) => Err(Fault::NotText),
        };
        match outcome {
            Ok(true) => self.done = self.done.saturating_add(1),
            Ok(false) => {}
            Err(Fault::Device(error)) => return Err(error),
            Err(fault) => {
                self.bad = self.bad.saturating_add(1);
                self.complain(out, style, fault)?;
            }
        }
        Ok(())
    }

    // The figures.
    fn finish<W: Write>(&mut self, out: &mut W, style: Style) -> io::Result<()> {
        let (lines, done, bad) = (self.lines, self.done, self.bad);
        let changes = self.calendar.len();
        if style.is_json {
            let figures =
                json!(in self.alloc; {"lines": lines, "done": done, "bad": bad, "changes": changes})?;
            return write_json(self.alloc, out, &figures);
        }
        writeln!(
            out,
            "lines {lines}, done {done}, bad {bad}, changes {changes}"
        )
    }
}

fn main(rt: HostRuntime) -> ExitCode {
    let mut clerk = Clerk {
        alloc: rt.alloc(),
        calendar: Timeline::new(rt.alloc()),
        lines: 0,
        done: 0,
        bad: 0,
    };
    PROGRAM.run(&rt, &mut clerk)
}
