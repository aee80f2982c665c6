//! Programs that answer lines: what they say of themselves, and how they run.

ghost use Rattle.std.specs.Prelude.{◌≡◌, ◌⊎◌, IfOk};
ghost use Rattle.std.specs.Process.{exit_status};
ghost use Rattle.line_service.specs.Ending.{IsEnding};

use crate::failure::{Failure, ended};
use crate::parsing::{Request, VERSION, arguments, flag, parse_arguments};
use crate::session::{Session, serve};
use crate::style::Style;
use clap::{ArgMatches, Command};
use std::alloc::{AllocError, Global};
use std::env::Env;
use std::process::ExitCode;

/// What a program that answers lines says of itself.
pub struct Program {
    /// Its name.
    pub name: &'static str,
    /// What it is for, in a sentence or two.
    pub about: &'static str,
    /// Its commands, a line for each.
    pub commands: &'static str,
    /// A command line that uses it.
    pub example: &'static str,
    /// Whether its answers have times in them, which `--dates` writes as dates.
    pub has_times: bool,
}

/// The option by which each answer ends with an empty line.
const FRAMED: &str = "framed";

/// The option by which each answer is a line of JSON.
const JSON: &str = "json";

/// The option by which times are written as dates.
const DATES: &str = "dates";

/// What `--help` of a program with times says of them.
const TIMES: &str = "\
A time is a number, or a date of RFC 3339 with a zone, as 2026-12-01T08:00:00Z, which stands for
its seconds since 1970-01-01T00:00:00Z.
";

/// What `--help` of each program ends with.
const NOTES: &str = "\
A bad line is answered by `line N: REASON` and changes nothing. The last line has totals.
With --json each line, a blank or bad one too, is answered by exactly one line.
Answers are written as soon as no whole line is left to be read: at a terminal and from a
pipe after each line, from a file in blocks.
Exit status: 0; 64 on wrong usage; 71 out of memory; 74 if reading or writing failed.
";

impl Program {
    // What `--help` says behind the options.
    fn help(&self, alloc: Global) -> Result<String, AllocError> {
        let (commands, example) = (self.commands, self.example);
        let times = if self.has_times { TIMES } else { "" };
        format!(in alloc; "Commands:\n{commands}\nExample:\n  {example}\n\n{times}{NOTES}")
    }

    // Its command line.
    fn command<'a>(&self, alloc: Global, help: &'a str) -> Result<Command<'a>, AllocError> {
        let framed = flag(
            alloc,
            FRAMED,
            "End each answer with an empty line, so that a client knows when it is over",
        );
        let json = flag(alloc, JSON, "Answer each line with one line of JSON");
        let command = Command::new(alloc, self.name)
            .version(VERSION)
            .about(self.about)
            .after_help(help)
            .arg(framed)?
            .arg(json)?;
        if self.has_times {
            return command.arg(flag(alloc, DATES, "Write times as dates, 2026-12-01T08:00:00Z"));
        }
        Ok(command)
    }

    // How answers are to be written.
    fn style(&self, matches: &ArgMatches<'_>) -> Style {
        Style {
            is_framed: matches.get_flag(FRAMED),
            is_json: matches.get_flag(JSON),
            has_dates: self.has_times && matches.get_flag(DATES),
        }
    }

    // Does what the command line asks for.
    fn serve_by_arguments<S: Session>(
        &self,
        rt: &(impl Env + Input + Print + Eprint + AllocGlobal),
        session: &mut S,
    ) -> Result<ExitCode, Failure>
        ensures ok { IfOk result (λ status. (exit_status status ≡ 0) ⊎ (exit_status status ≡ 64)) }
    {
        let words = arguments(rt)?;
        let help = self.help(rt.alloc())?;
        let command = self.command(rt.alloc(), help.as_str())?;
        match parse_arguments(rt, self.name, command, words.as_slice())? {
            Request::End(status) => Ok(status),
            Request::Run(matches) => {
                serve(rt, session, self.style(&matches))?;
                Ok(ExitCode::SUCCESS)
            }
        }
    }

    /// Runs the program: has standard input answered by a session, as the command line asks for.
    ///
    /// Returns the exit status: 0, 64 after a mistake in the arguments, or that of a failure. A failure or a mistake is written to standard
    /// error as one line.
    pub fn run<S: Session>(
        &self,
        rt: &(impl Env + Input + Print + Eprint + AllocGlobal),
        session: &mut S,
    ) -> ExitCode
        ensures { IsEnding (exit_status result) }
    {
        let outcome = self.serve_by_arguments(rt, session);
        ended(rt, self.name, outcome)
    }
}
