//! Command lines, which `clap` parses.

ghost use Rattle.std.specs.Prelude.{◌≡◌, ◌⊎◌, Some, IfOk, IfErr};
ghost use Rattle.clap.specs.declared.builder.action.ArgAction.TheVariants.{SetTrue};
ghost use Rattle.std.specs.Process.{exit_status};
ghost use Rattle.line_service.specs.Ending.{IsOfArguments, IsOfStreams, Ends};

use crate::failure::Failure;
use crate::status::WRONG_USAGE;
use clap::error::ErrorKind;
use clap::{Arg, ArgAction, ArgMatches, Command};
use std::alloc::{AllocError, Global};
use std::env::Env;
use std::process::ExitCode;
use std::{env, io};

/// The version of the programs.
pub const VERSION: &str = "0.1.0";

/// Returns an option without a value: `--NAME`, by which it is also asked for.
pub fn flag<'a>(alloc: Global, name: &'a str, help: &'a str) -> Arg<'a>
    ensures id { result.id ≡ name.entry }
    ensures long { result.long ≡ Some name.entry }
    ensures action { result.action ≡ Some SetTrue }
    ensures help { result.help ≡ Some help.entry }
{
    Arg::new(alloc, name)
        .long(name)
        .action(ArgAction::SetTrue)
        .help(help)
}

/// What a program is to do by its command line.
#[derive(Drop)]
pub enum Request<'a> {
    /// It runs, with these options.
    Run(ArgMatches<'a>),
    /// It ends with this status: help, the version or a mistake was written.
    End(ExitCode),
}

/// Returns the words of the command line. The first is the program's name.
///
/// # Errors
///
/// - `Arguments`: an argument isn't UTF-8.
/// - `Memory`: an allocation failed.
///
/// Which words there are can't be a clause: the environment has no value in contracts.
pub fn arguments(rt: &(impl Env + AllocGlobal)) -> Result<Vec<String>, Failure>
    ensures err { IfErr result IsOfArguments }
{
    let words = env::args(rt).map_err(unread)?;
    Ok(words.collect(rt.alloc())?)
}

/// Parses a command line. `--help` and `--version` are answered on standard output; a mistake is named in one line on standard error,
/// `PROGRAM: MISTAKE; try PROGRAM --help`, and the status is [`WRONG_USAGE`].
///
/// # Errors
///
/// - `Writing`: what was asked for could not be written.
/// - `Memory`: an allocation failed.
pub fn parse_arguments<'a>(
    rt: &(impl Print + Eprint + AllocGlobal),
    program: &str,
    command: Command<'a>,
    words: &'a [String],
) -> Result<Request<'a>, Failure>
    ensures end { IfOk result (λ request. Ends request) }
    ensures err { IfErr result IsOfStreams }
{
    match command.try_get_matches_from(words) {
        Ok(matches) => Ok(Request::Run(matches)),
        Err(error) => Ok(Request::End(answered(rt, program, &error)?)),
    }
}

// Writes what a parse answers that gives no options. Returns the status.
fn answered(
    rt: &(impl Print + Eprint + AllocGlobal),
    program: &str,
    error: &clap::Error,
) -> Result<ExitCode, Failure>
    ensures status { IfOk result (λ status. (exit_status status ≡ 0) ⊎ (exit_status status ≡ 64)) }
    ensures err { IfErr result IsOfStreams }
{
    match error.kind() {
        ErrorKind::OutOfMemory => Err(Failure::Memory),
        ErrorKind::DisplayHelp | ErrorKind::DisplayVersion => {
            print!(rt; "{error}").map_err(Failure::writing)?;
            Ok(ExitCode::SUCCESS)
        }
        _ => {
            let text = format!(in rt.alloc(); "{error}")?;
            let mistake = mistake_in(rt.alloc(), text.as_str())?;
            let mistake = mistake.as_str();
            let _ = eprintln!(rt; "{program}: {mistake}; try {program} --help");
            Ok(ExitCode::from(WRONG_USAGE))
        }
    }
}

// What `clap` says of a mistake, in one line: what stands before the first empty line, without its first word.
fn mistake_in(alloc: Global, text: &str) -> Result<String, AllocError> {
    let mut mistake = String::new(alloc);
    let text = text.strip_prefix("error: ").unwrap_or(text);
    for line in text.lines().take_while(|line| !line.is_empty()) {
        if !mistake.is_empty() {
            mistake.push(' ')?;
        }
        mistake.push_str(line.trim())?;
    }
    Ok(mistake)
}

// The failure of reading the arguments.
fn unread(error: io::Error) -> Failure
    ensures { IsOfArguments result }
{
    match error.kind() {
        io::ErrorKind::OutOfMemory => Failure::Memory,
        _ => Failure::Arguments,
    }
}
