//! Draws the tree that a script makes: reads the script as `ordrun` does, and writes a picture to standard output.
#![tactic(auto)]

mod drawing;
mod error;
mod options;

use drawing::{sheet_of, written};
use error::DrawError;
use line_service::{Failure, Request, arguments, ended, parse_arguments};
use options::{Options, command};
use std::alloc::Global;
use std::fs::File;
use std::io;
use std::io::{Read, Write};
use std::process::ExitCode;

/// The greatest number of bytes of a script.
const MOST_BYTES: usize = 1_048_576;

/// Reads a whole script.
fn read_script<R: Read>(alloc: Global, reader: &mut R) -> Result<Vec<u8>, DrawError> {
    let mut script = Vec::new(alloc);
    let mut block = vec![in alloc; 0u8; 65_536]?;
    for _ in 0..u64::MAX {
        let count = match reader.read(&mut block) {
            Ok(count) => count,
            Err(error) => return Err(DrawError::ReadFailed(error)),
        };
        if count == 0 {
            break;
        }
        script.extend_from_slice(&block[..count])?;
        if script.len() > MOST_BYTES {
            return Err(DrawError::TooLong);
        }
    }
    Ok(script)
}

/// Draws the script that a reader has.
fn draw_from<R: Read>(
    rt: &HostRuntime,
    reader: &mut R,
    options: &Options,
) -> Result<(), DrawError> {
    let script = read_script(rt.alloc(), reader)?;
    let sheet = sheet_of(rt.alloc(), &script, options.moment)?;
    let text = written(rt.alloc(), &sheet, options.form)?;
    io::writer(rt)
        .write_all(text.as_bytes())
        .map_err(DrawError::WriteFailed)
}

/// Draws the script of a file, or of standard input.
fn draw(rt: &HostRuntime, options: &Options) -> Result<(), DrawError> {
    match options.file {
        None => draw_from(rt, &mut rt.stdin(), options),
        Some(path) => {
            let mut file = File::open(rt, path).map_err(DrawError::NoInput)?;
            draw_from(rt, &mut file, options)
        }
    }
}

/// Does what the command line asks for. A mistake in the script is written to standard error as one line.
fn draw_by_arguments(rt: &HostRuntime) -> Result<ExitCode, Failure> {
    let words = arguments(rt)?;
    let command = command(rt.alloc())?;
    let matches = match parse_arguments(rt, "draw", command, words.as_slice())? {
        Request::End(status) => return Ok(status),
        Request::Run(matches) => matches,
    };
    let options = Options::of(&matches);
    match draw(rt, &options) {
        Ok(()) => Ok(ExitCode::SUCCESS),
        Err(error) => {
            let _ = match (&error, options.file) {
                (DrawError::NoInput(_), Some(path)) => eprintln!(rt; "draw: {path}: {error}"),
                _ => eprintln!(rt; "draw: {error}"),
            };
            Ok(ExitCode::from(error.status()))
        }
    }
}

fn main(rt: HostRuntime) -> ExitCode {
    let outcome = draw_by_arguments(&rt);
    ended(&rt, "draw", outcome)
}
