//! Jobs by deadline: reads commands from standard input, one a line, and answers each on standard output.
#![tactic(auto)]

mod answer;
mod command;
mod failure;
mod files;
mod image;
mod old_log;
mod options;
mod serve;
mod shown;

use agenda_store::{Checkpoint, Store};
use answer::list;
use failure::Failure;
use files::Opened;
use image::{Image, Salvaged};
use job_table::JOB_OBJECT;
use line_service::{Request, Style, arguments, ended, parse_arguments};
use old_log::OldJobs;
use options::{Options, Task, command};
use serve::{Stop, serve};
use sqlite_trees::memory::MemStore;
use std::io::BufReader;
use std::process::ExitCode;
use std::{fs, io};

/// How many bytes of input are read at once, and so how many bytes of lines are answered together.
const CAPACITY: usize = 65536;

/// Answers the lines of standard input, with the jobs in these rows, and then copies their log into their file.
fn answer_lines<S: Checkpoint + Drop>(
    rt: &HostRuntime,
    style: Style,
    rows: S,
) -> Result<(), Failure> {
    let mut store = match Store::open(rt.alloc(), rows) {
        Ok(store) => store,
        Err((error, _)) => return Err(Failure::from(error)),
    };
    let mut input = BufReader::with_capacity(rt.alloc(), CAPACITY, rt.reader())?;
    serve(
        rt.alloc(),
        rt,
        style,
        &mut store,
        &mut input,
        &mut io::writer(rt),
    )?;
    match store.checkpoint() {
        Ok(()) => Ok(()),
        Err(error) => Err(Failure::Closing(error)),
    }
}

/// Answers lines, with the jobs in memory.
fn remember(rt: &HostRuntime, style: Style) -> Result<(), Failure> {
    match MemStore::new(rt.alloc(), &[JOB_OBJECT]) {
        Ok(rows) => answer_lines(rt, style, rows),
        Err(_) => Err(Failure::Memory),
    }
}

/// Lists the jobs of rows.
fn list_rows<S: Checkpoint + Drop>(rt: &HostRuntime, style: Style, rows: S) -> Result<(), Failure> {
    let store = match Store::open(rt.alloc(), rows) {
        Ok(store) => store,
        Err((error, _)) => return Err(Failure::from(error)),
    };
    let Ok(text) = list(rt.alloc(), style, &store) else {
        return Err(Failure::Memory);
    };
    match print!(rt; "{}", text.as_str()) {
        Ok(()) => Ok(()),
        Err(error) => Err(Failure::Stop(Stop::Output(error))),
    }
}

/// Answers lines, with the jobs in a file.
fn keep(rt: &HostRuntime, style: Style, path: &str) -> Result<(), Failure> {
    answer_from(rt, style, files::open(rt, path)?)
}

/// Answers lines, with the jobs in a file that is open, and then lets its lock go.
fn answer_from(rt: &HostRuntime, style: Style, opened: Opened) -> Result<(), Failure> {
    let Opened { rows, lock } = opened;
    let done = answer_lines(rt, style, rows);
    drop(lock);
    done
}

/// Lists the jobs of a file.
fn show(rt: &HostRuntime, style: Style, path: &str) -> Result<(), Failure> {
    list_rows(rt, style, Image::read(rt, path)?.open(rt.alloc())?)
}

/// Begins a file with the jobs of one of the earlier format, and then answers lines.
fn import(rt: &HostRuntime, style: Style, path: &str, old: &OldJobs) -> Result<(), Failure> {
    drop(image::new_file(rt, path)?);
    let mut opened = files::open(rt, path)?;
    old.fill(rt.alloc(), &mut opened.rows)?;
    answer_from(rt, style, opened)
}

/// Reads a file of the earlier format.
fn old_jobs(rt: &HostRuntime, path: &str) -> Result<OldJobs, Failure> {
    Ok(OldJobs::read(rt.alloc(), &fs::read(rt, path)?)?)
}

/// Writes what a damaged file had into a new one, and says how much it is.
fn rescue(rt: &HostRuntime, found: &Salvaged, path: &str) -> Result<(), Failure> {
    found.write(rt, path)?;
    let jobs = found.jobs;
    match println!(rt; "{jobs} jobs copied to {path}") {
        Ok(()) => Ok(()),
        Err(error) => Err(Failure::Stop(Stop::Output(error))),
    }
}

/// Says why the program ends, in a line that names the file, and returns the exit status.
fn end(rt: &HostRuntime, path: &str, done: Result<(), Failure>) -> ExitCode {
    match done {
        Ok(()) => ExitCode::SUCCESS,
        Err(failure) => {
            let _ = eprintln!(rt; "jobs: {path}: {failure}");
            ExitCode::from(failure.status())
        }
    }
}

/// Does what the options ask for.
fn run(rt: &HostRuntime, options: &Options) -> ExitCode {
    let style = options.style;
    match &options.task {
        Task::Memory => end(rt, "in memory", remember(rt, style)),
        Task::File(path) => end(rt, path.as_str(), keep(rt, style, path.as_str())),
        Task::ReadOnly(path) => end(rt, path.as_str(), show(rt, style, path.as_str())),
        Task::Import(path, old) => match old_jobs(rt, old.as_str()) {
            Ok(jobs) => end(rt, path.as_str(), import(rt, style, path.as_str(), &jobs)),
            Err(failure) => end(rt, old.as_str(), Err(failure)),
        },
        Task::Salvage(from, to) => match Salvaged::read(rt, from.as_str()) {
            Ok(found) => end(rt, to.as_str(), rescue(rt, &found, to.as_str())),
            Err(failure) => end(rt, from.as_str(), Err(failure)),
        },
    }
}

/// Does what the command line asks for.
fn run_by_arguments(rt: &HostRuntime) -> Result<ExitCode, line_service::Failure> {
    let words = arguments(rt)?;
    match parse_arguments(rt, "jobs", command(rt.alloc())?, words.as_slice())? {
        Request::End(status) => Ok(status),
        Request::Run(matches) => Ok(run(rt, &Options::of(rt.alloc(), &matches)?)),
    }
}

fn main(rt: HostRuntime) -> ExitCode {
    let outcome = run_by_arguments(&rt);
    ended(&rt, "jobs", outcome)
}
