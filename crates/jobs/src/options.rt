//! The arguments.

use clap::{Arg, ArgMatches, Command};
use line_service::{Style, VERSION, flag};
use std::alloc::{AllocError, Global};

/// What the line `help` is answered.
pub const LINES: &str = "\
Lines on standard input, each answered on standard output:
  at DEADLINE PAYLOAD   schedules a job; its payload is the rest of the line. Answer: its number
  cancel NUMBER         takes a job off
  done NUMBER           the same, once a claimed job is done
  move NUMBER DEADLINE  gives a job another deadline
  due [NOW]             takes off all jobs whose deadline is at most NOW, and answers a line for each
  claim [NOW] UNTIL     answers the first job whose deadline is at most NOW, and gives it the deadline UNTIL
  next                  the deadline of the first job
  list                  all jobs in order, a line for each
  compact               copies the log into the file
  help                  prints this
DEADLINE, NOW and UNTIL are numbers, or dates of RFC 3339 with a zone, as 2026-12-01T08:00:00Z, which
stand for their seconds since 1970-01-01T00:00:00Z. NOW is the time of the clock if it is left out.
";

const AFTER: &str = "\
Lines that are there together are answered together, once what they change is on the disk. A bad line
is answered by `line N: REASON` and changes nothing; the line help lists all commands. With --json
each line, a blank or bad one too, is answered by exactly one line. Times are numbers, or dates as
2026-12-01T08:00:00Z, which stand for their seconds since 1970-01-01T00:00:00Z.

Example:
  printf 'at 2026-12-01T08:00:00Z tea with milk\\nnext\\n' | jobs --file plan.jobs --dates

Exit status: 0; 64 on wrong usage; 65 if the file is no agenda or damaged; 66 if it can't be opened;
71 out of memory; 73 if the file is to be new and exists, or can't be made; 74 if reading, writing or
a commit failed: start the program again, and all that was answered is there; 75 if the file is in use.";

/// What the arguments ask for.
#[derive(Drop)]
pub struct Options {
    pub task: Task,
    /// How answers are to be written.
    pub style: Style,
}

/// What is to be done.
#[derive(Drop)]
pub enum Task {
    /// Lines are to be answered, with the jobs in memory.
    Memory,
    /// Lines are to be answered, with the jobs in the file of this path.
    File(String),
    /// The jobs of a file are to be listed. Nothing is written.
    ReadOnly(String),
    /// A new file is to begin with the jobs of a file of the earlier format, and then lines are to be answered: the path of the new file and that of the old one.
    Import(String, String),
    /// What can be read of a damaged file is to be put into a new one: the path of the damaged file and that of the new one.
    Salvage(String, String),
}

// Returns the option that names the file of the jobs.
fn file<'a>(alloc: Global) -> Arg<'a> {
    Arg::new(alloc, "file").long("file").value_name("PATH").help(
        "Keeps the jobs in this file, and its log in PATH-wal; otherwise they live in memory",
    )
}

// Returns the option by which the file is only listed.
fn read_only<'a>(alloc: Global) -> Result<Arg<'a>, AllocError> {
    flag(
        alloc,
        "read-only",
        "Lists the jobs of the file, and writes nothing",
    )
    .requires_arg("file")
}

// Returns the option by which a new file begins with the jobs of an old one.
fn import<'a>(alloc: Global) -> Result<Arg<'a>, AllocError> {
    let import = Arg::new(alloc, "import")
        .long("import")
        .value_name("OLD")
        .help("Begins the file, which must be new, with the jobs of a file of the earlier format");
    import.requires_arg("file")?.conflicts_with("read-only")
}

// Returns the options that say where the jobs live.
fn with_files<'a>(alloc: Global, command: Command<'a>) -> Result<Command<'a>, AllocError> {
    let command = command.arg(file(alloc))?;
    let command = command.arg(read_only(alloc)?)?;
    command.arg(import(alloc)?)
}

// Returns the option that copies what a damaged file has. It answers no lines.
fn with_salvage<'a>(alloc: Global, command: Command<'a>) -> Result<Command<'a>, AllocError> {
    let mut salvage = Arg::new(alloc, "salvage")
        .long("salvage")
        .value_name("FILE")
        .num_args(2)
        .help(
            "Copies the jobs of the first file from before a damage into the second, which must be new",
        );
    for other in ["file", "read-only", "import", "framed", "json", "dates"] {
        salvage = salvage.conflicts_with(other)?;
    }
    command.arg(salvage)
}

/// Returns the command line.
pub fn command<'a>(alloc: Global) -> Result<Command<'a>, AllocError> {
    let command = Command::new(alloc, "jobs")
        .version(VERSION)
        .about(
            "Keeps jobs by deadline. With --file they survive a crash. Reads one command per line.",
        )
        .after_help(AFTER);
    let command = with_salvage(alloc, with_files(alloc, command)?)?;
    command
        .arg(flag(
            alloc,
            "framed",
            "Ends each answer with an empty line, so that a client knows when it is over",
        ))?
        .arg(flag(alloc, "json", "Answers each line with one line of JSON"))?
        .arg(flag(
            alloc,
            "dates",
            "Writes times as dates, 2026-12-01T08:00:00Z",
        ))
}

// Returns what is to be done by matched arguments.
fn task_of(alloc: Global, matches: &ArgMatches<'_>) -> Result<Task, AllocError> {
    if let Some([from, to]) = matches.get_strs("salvage") {
        return Ok(Task::Salvage(owned(alloc, from)?, owned(alloc, to)?));
    }
    let Some(path) = matches.get_str("file") else {
        return Ok(Task::Memory);
    };
    let path = owned(alloc, path)?;
    match matches.get_str("import") {
        Some(old) => Ok(Task::Import(path, owned(alloc, old)?)),
        None if matches.get_flag("read-only") => Ok(Task::ReadOnly(path)),
        None => Ok(Task::File(path)),
    }
}

fn owned(alloc: Global, text: &str) -> Result<String, AllocError> {
    String::from_str(alloc, text)
}

impl Options {
    /// Returns what matched arguments ask for.
    pub fn of(alloc: Global, matches: &ArgMatches<'_>) -> Result<Options, AllocError> {
        Ok(Options {
            task: task_of(alloc, matches)?,
            style: Style {
                is_framed: matches.get_flag("framed"),
                is_json: matches.get_flag("json"),
                has_dates: matches.get_flag("dates"),
            },
        })
    }
}
