//! Batches of lines: the lines that are there together are obeyed together, committed once, and answered.

ghost use Rattle.std.specs.Prelude.{◌≡◌, ◌≤◌, ◌⊎◌, ◌++◌, IfOk, OnOk, OnErr, length, string_bytes, take};
ghost use Rattle.std.specs.Io.KnownBytes.{Appends, Keeps};
ghost use Rattle.sqlite_trees.specs.Tree.{Trees};
ghost use Rattle.sqlite_trees.specs.View.{IsClean};
ghost use Rattle.agenda_store.specs.Table.{TreesStandFor, rows_of};
ghost use Rattle.jobs.specs.Serving.{Serves, ServesAll, TakesLine, WritesFront, framed};

use crate::answer::{Fault, obey};
use crate::command::Command;
use crate::shown::complaint_text;
use agenda_store::{Checkpoint, Store, StoreError};
use line_service::Style;
use std::alloc::{AllocError, Global};
use std::io;
use std::io::{BufRead, BufReader, ErrorKind, Read, Write};
use std::time::Clock;
use thiserror::Error;

/// Why serving ended before the input did.
#[derive(Debug, Drop, Error)]
pub enum Stop {
    /// The input can't be read.
    #[error("reading failed: {0}")]
    Input(io::Error),
    /// An answer can't be written.
    #[error("writing failed: {0}")]
    Output(io::Error),
    /// A commit failed, or a call before it. What the last lines changed may be in the file or not.
    #[error("{0}; from line {1} on nothing is answered: start the program again")]
    Commit(StoreError, u64),
    /// No memory was left for an answer.
    #[error("out of memory")]
    Memory,
}

impl From<AllocError> for Stop {
    fn from(_: AllocError) -> Stop {
        Stop::Memory
    }
}

// Returns why a read, or an allocation for it, ends the program.
fn unread(error: io::Error) -> Stop
    ensures { (result ≡ Stop.Input error) ⊎ (result ≡ Stop.Memory) }
{
    match error.kind() {
        ErrorKind::OutOfMemory => Stop::Memory,
        _ => Stop::Input(error),
    }
}

// A batch of lines: their answers, the numbers of the first and the last, and whether one asks that the log be copied.
#[derive(Drop)]
struct Batch {
    alloc: Global,
    answers: String,
    first: u64,
    last: u64,
    is_compacting: bool,
}

impl Batch {
    // Obeys one more line, and keeps its answer.
    fn take<S: Checkpoint>(
        &mut self,
        clock: &impl Clock,
        style: Style,
        store: &mut Store<S>,
        line: &[u8],
    ) -> Result<(), Stop>
        ensures step { OnOk result (TakesLine style store.old.plan store.new.plan (string_bytes self.old.answers) (string_bytes self.new.answers)) }
        ensures clean { IsClean (S.Store.view (rows_of store.new.table)) → IsClean (S.Store.view (rows_of store.old.table)) }
        ensures crash { (trees : Trees) → S.Store.recovers (rows_of store.new.table) trees → S.Store.recovers (rows_of store.old.table) trees }
    {
        self.last = self.last.saturating_add(1);
        let command = match Command::read(clock, line) {
            Ok(command) => command,
            Err(misread) => {
                let text = complaint_text(self.alloc, style, self.last, misread)?;
                self.keep(style, &text)?;
                return Ok(());
            }
        };
        match obey(self.alloc, style, store, self.last, command) {
            Ok(text) => self.keep(style, &text)?,
            Err(Fault::Store(error)) => return Err(Stop::Commit(error, self.first)),
            Err(Fault::Memory) => return Err(Stop::Memory),
        }
        if let Command::Compact = command {
            self.is_compacting = true;
        }
        Ok(())
    }

    // Keeps an answer, in a frame if the style has frames.
    fn keep(&mut self, style: Style, text: &str) -> Result<(), AllocError>
        ensures { OnOk result (string_bytes self.new.answers ≡ string_bytes self.old.answers ++ framed style.is_framed text.now) }
    {
        self.answers.push_str(text)?;
        if style.is_framed {
            self.answers.push('\n')?;
        }
        Ok(())
    }

    // Makes what the lines changed last, and begins the next batch.
    fn commit<S: Checkpoint>(&mut self, store: &mut Store<S>) -> Result<(), Stop>
        ensures same { OnOk result (store.new.plan ≡ store.old.plan) }
        ensures answers { self.new.answers ≡ self.old.answers }
        ensures durable { OnOk result (IsClean (S.Store.view (rows_of store.new.table)) → (trees : Trees)
            → S.Store.recovers (rows_of store.new.table) trees → TreesStandFor trees store.old.plan) }
        ensures clean { IsClean (S.Store.view (rows_of store.new.table)) → IsClean (S.Store.view (rows_of store.old.table)) }
        ensures crash { IsClean (S.Store.view (rows_of store.new.table)) → (trees : Trees) → S.Store.recovers (rows_of store.new.table) trees
            → TreesStandFor trees store.old.plan ⊎ S.Store.recovers (rows_of store.old.table) trees }
    {
        if let Err(error) = store.commit() {
            return Err(Stop::Commit(error, self.first));
        }
        if self.is_compacting {
            if let Err(error) = store.checkpoint() {
                return Err(Stop::Commit(error, self.first));
            }
        }
        self.is_compacting = false;
        self.first = self.last.saturating_add(1);
        Ok(())
    }
}

// Writes as many bytes as the writer takes at once, and returns how many.
fn write_some<W: Write>(out: &mut W, bytes: &[u8]) -> Result<usize, Stop>
    ensures wrote { IfOk result (λ count. (count ≤ length bytes.now) × Appends (W.contents out.old) (W.contents out.new) (take count bytes.now)) }
    ensures kept { OnErr result (Keeps (W.contents out.old) (W.contents out.new)) }
{
    match out.write(bytes) {
        Ok(0) => Err(Stop::Output(ErrorKind::WriteZero.into())),
        Ok(count) => Ok(count),
        Err(error) if error.kind() == ErrorKind::Interrupted => Ok(0),
        Err(error) => Err(Stop::Output(error)),
    }
}

// Writes the answers of a batch.
fn write_answers<W: Write>(out: &mut W, answers: &[u8]) -> Result<(), Stop>
    ensures all { OnOk result (Appends (W.contents out.old) (W.contents out.new) answers.now) }
    ensures front { WritesFront (W.contents out.old) (W.contents out.new) answers.now }
{
    let mut rest = answers;
    'parts: for _ in 0..u64::MAX {
        if rest.is_empty() {
            return match out.flush() {
                Ok(()) => Ok(()),
                Err(error) => Err(Stop::Output(error)),
            };
        }
        let count = write_some(out, rest)?;
        rest = &rest[count..];
    }
    Err(Stop::Output(ErrorKind::WriteZero.into()))
}

/// Obeys each line of the input in turn, and answers it in this style. The lines that are there together are answered together, after one
/// commit. A last line needs no end. The clock is asked where a line leaves out a time.
///
/// # Errors
///
/// What was written are the answers of lines that are committed, or a beginning of these.
pub fn serve<S: Checkpoint, R: Read + Drop, W: Write>(
    alloc: Global,
    clock: &impl Clock,
    style: Style,
    store: &mut Store<S>,
    input: &mut BufReader<R>,
    out: &mut W,
) -> Result<(), Stop>
    ensures all { OnOk result (ServesAll S.Store style store.old store.new (W.contents out.old) (W.contents out.new)) }
    ensures served { Serves S.Store style store.old store.new (W.contents out.old) (W.contents out.new) }
{
    let mut batch = Batch {
        alloc,
        answers: String::new(alloc),
        first: 1,
        last: 0,
        is_compacting: false,
    };
    let mut line = Vec::new(alloc);
    'lines: for _ in 0..u64::MAX {
        line.clear();
        match input.read_until(b'\n', &mut line) {
            Ok(0) => break,
            Ok(_) => batch.take(clock, style, store, &line)?,
            Err(error) => return Err(unread(error)),
        }
        if !input.buffer().contains(&b'\n') {
            batch.commit(store)?;
            write_answers(out, batch.answers.as_bytes())?;
            batch.answers.clear();
        }
    }
    batch.commit(store)?;
    write_answers(out, batch.answers.as_bytes())
}
