//! Devices over memory that are slow or fail, and scripts with their answers.
ghost use Rattle.std.specs.Prelude.{◌≤◌, ◌≡◌, IfOk};

use ord_script::{FaultKind, ScriptEnd, Watched, serve};
use std::alloc::Global;
use std::io;
use std::io::{ErrorKind, Read, Write};

/// The pace of a device: at most `step` bytes a call. One call fails, counted from 0, and each call fails after `left` bytes.
#[derive(Clone, Copy)]
pub(crate) struct Pace {
    pub(crate) step: usize,
    /// How many more bytes may pass.
    pub(crate) left: usize,
    /// The call that fails.
    pub(crate) failing: usize,
    pub(crate) failure: Failure,
    pub(crate) calls: usize,
}

/// How a call fails.
#[derive(Clone, Copy)]
pub(crate) enum Failure {
    /// With an error.
    Broken,
    /// With an interruption, which is an error like any other.
    Interrupted,
    /// It moves no bytes.
    Nothing,
}

/// All bytes at once, and no failure.
pub(crate) const AT_ONCE: Pace = Pace {
    step: usize::MAX,
    left: usize::MAX,
    failing: usize::MAX,
    failure: Failure::Broken,
    calls: 0,
};

/// One byte a call, and no failure.
const BY_BYTE: Pace = Pace { step: 1, ..AT_ONCE };

impl Failure {
    /// Returns the result of the call.
    fn answer(self) -> io::Result<usize>
        ensures { IfOk result (λ count. count ≡ 0) }
    {
        match self {
            Failure::Broken => Err(io::Error::from(ErrorKind::BrokenPipe)),
            Failure::Interrupted => Err(io::Error::from(ErrorKind::Interrupted)),
            Failure::Nothing => Ok(0),
        }
    }
}

impl Pace {
    /// Returns how many of `len` bytes one call moves.
    fn next_count(&mut self, len: usize) -> io::Result<usize>
        ensures { IfOk result (λ count. count ≤ len) }
    {
        let call = self.calls;
        self.calls = call.saturating_add(1);
        if self.left == 0 || call == self.failing {
            return self.failure.answer();
        }
        let count = len.min(self.step).min(self.left);
        self.left -= count;
        Ok(count)
    }
}

/// A reader from memory.
#[derive(Drop)]
pub(crate) struct Source<'a> {
    pub(crate) bytes: &'a [u8],
    pub(crate) pace: Pace,
}

impl Read for Source<'_> {
    fn read(&mut self, buf: &mut [u8]) -> io::Result<usize> {
        let all = self.bytes;
        let count = self.pace.next_count(all.len().min(buf.len()))?;
        buf[..count].copy_from_slice(&all[..count]);
        self.bytes = &all[count..];
        Ok(count)
    }
}

/// A writer into memory. It also counts its flushes.
#[derive(Drop)]
pub(crate) struct Sink {
    pub(crate) bytes: Vec<u8>,
    pub(crate) pace: Pace,
    pub(crate) flushes: usize,
}

impl Write for Sink {
    fn write(&mut self, buf: &[u8]) -> io::Result<usize> {
        let count = self.pace.next_count(buf.len())?;
        self.bytes.extend_from_slice(&buf[..count])?;
        Ok(count)
    }

    fn flush(&mut self) -> io::Result<()> {
        self.flushes = self.flushes.saturating_add(1);
        Ok(())
    }
}

/// Returns the pace of one byte a call with one failing call.
pub(crate) fn failing(call: usize, failure: Failure) -> Pace {
    Pace {
        failing: call,
        failure,
        ..BY_BYTE
    }
}

/// Returns whether the marks of a reader and a writer agree with the end: reading goes on until it fails or meets the end.
pub(crate) fn are_marked(
    end: ScriptEnd,
    read_ended: bool,
    read_failed: bool,
    write_failed: bool,
) -> bool {
    read_ended != read_failed
        && read_failed == (end == ScriptEnd::ReadFailed)
        && write_failed == (end == ScriptEnd::WriteFailed)
}

/// Scripts with their whole answers. The fifth answer is `EQUAL_KEYS`.
pub(crate) const SCRIPTS: &[(&str, &str)] = &[
    LIMITS,
    (
        "max 2\ninsert 1 10\ninsert 2 20\nwithin 1 11\nwithin 3 30\ninsert 3 30\nlist\nmax 1\n",
        "ok\nnew 1.2\nnew 2.2\nreplaced 1.2 1:10\nrefused capacity\nrefused maximum\nlist 1.2=1:11 2.2=2:20\nrefused reduction\n",
    ),
    (
        "before 1 5 0\ninsert 1 0\ninsert 2 0\ninsert 3 0\nempty 4 0\nbefore 2 9 0\ncheck\nlist\nfind 9\nvisits 9\nranks\n",
        "refused order\nnew 1.2\nnew 2.2\nnew 3.2\nrefused order\nnew 4.2\nincorrect ordering\nlist 1.2=1:0 4.2=9:0 2.2=2:0 3.2=3:0\nnone\nvisits 2\nranks 2 1 3 1\n",
    ),
    (
        "insert 7 0\nremove 1.2\nremove 1.2\ninsert 7 1\nget 1.2\nget 1.3\nremove-index 0\n",
        "new 1.2\nremoved 7:0\ninvalid\nnew 1.3\nnone\nitem 7:1\ninvalid\n",
    ),
    (
        "nonhereditary 5 1\nnonhereditary 5 2\nnonhereditary 5 3\nnonhereditary 5 4\nlist\nranks\n",
        EQUAL_KEYS,
    ),
    COMPRESSED,
];

/// Numbers at their limits, and one beyond.
pub(crate) const LIMITS: (&str, &str) = (
    "insert -9223372036854775808 18446744073709551615\nlist\ninsert 9223372036854775808 0\n",
    "new 1.2\nlist 1.2=-9223372036854775808:18446744073709551615\nline 3: bad number\n",
);

/// A compression, and both canonical orders.
pub(crate) const COMPRESSED: (&str, &str) = (
    "insert 30 0\ninsert 10 0\ninsert 40 0\ninsert 20 0\nremove 3.2\ncompress 0\nlist\nranks\ncanonical 0\nlist\ncanonical 1\nlist\n",
    "new 1.2\nnew 2.2\nnew 3.2\nnew 4.2\nremoved 40:0\nok\nlist 2.4=10:0 3.4=20:0 1.4=30:0\nranks 1 3 1\nok\nlist 1.5=10:0 2.5=20:0 3.5=30:0\nok\nlist 1.2=10:0 2.2=20:0 3.2=30:0\n",
);

/// The order of entries with equal keys.
const EQUAL_KEYS: &str =
    "new 1.2\nnew 2.2\nnew 3.2\nnew 4.2\nlist 1.2=5:1 2.2=5:2 3.2=5:3 4.2=5:4\nranks 1 3 2 1\n";

/// Returns the answer to a script, and its end.
pub(crate) fn served(alloc: Global, script: &[u8]) -> (Vec<u8>, ScriptEnd) {
    let mut output = Vec::new(alloc);
    let mut reader = Watched::new(script);
    let end = serve(alloc, &mut reader, &mut Watched::new(&mut output));
    (output, end)
}

/// Returns the words for a fault.
fn words_of(kind: FaultKind) -> &'static str {
    match kind {
        FaultKind::UnknownCommand => "unknown command",
        FaultKind::WrongArguments => "wrong arguments",
        FaultKind::BadNumber => "bad number",
    }
}

/// Returns whether a line is that of this fault.
fn is_fault(alloc: Global, line: &str, number: usize, kind: FaultKind) -> bool {
    match format!(in alloc; "line {number}: {}", words_of(kind)) {
        Ok(fault) => line == fault.as_str(),
        Err(_) => false,
    }
}

/// Returns whether an answer ends as its script did: with the line of a fault, or without one.
pub(crate) fn is_told(alloc: Global, answer: &str, end: ScriptEnd) -> bool {
    let line = answer.lines().last().unwrap_or("");
    match end {
        ScriptEnd::Fault(number, kind) => is_fault(alloc, line, number, kind),
        ScriptEnd::Done => !line.starts_with("line "),
        _ => false,
    }
}

/// Returns whether a script has this answer, and ends as the answer says.
pub(crate) fn is_answered(alloc: Global, script: &[u8], answer: &str) -> bool {
    let (output, end) = served(alloc, script);
    is_told(alloc, answer, end) && output.as_slice() == answer.as_bytes()
}
