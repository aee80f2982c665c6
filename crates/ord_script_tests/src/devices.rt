//! Scripts on devices that are slow, that fail and recover, and that count their calls: nothing is retried.
use crate::support::{AT_ONCE, Failure, Pace, Sink, Source, are_marked, failing};
use ord_script::{FaultKind, ScriptEnd, Watched, serve};
use std::alloc::{AllocError, Global};
use std::test::Fail;

/// A script with its answer and its end.
const SCRIPT: &[u8] = b"insert 50 1\ninsert 30 2\nfind 30\nlist\nstop";

const ANSWER: &[u8] =
    b"new 1.2\nnew 2.2\nat 2.2\nlist 2.2=30:2 1.2=50:1\nline 5: unknown command\n";

const END: ScriptEnd = ScriptEnd::Fault(5, FaultKind::UnknownCommand);

/// How often each device was called, and how many bytes were left unread.
#[derive(Clone, Copy, Debug, PartialEq, Eq)]
struct Calls {
    reads: usize,
    unread: usize,
    writes: usize,
}

/// Returns the calls of devices with these paces, if the script ends this way, the marks agree, and this is written.
fn calls_of(
    alloc: Global,
    reading: Pace,
    writing: Pace,
    wanted_end: ScriptEnd,
    written: &[u8],
) -> Option<Calls> {
    let mut source = Source {
        bytes: SCRIPT,
        pace: reading,
    };
    let mut sink = Sink {
        bytes: Vec::new(alloc),
        pace: writing,
        flushes: 0,
    };
    let mut reader = Watched::new(&mut source);
    let mut writer = Watched::new(&mut sink);
    let end = serve(alloc, &mut reader, &mut writer);
    let is_told = are_marked(end, reader.ended(), reader.failed(), writer.failed());
    let is_right = end == wanted_end && is_told && sink.bytes.as_slice() == written;
    let calls = Calls {
        reads: source.pace.calls,
        unread: source.bytes.len(),
        writes: sink.pace.calls,
    };
    is_right.then_some(calls)
}

#[test]
fn short_reads_and_writes_are_continued(rt: HostRuntime) {
    for step in [1, 2, 3, 7, 50] {
        let pace = Pace { step, ..AT_ONCE };
        let calls = calls_of(rt.alloc(), pace, pace, END, ANSWER);
        // the last read is the one that meets the end
        let expected = Calls {
            reads: SCRIPT.len().div_ceil(step) + 1,
            unread: 0,
            writes: ANSWER.len().div_ceil(step),
        };
        assert!(rt; calls == Some(expected));
    }
}

#[test]
fn a_failed_read_is_not_retried_and_nothing_is_written(rt: HostRuntime) {
    for call in 0..=SCRIPT.len() {
        let pace = failing(call, Failure::Interrupted);
        let calls = calls_of(rt.alloc(), pace, AT_ONCE, ScriptEnd::ReadFailed, b"");
        let expected = Calls {
            reads: call + 1,
            unread: SCRIPT.len() - call,
            writes: 0,
        };
        assert!(rt; calls == Some(expected));
    }
}

#[test]
fn a_failed_write_is_not_retried_and_ends_the_script(rt: HostRuntime) {
    for call in 0..ANSWER.len() {
        for failure in [Failure::Interrupted, Failure::Nothing] {
            let pace = failing(call, failure);
            let written = &ANSWER[..call];
            let calls = calls_of(rt.alloc(), AT_ONCE, pace, ScriptEnd::WriteFailed, written);
            let expected = Calls {
                reads: 2,
                unread: 0,
                writes: call + 1,
            };
            assert!(rt; calls == Some(expected));
        }
    }
}

/// Returns whether this many line feeds, which have no answer, end this way, after this many reads, with this many bytes unread.
fn is_end_of_line_feeds(
    alloc: Global,
    count: usize,
    failing: usize,
    wanted: (ScriptEnd, usize, usize),
) -> Result<bool, AllocError> {
    let script = vec![in alloc; b'\n'; count]?;
    let mut source = Source {
        bytes: &script,
        pace: Pace { failing, ..AT_ONCE },
    };
    let mut output = Vec::new(alloc);
    let mut reader = Watched::new(&mut source);
    let end = serve(alloc, &mut reader, &mut Watched::new(&mut output));
    Ok(output.is_empty() && (end, source.pace.calls, source.bytes.len()) == wanted)
}

/// The number of line feeds, the failing call, the end, the number of reads, and the number of bytes unread. 256 reads of 4096 bytes
/// reach the limit.
const LINE_FEEDS: [(usize, usize, (ScriptEnd, usize, usize)); 5] = [
    (1_048_576, usize::MAX, (ScriptEnd::Done, 257, 0)),
    (1_048_577, usize::MAX, (ScriptEnd::TooLong, 257, 0)),
    (1_048_600, usize::MAX, (ScriptEnd::TooLong, 257, 23)),
    // whichever comes first
    (1_048_600, 256, (ScriptEnd::ReadFailed, 257, 24)),
    (1_048_600, 257, (ScriptEnd::TooLong, 257, 23)),
];

#[test]
fn reading_stops_one_byte_beyond_the_limit(rt: HostRuntime) -> Result<(), Fail> {
    for (count, failing, wanted) in &LINE_FEEDS {
        assert!(rt; is_end_of_line_feeds(rt.alloc(), *count, *failing, *wanted)?);
    }
    Ok(())
}
