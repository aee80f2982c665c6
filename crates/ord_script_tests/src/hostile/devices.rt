//! Devices that fail after each number of bytes.
use crate::support::{AT_ONCE, Failure, Pace, SCRIPTS, Sink, Source, are_marked, is_told};
use ord_script::{ScriptEnd, Watched, serve};
use std::alloc::Global;

/// Returns the end of a script with a reader of this pace and this writer; `None` if their marks disagree with it.
fn end_with(alloc: Global, script: &str, reading: Pace, sink: &mut Sink) -> Option<ScriptEnd> {
    let mut reader = Watched::new(Source {
        bytes: script.as_bytes(),
        pace: reading,
    });
    let mut writer = Watched::new(sink);
    let end = serve(alloc, &mut reader, &mut writer);
    are_marked(end, reader.ended(), reader.failed(), writer.failed()).then_some(end)
}

/// Returns whether a script on devices of these paces ends this way, and this is written.
fn goes(
    alloc: Global,
    script: &str,
    (reading, writing): (Pace, Pace),
    wanted: &[u8],
    wanted_end: ScriptEnd,
) -> bool {
    let mut sink = Sink {
        bytes: Vec::new(alloc),
        pace: writing,
        flushes: 0,
    };
    let end = end_with(alloc, script, reading, &mut sink);
    end == Some(wanted_end) && sink.bytes.as_slice() == wanted
}

/// The numbers of bytes a call.
const STEPS: [usize; 3] = [1, 5, usize::MAX];

/// How calls fail. The last way occurs only in writes.
const FAILURES: [Failure; 3] = [Failure::Broken, Failure::Interrupted, Failure::Nothing];

/// Returns the pace with this number, and a failure after `left` bytes.
fn pace_of(number: usize, left: usize) -> Pace {
    Pace {
        step: STEPS[number % 3],
        left,
        failure: FAILURES[number / 3 % 3],
        ..AT_ONCE
    }
}

/// Returns whether reads that fail after this many bytes end the script, and nothing is written.
fn read_fails(alloc: Global, script: &str, left: usize) -> bool {
    for number in 0usize..6 {
        let paces = (pace_of(number, left), AT_ONCE);
        if !goes(alloc, script, paces, &[], ScriptEnd::ReadFailed) {
            return false;
        }
    }
    true
}

#[test]
fn a_read_that_fails_after_any_byte_ends_the_script_with_nothing_written(rt: HostRuntime) {
    for (script, _) in SCRIPTS {
        for left in 0..=script.len() {
            assert!(rt; read_fails(rt.alloc(), *script, left));
        }
    }
}

/// Returns whether writes that fail after this many bytes end the script. The bytes must be a beginning of the answer.
fn write_fails(alloc: Global, script: &str, answer: &[u8], left: usize) -> bool {
    let wanted = answer.get(..left).unwrap_or(&[]);
    for number in 0usize..9 {
        let paces = (AT_ONCE, pace_of(number, left));
        if !goes(alloc, script, paces, wanted, ScriptEnd::WriteFailed) {
            return false;
        }
    }
    true
}

#[test]
fn a_write_that_fails_after_any_byte_leaves_a_beginning_of_the_answer(rt: HostRuntime) {
    for (script, answer) in SCRIPTS {
        for left in 0..answer.len() {
            assert!(rt; write_fails(rt.alloc(), *script, answer.as_bytes(), left));
        }
    }
}

/// Returns whether a script has this answer on devices that move `step` bytes a call and don't fail.
fn is_served_slowly(alloc: Global, script: &str, answer: &str, step: usize) -> bool {
    let pace = Pace { step, ..AT_ONCE };
    let mut sink = Sink {
        bytes: Vec::new(alloc),
        pace,
        flushes: 0,
    };
    match end_with(alloc, script, pace, &mut sink) {
        Some(end) => is_told(alloc, answer, end) && sink.bytes.as_slice() == answer.as_bytes(),
        None => false,
    }
}

#[test]
fn slow_devices_get_the_same_answer(rt: HostRuntime) {
    for (script, answer) in SCRIPTS {
        for step in [1usize, 2, 3, 7] {
            assert!(rt; is_served_slowly(rt.alloc(), *script, *answer, step));
        }
    }
}
