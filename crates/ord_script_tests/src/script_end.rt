//! How a program that serves a script ends: its exit status, and its message on standard error.
use crate::support::{AT_ONCE, Failure, Pace, Sink, Source};
use linked_list_allocator::LocalHeap;
use ord_script::{FaultKind, ScriptEnd, Watched, serve};
use std::alloc::{AllocError, Allocator, Global};
use std::test::Fail;

/// A device whose first call fails.
const BROKEN: Pace = Pace {
    failing: 0,
    ..AT_ONCE
};

/// Returns the end of a script on devices with these paces.
fn end_of(alloc: Global, script: &[u8], reading: Pace, writing: Pace) -> ScriptEnd {
    let mut source = Source {
        bytes: script,
        pace: reading,
    };
    let mut sink = Sink {
        bytes: Vec::new(alloc),
        pace: writing,
        flushes: 0,
    };
    serve(
        alloc,
        &mut Watched::new(&mut source),
        &mut Watched::new(&mut sink),
    )
}

/// Returns the end of a script on a heap.
fn end_on<A: Allocator + Copy>(alloc: A, output: &mut Vec<u8>, script: &[u8]) -> ScriptEnd {
    serve(alloc, &mut Watched::new(script), &mut Watched::new(output))
}

/// Returns whether a program with this end has this exit status, and writes this to standard error.
fn is_reported(alloc: Global, end: ScriptEnd, status: u8, message: &[u8]) -> bool {
    let mut errors = Vec::new(alloc);
    let reported = end.report(&mut Watched::new(&mut errors));
    reported == status && errors.as_slice() == message
}

#[test]
fn a_script_that_is_done_has_status_0(rt: HostRuntime) {
    let end = end_of(rt.alloc(), b"first\n", AT_ONCE, AT_ONCE);
    assert!(rt; is_reported(rt.alloc(), end, 0, b""));
}

#[test]
fn a_fault_has_status_2(rt: HostRuntime) {
    let end = end_of(rt.alloc(), b"stop\n", AT_ONCE, AT_ONCE);
    assert!(rt; is_reported(rt.alloc(), end, 2, b""));
}

/// Returns one byte more than a script may have.
fn long_script(alloc: Global) -> Result<Vec<u8>, AllocError> {
    vec![in alloc; b'\n'; 1_048_577]
}

#[test]
fn a_long_script_has_status_3(rt: HostRuntime) -> Result<(), Fail> {
    let script = long_script(rt.alloc())?;
    let end = end_of(rt.alloc(), &script, AT_ONCE, AT_ONCE);
    assert!(rt; is_reported(rt.alloc(), end, 3, b"ordrun: input too long\n"));
    Ok(())
}

#[test]
fn a_lack_of_memory_has_status_4(rt: HostRuntime) -> Result<(), Fail> {
    let heap = LocalHeap::new(rt.alloc(), 0)?;
    let end = end_on(&heap, &mut Vec::new(rt.alloc()), b"first\n");
    assert!(rt; is_reported(rt.alloc(), end, 4, b"ordrun: out of memory\n"));
    Ok(())
}

#[test]
fn a_failed_read_has_status_5(rt: HostRuntime) {
    let end = end_of(rt.alloc(), b"first\n", BROKEN, AT_ONCE);
    assert!(rt; is_reported(rt.alloc(), end, 5, b"ordrun: read failed\n"));
}

#[test]
fn a_failed_write_has_status_6(rt: HostRuntime) {
    let end = end_of(rt.alloc(), b"first\n", AT_ONCE, BROKEN);
    assert!(rt; is_reported(rt.alloc(), end, 6, b"ordrun: write failed\n"));
}

#[test]
fn the_status_is_the_same_if_standard_error_fails(rt: HostRuntime) {
    let mut errors = Sink {
        bytes: Vec::new(rt.alloc()),
        pace: Pace {
            left: 6,
            failure: Failure::Nothing,
            ..AT_ONCE
        },
        flushes: 0,
    };
    let mut watched = Watched::new(&mut errors);
    let status = ScriptEnd::Memory.report(&mut watched);
    assert!(rt; (status, watched.failed()) == (4, true));
    assert!(rt; errors.bytes.as_slice() == b"ordrun".as_slice());
    assert!(rt; errors.pace.calls == 2);
}

/// Returns whether an end is printed like this.
fn is_end_printed(alloc: Global, end: ScriptEnd, wanted: &str) -> Result<bool, AllocError> {
    let text = format!(in alloc; "{end:?}")?;
    Ok(text.as_str() == wanted)
}

#[test]
fn each_end_is_printed_by_its_name(rt: HostRuntime) -> Result<(), Fail> {
    let texts = [
        (ScriptEnd::Done, "Done"),
        (
            ScriptEnd::Fault(5, FaultKind::BadNumber),
            "Fault(5, BadNumber)",
        ),
        (ScriptEnd::TooLong, "TooLong"),
        (ScriptEnd::Memory, "Memory"),
        (ScriptEnd::ReadFailed, "ReadFailed"),
        (ScriptEnd::WriteFailed, "WriteFailed"),
    ];
    for (end, wanted) in &texts {
        assert!(rt; is_end_printed(rt.alloc(), *end, wanted)?);
    }
    Ok(())
}
