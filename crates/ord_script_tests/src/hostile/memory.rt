//! Scripts on small heaps.
use crate::support::{COMPRESSED, LIMITS, is_told};
use linked_list_allocator::LocalHeap;
use ord_script::{ScriptEnd, Watched, serve};
use std::alloc::{AllocError, Global};
use std::fmt::Write;

/// Returns the end of a script on a heap of this size; `None` if memory isn't released.
fn end_on(alloc: Global, script: &[u8], size: usize, output: &mut Vec<u8>) -> Option<ScriptEnd> {
    let heap = LocalHeap::new(alloc, size).ok()?;
    let mut reader = Watched::new(script);
    let end = serve(&heap, &mut reader, &mut Watched::new(output));
    // `serve` has released what it took, so the same call would find the same room
    (heap.used() == 0).then_some(end)
}

/// A script with its answer if there is memory, and its answer if no entry fits. The second is empty for a script of ascending entries
/// and of lists, in which some entries may fit.
#[derive(Clone, Copy)]
struct Case<'a> {
    script: &'a str,
    whole: &'a str,
    bare: &'a str,
}

/// Returns whether a line may come in place of `wanted`: it is the same, or a list or ranks that were refused memory. If some entries may
/// fit, it may also be a refused one, or a list of those before it.
fn may_stand(line: &str, wanted: &str, may_lack: bool) -> bool {
    let is_list = wanted.starts_with("list ") || wanted.starts_with("ranks ");
    let may_be_refused = is_list || may_lack;
    let is_begun = may_lack && line.starts_with("list") && wanted.starts_with(line);
    line == wanted || is_begun || (may_be_refused && line == "refused memory")
}

/// Returns whether an answer is this one, except for refused memory.
fn is_but_for_refusals(told: &str, whole: &str, may_lack: bool) -> bool {
    let mut lines = whole.lines();
    for line in told.lines() {
        let Some(wanted) = lines.next() else {
            return false;
        };
        if !may_stand(line, wanted, may_lack) {
            return false;
        }
    }
    lines.next().is_none() && told.ends_with('\n')
}

/// Returns 0 for a script that was refused and wrote nothing, 1 for an answer with refusals, 2 for a whole one, and 3 for any other.
fn number_of(case: &Case, told: &str, is_refused: bool) -> usize {
    if is_refused {
        if told.is_empty() { 0 } else { 3 }
    } else if told == case.whole {
        2
    } else if told == case.bare || is_but_for_refusals(told, case.whole, case.bare.is_empty()) {
        1
    } else {
        3
    }
}

/// Returns the number for a script's answer on a heap of this size; also 3 if its end differs from its answer, or it keeps memory.
fn number_on(alloc: Global, case: &Case, size: usize) -> usize {
    let mut output = Vec::new(alloc);
    let end = end_on(alloc, case.script.as_bytes(), size, &mut output);
    let told = std::str::from_utf8(&output).unwrap_or("no text");
    match end {
        Some(ScriptEnd::Memory) => number_of(case, told, true),
        Some(end) if is_told(alloc, told, end) => number_of(case, told, false),
        _ => 3,
    }
}

/// Returns whether an answer with refusals occurs on heaps that grow by `step` bytes. On some of them the script must be refused, and on
/// the last its answer must be whole.
fn has_refusals(alloc: Global, case: &Case, step: usize) -> Option<bool> {
    let mut met = [false; 4];
    let mut last = 0;
    for size in 0usize..200 {
        last = number_on(alloc, case, size.saturating_mul(step));
        met[last % 4] = true;
    }
    (met[0] && !met[3] && last == 2).then_some(met[1])
}

/// The answer to `LIMITS` if no entry fits.
const BARE_LIMITS: &str = "refused memory\nlist\nline 3: bad number\n";

/// The answer to `COMPRESSED` if no entry fits.
const BARE_COMPRESSED: &str =
    "refused memory\nrefused memory\nrefused memory\nrefused memory\ninvalid\nok\nlist\nranks\nok\nlist\nok\nlist\n";

/// Returns whether a script, with its answer and the one if no entry fits, is refused on some heaps, and its answer is whole on the last.
fn is_refused_and_whole(alloc: Global, (script, whole): (&str, &str), bare: &str) -> bool {
    let case = Case {
        script,
        whole,
        bare,
    };
    has_refusals(alloc, &case, 16).is_some()
}

#[test]
fn a_small_heap_changes_an_answer_only_by_refusals(rt: HostRuntime) {
    assert!(rt; is_refused_and_whole(rt.alloc(), LIMITS, BARE_LIMITS));
    assert!(rt; is_refused_and_whole(rt.alloc(), COMPRESSED, BARE_COMPRESSED));
}

/// The number of entries that are inserted.
const ENTRIES: u64 = 40;

/// Writes a short script, whose answer is as long as all its lists together.
fn write_script(script: &mut String, lists: usize) -> Result<(), AllocError> {
    for key in 0..ENTRIES {
        write!(script, "insert {key} 0\n")?;
    }
    for _ in 0..lists {
        script.push_str("list\n")?;
    }
    Ok(())
}

/// Writes the line of a whole list.
fn write_list(answer: &mut String) -> Result<(), AllocError> {
    answer.push_str("list")?;
    for key in 0..ENTRIES {
        let index = key.saturating_add(1);
        write!(answer, " {index}.2={key}:0")?;
    }
    answer.push_str("\n")
}

/// Writes the whole answer.
fn write_answer(answer: &mut String, lists: usize) -> Result<(), AllocError> {
    for index in 1..=ENTRIES {
        write!(answer, "new {index}.2\n")?;
    }
    for _ in 0..lists {
        write_list(answer)?;
    }
    Ok(())
}

/// Returns whether an answer with refusals occurs on heaps of growing size, if all entries are listed this often.
fn has_refused_lists(alloc: Global, lists: usize) -> Option<bool> {
    let (mut script, mut whole) = (String::new(alloc), String::new(alloc));
    let is_written = write_script(&mut script, lists).is_ok()
        && write_answer(&mut whole, lists).is_ok();
    let case = Case {
        script: script.as_str(),
        whole: whole.as_str(),
        bare: "",
    };
    if is_written {
        has_refusals(alloc, &case, 800)
    } else {
        None
    }
}

#[test]
fn lists_on_a_small_heap_are_refused_or_show_the_entries(rt: HostRuntime) {
    assert!(rt; has_refused_lists(rt.alloc(), 3) == Some(true));
    assert!(rt; has_refused_lists(rt.alloc(), 60).is_some());
}
