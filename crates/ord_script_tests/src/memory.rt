//! Refused memory, and scripts for which there is enough.
use linked_list_allocator::LocalHeap;
use ord_script::{ScriptEnd, Watched, serve};
use std::fmt::Write;
use std::test::Fail;

/// A script whose first and fifth entries make the arena grow, and whose lists and drain request memory.
const GROWING: &[u8] =
    b"insert 9 1\ninsert 8 2\ninsert 7 3\ninsert 6 4\nlist\nranks\ninsert 5 5\nget 1.2\nlist\nranks\ndrain 2\n";

/// The possible answers to each of its lines. A command that is refused memory says so, and the script goes on.
const LINES: &[&[&str]] = &[
    &["refused memory", "new 1.2"],
    &["refused memory", "new 2.2"],
    &["refused memory", "new 3.2"],
    &["refused memory", "new 4.2"],
    &[
        "refused memory",
        "list",
        "list 4.2=6:4 3.2=7:3 2.2=8:2 1.2=9:1",
    ],
    &["refused memory", "ranks", "ranks 1 2 3 1"],
    &["refused memory", "new 5.2"],
    &["none", "item 9:1"],
    &[
        "refused memory",
        "list",
        "list 4.2=6:4 3.2=7:3 2.2=8:2 1.2=9:1",
        "list 5.2=5:5 4.2=6:4 3.2=7:3 2.2=8:2 1.2=9:1",
    ],
    &[
        "refused memory",
        "ranks",
        "ranks 1 2 3 1",
        "ranks 1 2 1 3 1",
    ],
    &[
        "refused memory",
        "drained",
        "drained 4.2=6:4 3.2=7:3",
        "drained 5.2=5:5 4.2=6:4",
    ],
];

/// The answer if no memory is refused.
const WHOLE: &str =
    "new 1.2\nnew 2.2\nnew 3.2\nnew 4.2\nlist 4.2=6:4 3.2=7:3 2.2=8:2 1.2=9:1\nranks 1 2 3 1\nnew 5.2\nitem 9:1\nlist 5.2=5:5 4.2=6:4 3.2=7:3 2.2=8:2 1.2=9:1\nranks 1 2 1 3 1\ndrained 5.2=5:5 4.2=6:4\n";

/// Returns whether an answer has these lines.
fn is_possible(answer: &str) -> bool {
    let mut lines = answer.lines();
    for known in LINES {
        match lines.next() {
            Some(line) if known.contains(&line) => {}
            _ => return false,
        }
    }
    lines.next().is_none()
}

#[test]
fn a_command_refused_memory_says_so_and_the_script_goes_on(rt: HostRuntime) -> Result<(), Fail> {
    let mut is_refused = false;
    let mut is_whole = false;
    for size in 0..250 {
        let heap = LocalHeap::new(rt.alloc(), 16 * size)?;
        let mut output = Vec::new(rt.alloc());
        let mut reader = Watched::new(GROWING);
        let end = serve(&heap, &mut reader, &mut Watched::new(&mut output));
        assert!(rt; heap.used() == 0);
        let answer = std::str::from_utf8(&output)?;
        if end == ScriptEnd::Memory {
            assert!(rt; answer.is_empty());
        } else {
            assert!(rt; end == ScriptEnd::Done);
            assert!(rt; is_possible(answer));
            is_refused = is_refused || answer.contains("refused memory");
            is_whole = answer == WHOLE;
        }
    }
    assert!(rt; is_refused && is_whole);
    Ok(())
}

/// The number of entries that the long script inserts.
const COUNT: u64 = 40_000;

/// Gives the key of a turn: each number below `COUNT` once.
const KEY_FACTOR: u64 = 7919;

/// Gives the turn of a key: `KEY_FACTOR * TURN_FACTOR` is 1 more than a multiple of `COUNT`.
const TURN_FACTOR: u64 = 17_679;

#[test]
fn a_long_script_is_answered(rt: HostRuntime) {
    let mut script = String::new(rt.alloc());
    let mut answer = String::new(rt.alloc());
    for turn in 0..COUNT {
        let key = turn * KEY_FACTOR % COUNT;
        let index = turn + 1;
        write!(script, "insert {key} {turn}\n").expect(&rt, "memory");
        write!(answer, "new {index}.2\n").expect(&rt, "memory");
    }
    write!(script, "list\n").expect(&rt, "memory");
    write!(answer, "list").expect(&rt, "memory");
    for key in 0..COUNT {
        let turn = key * TURN_FACTOR % COUNT;
        let index = turn + 1;
        write!(answer, " {index}.2={key}:{turn}").expect(&rt, "memory");
    }
    write!(answer, "\n").expect(&rt, "memory");
    let mut output = Vec::new(rt.alloc());
    let mut reader = Watched::new(script.as_bytes());
    let end = serve(rt.alloc(), &mut reader, &mut Watched::new(&mut output));
    assert!(rt; end == ScriptEnd::Done);
    assert!(rt; output.as_slice() == answer.as_bytes());
}
