//! Scripts that are cut after each of their bytes.
use crate::support::{SCRIPTS, is_answered, is_told, served};
use ord_script::{FaultKind, ScriptEnd};
use std::alloc::Global;

/// The fault in the last line of each prefix of the scripts, from the empty one on: its first word, the number of words after it, a
/// number, or nothing.
const FAULTS: &[&str] = &[
    ".uuuuuwwwwwwwwwwwwwwwwwwwwwww.....................uuu..uuuuuwwwwwwwwwwwwwwwwwwwwwwbb",
    ".uuww..uuuuuwwww...uuuuuwwww...uuuuuwwww...uuuuuwwww...uuuuuwwww...uuu..uuww..",
    ".uuuuuwwwwww..uuuuuwwww..uuuuuwwww..uuuuuwwww..uuuuwwww..uuuuuwwwwww..uuuu..uuu..uuuww..uuuuuww..uuuu..",
    ".uuuuuwwww..uuuuuwwbb..uuuuuwwbb..uuuuuwwww..uuwwbb..uuwwbb..uuuuuwuuuuuww..",
    ".uuuuuuuuuuuuwwww..uuuuuuuuuuuuwwww..uuuuuuuuuuuuwwww..uuuuuuuuuuuuwwww..uuu..uuuu..",
    ".uuuuuwwwww..uuuuuwwwww..uuuuuwwwww..uuuuuwwwww..uuuuuwwbb..uuuuuuuww..uuu..uuuu..uuuuuuuuww..uuu..uuuuuuuuww..uuu..",
];

/// Returns the letter for an end at a line.
fn letter_of(end: ScriptEnd, line: usize) -> u8 {
    match end {
        ScriptEnd::Done => b'.',
        ScriptEnd::Fault(number, kind) if number == line => match kind {
            FaultKind::UnknownCommand => b'u',
            FaultKind::WrongArguments => b'w',
            FaultKind::BadNumber => b'b',
        },
        _ => b'?',
    }
}

/// Returns how many lines two texts have in common at the beginning.
fn common_lines(left: &str, right: &str) -> usize {
    let mut count = 0usize;
    for (one, other) in left.lines().zip(right.lines()) {
        if one != other {
            return count;
        }
        count = count.saturating_add(1);
    }
    count
}

/// Returns whether an answer has a line for each line of a cut script, and has in common with the whole answer at least as many lines as
/// the cut has with the whole script.
fn are_lines(script: &str, answer: &str, cut: &str, told: &str) -> bool {
    told.lines().count() == cut.lines().count()
        && common_lines(told, answer) >= common_lines(cut, script)
        && (told.is_empty() || told.ends_with('\n'))
}

/// Returns whether a script cut after `count` bytes has the right answer: whole lines as in the whole script, and the fault of the rest
/// of a line.
fn is_cut_answered(alloc: Global, script: &str, answer: &str, count: usize, fault: u8) -> bool {
    let Some((cut, _)) = script.split_at_checked(count) else {
        return false;
    };
    let (output, end) = served(alloc, cut.as_bytes());
    let told = std::str::from_utf8(&output).unwrap_or("no text");
    are_lines(script, answer, cut, told)
        && is_told(alloc, told, end)
        && letter_of(end, cut.lines().count()) == fault
}

/// Returns the fault in the last line of a prefix.
fn fault_at(faults: &str, count: usize) -> u8 {
    match faults.as_bytes().get(count) {
        Some(fault) => *fault,
        None => 0,
    }
}

/// Returns whether each prefix of a script, and the whole one, has the right answer.
fn is_each_beginning_answered(alloc: Global, script: &str, answer: &str, faults: &str) -> bool {
    for count in 0..=script.len() {
        let fault = fault_at(faults, count);
        if !is_cut_answered(alloc, script, answer, count, fault) {
            return false;
        }
    }
    is_answered(alloc, script.as_bytes(), answer)
}

/// Returns the faults of the prefixes of the script at a place.
fn faults_of(place: usize) -> &'static str {
    match FAULTS.get(place) {
        Some(faults) => *faults,
        None => "",
    }
}

#[test]
fn a_cut_script_is_answered_up_to_the_cut(rt: HostRuntime) {
    let mut place = 0usize;
    for (script, answer) in SCRIPTS {
        let faults = faults_of(place);
        assert!(rt; is_each_beginning_answered(rt.alloc(), *script, *answer, faults));
        place = place.saturating_add(1);
    }
}
