//! Timelines of small numbers, from a program's view.
mod refused;
mod sequences;

use std::alloc::Global;
use timeline::Timeline;

type Numbers<A = Global> = Timeline<u8, A>;

#[test]
fn a_timeline_is_printed_as_its_changes(rt: HostRuntime) {
    let mut numbers = Numbers::new(rt.alloc());
    numbers.set(9, 17, 1).expect(&rt, "memory");
    let text = format!(in rt.alloc(); "{numbers:?}").expect(&rt, "memory");
    assert!(rt; text.as_str() == "{9: Some(1), 17: None}");
}
