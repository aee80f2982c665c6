//! Timelines on a heap with little memory left: a refused call changes nothing.
use super::Numbers;
use crate::support::rest_of;
use linked_list_allocator::LocalHeap;
use std::alloc::Global;
use timeline::{ReallocationError, Text, Timeline};

/// Cuts a stretch of a text in two. `None` if the text has no memory; the text then holds on.
fn cut<'h>(
    heap: &'h LocalHeap,
    texts: &mut Timeline<Text<&'h LocalHeap>, &'h LocalHeap>,
) -> Option<bool> {
    let Ok(tea) = String::from_str(heap, "tea") else {
        return None;
    };
    match texts.set(12, 13, Text::new(tea)) {
        Ok(()) => Some(true),
        Err(_) => Some(false),
    }
}

/// Puts a long text and cuts it, in a heap of so many bytes. Returns how far that came.
fn cut_in(alloc: Global, bytes: usize) -> Option<u64> {
    let heap = LocalHeap::new(alloc, bytes).ok()?;
    let mut texts: Timeline<Text<&LocalHeap>, &LocalHeap> = Timeline::new(&heap);
    if texts.reserve(2).is_err() {
        return Some(0);
    }
    let Ok(work) = String::from_str(&heap, "a text of more than thirty letters") else {
        return Some(1);
    };
    if texts.set(9, 17, Text::new(work)).is_err() {
        return None;
    }
    let is_cut = cut(&heap, &mut texts);
    let holds = texts.get(16).map_or("", |text| text.as_str())
        == "a text of more than thirty letters";
    let Some(is_cut) = is_cut else {
        return Some(2);
    };
    let wanted = if is_cut { 4 } else { 2 };
    if !holds || texts.len() != wanted {
        return None;
    }
    Some(if is_cut { 4 } else { 3 })
}

#[test]
fn nothing_changes_if_a_clone_is_refused(rt: HostRuntime) {
    let mut met = [false; 5];
    for units in 1..60usize {
        let reached = cut_in(rt.alloc(), units * 16).expect(&rt, "an answer that is right");
        met[(reached % 5) as usize] = true;
    }
    assert!(rt; met[0] && met[1] && met[3] && met[4]);
}

/// Sets spans apart from each other until memory is refused. Returns how many were set; 10 if one isn't as it was set, or a refusal
/// changed something.
fn set_until_refused(numbers: &mut Numbers<&LocalHeap>) -> u64 {
    for n in 0..9u64 {
        let (from, until) = (n * 10, n * 10 + 5);
        let held = numbers.len();
        match numbers.set(from, until, 1) {
            Ok(()) if numbers.get(until - 1).copied() == Some(1) && numbers.get(until).is_none() =>
                {}
            Err(ReallocationError::AllocError)
                if numbers.len() == held && numbers.get(from).is_none() => {
                return n;
            }
            _ => return 10,
        }
    }
    9
}

#[test]
fn nothing_changes_if_memory_is_refused(rt: HostRuntime) {
    let mut met = [false; 10];
    for units in 1..320usize {
        let heap = LocalHeap::new(rt.alloc(), units * 16).expect(&rt, "a heap");
        let mut numbers: Numbers<&LocalHeap> = Timeline::new(&heap);
        let set = set_until_refused(&mut numbers);
        assert!(rt; set < 10);
        met[set as usize] = true;
    }
    // each growth was refused in turn: from 0, from 4, from 8, from 16
    assert!(rt; met[0] && met[2] && met[4] && met[8] && met[9]);
}

/// Sets five times from this one on. Returns whether that succeeded; `None` if memory was refused.
fn set_from(numbers: &mut Numbers<&LocalHeap>, from: u64) -> Option<bool> {
    match numbers.set(from, from.wrapping_add(5), 1) {
        Ok(()) => Some(true),
        Err(ReallocationError::AllocError) => None,
        Err(_) => Some(false),
    }
}

#[test]
fn a_setting_with_room_for_two_changes_needs_no_memory(rt: HostRuntime) {
    let heap = LocalHeap::new(rt.alloc(), 2048).expect(&rt, "a heap");
    let mut numbers: Numbers<&LocalHeap> = Timeline::new(&heap);
    for from in [0u64, 10, 20].iter() {
        assert!(rt; set_from(&mut numbers, *from) == Some(true));
    }
    assert!(rt; (numbers.len(), numbers.capacity()) == (6, 8));
    let rest = rest_of(rt.alloc(), &heap).expect(&rt, "memory");
    assert!(rt; set_from(&mut numbers, 30) == Some(true));
    assert!(rt; set_from(&mut numbers, 40).is_none());
    assert!(rt; (numbers.len(), numbers.capacity()) == (8, 8));
    drop(rest);
    assert!(rt; set_from(&mut numbers, 40) == Some(true));
    assert!(rt; (numbers.len(), numbers.capacity()) == (10, 16));
}
