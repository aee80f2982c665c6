//! Many letters scheduled at once: as one after another, and all or none.
use super::Letters;
use agenda::{Agenda, ReallocationError, Ticket};
use linked_list_allocator::LocalHeap;
use std::alloc::Global;

/// Letters at deadlines that are not in order.
const JOBS: [(u64, char); 6] = [(3, 'a'), (1, 'b'), (3, 'c'), (2, 'd'), (1, 'e'), (2, 'f')];

/// Returns whether two agendas show the same jobs under the same tickets.
fn show_alike(one: &Letters, other: &Letters) -> bool {
    let mut others = other.iter();
    for entry in one.iter() {
        if others.next() != Some(entry) {
            return false;
        }
    }
    others.next() == None
}

/// Schedules the letters one after another, and returns their tickets behind another one.
fn schedule_singly(alloc: Global, letters: &mut Letters, held: Ticket) -> Option<Vec<Ticket>> {
    let mut tickets = Vec::new(alloc);
    tickets.push(held).ok()?;
    for (deadline, letter) in &JOBS {
        let ticket = letters.schedule(*deadline, *letter).ok()?;
        tickets.push(ticket).ok()?;
    }
    Some(tickets)
}

/// Schedules the letters at once, and returns their tickets behind another one.
fn schedule_at_once(alloc: Global, letters: &mut Letters, held: Ticket) -> Option<Vec<Ticket>> {
    let jobs = Vec::from_array(alloc, JOBS).ok()?;
    let mut tickets = Vec::new(alloc);
    tickets.push(held).ok()?;
    letters.schedule_all(jobs, &mut tickets).ok()?;
    Some(tickets)
}

#[test]
fn letters_scheduled_at_once_are_as_one_after_another(rt: HostRuntime) {
    let held = Ticket::new(9, 9);
    let mut singly = Letters::new(rt.alloc());
    let wanted = schedule_singly(rt.alloc(), &mut singly, held).expect(&rt, "memory");
    let mut at_once = Letters::new(rt.alloc());
    let tickets = schedule_at_once(rt.alloc(), &mut at_once, held).expect(&rt, "memory");
    assert!(rt; tickets.as_slice() == wanted.as_slice());
    assert!(rt; show_alike(&at_once, &singly) && at_once.len() == 6);
}

/// Schedules the letters at once on a heap, with tickets on the same heap. Returns whether all were scheduled; `None` if a refusal changes
/// something.
fn all_or_none(alloc: Global, heap: &LocalHeap) -> Option<bool> {
    let mut letters: Letters<&LocalHeap> = Agenda::new(heap);
    let mut tickets: Vec<Ticket, &LocalHeap> = Vec::new(heap);
    let jobs = Vec::from_array(alloc, JOBS).ok()?;
    match letters.schedule_all(jobs, &mut tickets) {
        Ok(()) => (letters.len() == 6 && tickets.len() == 6).then_some(true),
        Err((back, refusal)) => {
            let is_whole = back.as_slice() == JOBS.as_slice()
                && refusal == ReallocationError::AllocError;
            (is_whole && letters.is_empty() && tickets.is_empty()).then_some(false)
        }
    }
}

#[test]
fn all_letters_come_back_if_memory_for_one_is_refused(rt: HostRuntime) {
    let mut met = [false; 2];
    for units in 1..60usize {
        let heap = LocalHeap::new(rt.alloc(), units * 16).expect(&rt, "a heap");
        if all_or_none(rt.alloc(), &heap).expect(&rt, "all or none") {
            met[1] = true;
        } else {
            met[0] = true;
        }
    }
    assert!(rt; met == [true, true]);
}
