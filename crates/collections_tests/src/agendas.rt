//! Agendas of letters, from a program's view.
mod bulk;
mod due;
mod room;
mod sequences;

use crate::support::rest_of;
use agenda::{Agenda, ReallocationError, Ticket};
use linked_list_allocator::LocalHeap;
use std::alloc::{Allocator, Global};

type Letters<A = Global> = Agenda<char, A>;

/// A call on an agenda. Tickets are named by their places in the list of all tickets.
#[derive(Clone, Copy)]
enum Call {
    Schedule(u64, char),
    Move(usize, u64),
    Reschedule(usize, u64),
    Cancel(usize),
    PopDue(u64),
}

/// Makes a call, and keeps its ticket. Returns the deadline and the letter of the job that it names or removes, if any; for a job that is
/// moved or rescheduled, the new deadline and a space.
fn job_of<A: Allocator>(
    letters: &mut Letters<A>,
    tickets: &mut Vec<Ticket>,
    call: Call,
) -> Option<(u64, char)> {
    match call {
        Call::Schedule(deadline, letter) => {
            let ticket = letters.schedule(deadline, letter).ok()?;
            tickets.push(ticket).ok()?;
            Some((deadline, letter))
        }
        Call::Move(place, deadline) => {
            let ticket = letters.move_to(*tickets.get(place)?, deadline)?;
            tickets.push(ticket).ok()?;
            Some((deadline, ' '))
        }
        Call::Reschedule(place, deadline) => letters
            .reschedule(*tickets.get(place)?, deadline)
            .then_some((deadline, ' ')),
        Call::Cancel(place) => letters.cancel(*tickets.get(place)?),
        Call::PopDue(time) => letters.pop_due(time),
    }
}

/// A call, and the job that it names or removes.
type Row = (Call, Option<(u64, char)>);

/// Jobs leave by deadline, then in the order of scheduling. A moved job goes behind those with an equal deadline. Tickets of jobs that
/// left name nothing. In the end the agenda is empty.
const ROWS: [Row; 36] = [
    (Call::Schedule(10, 'a'), Some((10, 'a'))),
    (Call::Schedule(5, 'b'), Some((5, 'b'))),
    (Call::Schedule(10, 'c'), Some((10, 'c'))),
    (Call::Schedule(5, 'd'), Some((5, 'd'))),
    (Call::Move(1, 10), Some((10, ' '))),
    (Call::PopDue(4), None),
    (Call::PopDue(10), Some((5, 'd'))),
    (Call::PopDue(10), Some((10, 'a'))),
    (Call::PopDue(10), Some((10, 'c'))),
    (Call::PopDue(10), Some((10, 'b'))),
    (Call::PopDue(10), None),
    (Call::Cancel(1), None),
    // tickets of jobs that left, the last of which has the index of the next one
    (Call::Schedule(7, 'x'), Some((7, 'x'))),
    (Call::PopDue(6), None),
    (Call::PopDue(7), Some((7, 'x'))),
    (Call::Cancel(5), None),
    (Call::Move(5, 9), None),
    (Call::Schedule(7, 'y'), Some((7, 'y'))),
    (Call::Cancel(5), None),
    (Call::Cancel(6), Some((7, 'y'))),
    (Call::PopDue(u64::MAX), None),
    // moves to the job's own deadline, to the front, and to that of the last job
    (Call::Schedule(3, 'a'), Some((3, 'a'))),
    (Call::Schedule(3, 'b'), Some((3, 'b'))),
    (Call::Schedule(8, 'c'), Some((8, 'c'))),
    (Call::Schedule(0, 'd'), Some((0, 'd'))),
    (Call::Schedule(u64::MAX, 'e'), Some((u64::MAX, 'e'))),
    (Call::Move(7, 3), Some((3, ' '))),
    (Call::Move(7, 5), None),
    (Call::Move(9, 0), Some((0, ' '))),
    (Call::Move(12, u64::MAX), Some((u64::MAX, ' '))),
    (Call::Move(13, 3), Some((3, ' '))),
    (Call::PopDue(u64::MAX), Some((0, 'd'))),
    (Call::PopDue(u64::MAX), Some((3, 'b'))),
    (Call::PopDue(u64::MAX), Some((3, 'c'))),
    (Call::PopDue(u64::MAX), Some((u64::MAX, 'e'))),
    (Call::PopDue(u64::MAX), Some((u64::MAX, 'a'))),
];

#[test]
fn jobs_leave_by_deadline_and_then_in_the_order_of_scheduling(rt: HostRuntime) {
    let mut letters = Letters::new(rt.alloc());
    let mut tickets = Vec::new(rt.alloc());
    for (call, wanted) in &ROWS {
        assert!(rt; job_of(&mut letters, &mut tickets, *call) == *wanted);
    }
    assert!(rt; (letters.len(), letters.next_deadline()) == (0, None));
}

/// Schedules as many letters as fit, each with deadline 9. Returns how many; `None` if a refusal keeps the letter or changes something.
fn fill(letters: &mut Letters<&LocalHeap>) -> Option<usize> {
    for held in 0usize..9 {
        if let Err(refused) = letters.schedule(9, 'j') {
            let is_given_back = refused == ('j', ReallocationError::AllocError);
            return (is_given_back && letters.len() == held).then_some(held);
        }
    }
    Some(9)
}

#[test]
fn a_job_is_given_back_if_memory_is_refused(rt: HostRuntime) {
    let mut met = [false; 10];
    for units in 1..120usize {
        let heap = LocalHeap::new(rt.alloc(), units * 16).expect(&rt, "a heap");
        let mut letters: Letters<&LocalHeap> = Agenda::new(&heap);
        let held = fill(&mut letters).expect(&rt, "the letter back");
        if let Some(place) = met.get_mut(held) {
            *place = true;
        }
        for _ in 0..held {
            assert!(rt; letters.pop_due(9) == Some((9, 'j')));
        }
        assert!(rt; letters.is_empty());
    }
    // each growth was refused in turn: from 0, from 4, from 8
    assert!(rt; (met[0], met[4], met[8], met[9]) == (true, true, true, true));
}

/// Calls before all memory is taken, without any, and with memory again.
const BEFORE: [Row; 4] = [
    (Call::Schedule(1, 'a'), Some((1, 'a'))),
    (Call::Schedule(2, 'b'), Some((2, 'b'))),
    (Call::Schedule(2, 'c'), Some((2, 'c'))),
    (Call::Schedule(4, 'd'), Some((4, 'd'))),
];

const WITHOUT: [Row; 3] = [
    (Call::Schedule(3, 'e'), None),
    (Call::Move(0, 2), Some((2, ' '))),
    (Call::Reschedule(1, 2), Some((2, ' '))),
];

const AFTER: [Row; 7] = [
    (Call::Schedule(3, 'e'), Some((3, 'e'))),
    (Call::PopDue(u64::MAX), Some((2, 'c'))),
    (Call::PopDue(u64::MAX), Some((2, 'a'))),
    (Call::PopDue(u64::MAX), Some((2, 'b'))),
    (Call::PopDue(u64::MAX), Some((3, 'e'))),
    (Call::PopDue(u64::MAX), Some((4, 'd'))),
    (Call::PopDue(u64::MAX), None),
];

/// Returns whether each call names or removes the right job.
fn are_right(letters: &mut Letters<&LocalHeap>, tickets: &mut Vec<Ticket>, rows: &[Row]) -> bool {
    let mut are_right = true;
    for (call, wanted) in rows {
        are_right = are_right && job_of(letters, tickets, *call) == *wanted;
    }
    are_right
}

#[test]
fn moving_and_rescheduling_need_no_memory(rt: HostRuntime) {
    let heap = LocalHeap::new(rt.alloc(), 2048).expect(&rt, "a heap");
    let mut letters: Letters<&LocalHeap> = Agenda::new(&heap);
    let mut tickets = Vec::new(rt.alloc());
    assert!(rt; are_right(&mut letters, &mut tickets, &BEFORE));
    let rest = rest_of(rt.alloc(), &heap).expect(&rt, "memory");
    assert!(rt; are_right(&mut letters, &mut tickets, &WITHOUT));
    drop(rest);
    assert!(rt; are_right(&mut letters, &mut tickets, &AFTER));
}

#[test]
fn a_clone_has_the_same_tickets(rt: HostRuntime) {
    let mut letters = Letters::new(rt.alloc());
    let early = letters.schedule(1, 'a').expect(&rt, "a ticket");
    let late = letters.schedule(2, 'b').expect(&rt, "a ticket");
    let copy = letters.try_clone().expect(&rt, "a clone");
    letters.clear();
    assert!(rt; !letters.contains(early) && copy.contains(early) && copy.contains(late));
    let again = Ticket::new(late.index(), late.generation());
    assert!(rt; again == late && copy.get(again) == Some((2, &'b')));
}
