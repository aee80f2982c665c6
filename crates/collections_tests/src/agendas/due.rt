//! Jobs that are due, jobs from one on, and jobs that pass a test, beside a plain list: all deadlines of four jobs.
use super::Letters;
use super::sequences::{Beside, Job, schedule, show_alike};
use agenda::Ticket;
use std::alloc::Global;

/// How many choices of deadlines there are: each of four jobs has 1, 2 or 3.
const CHOICES: usize = 81;

/// Returns an agenda of four letters beside the list of them. The digits of the number in base 3 make their deadlines.
fn beside_of(alloc: Global, number: usize) -> Option<Beside> {
    let mut beside = Beside {
        letters: Letters::new(alloc),
        jobs: Vec::new(alloc),
        tickets: Vec::new(alloc),
    };
    let mut digits = number;
    for _ in 0..4u32 {
        if !schedule(&mut beside, (digits % 3) as u64 + 1) {
            return None;
        }
        digits /= 3;
    }
    Some(beside)
}

/// A job of the list, as the agenda gives it.
fn parts(jobs: &[Job], place: usize) -> Option<(Ticket, u64, char)> {
    let job = jobs.get(place)?;
    Some((job.ticket, job.deadline, job.letter))
}

/// How many jobs of the list are due.
fn due_count(jobs: &[Job], now: u64) -> usize {
    let mut count = 0usize;
    for job in jobs {
        if job.deadline <= now {
            count = count.saturating_add(1);
        }
    }
    count
}

/// Returns whether the agenda shows and counts exactly the jobs of the list that are due.
fn are_due(beside: &Beside, now: u64) -> bool {
    let mut place = 0usize;
    for (ticket, deadline, letter) in beside.letters.due(now) {
        if parts(&beside.jobs, place) != Some((ticket, deadline, *letter)) {
            return false;
        }
        place = place.saturating_add(1);
    }
    let wanted = due_count(&beside.jobs, now);
    (place, beside.letters.count_due(now)) == (wanted, wanted)
}

/// Returns whether the agenda shows exactly the jobs of the list from one place on.
fn go_on_from(beside: &Beside, first: usize) -> Option<bool> {
    let (ticket, _, _) = parts(&beside.jobs, first)?;
    let mut place = first;
    for (ticket, deadline, letter) in beside.letters.iter_from(ticket)? {
        if parts(&beside.jobs, place) != Some((ticket, deadline, *letter)) {
            return Some(false);
        }
        place = place.saturating_add(1);
    }
    Some(place == beside.jobs.len())
}

/// Returns whether the jobs that are due leave one after another, with their tickets, and the others stay.
fn leave_singly(beside: &mut Beside, now: u64) -> bool {
    for _ in 0..due_count(&beside.jobs, now) {
        let wanted = parts(&beside.jobs, 0);
        if beside.letters.pop_due_entry(now) != wanted || beside.jobs.is_empty() {
            return false;
        }
        beside.jobs.remove(0);
    }
    beside.letters.pop_due_entry(now) == None && show_alike(beside)
}

/// Returns whether the jobs that are due go behind what a vector has, with their tickets, and the others stay.
fn leave_at_once(alloc: Global, beside: &mut Beside, now: u64) -> Option<bool> {
    let held = (Ticket::new(9, 9), 9, 'z');
    let mut popped = Vec::new(alloc);
    popped.push(held).ok()?;
    beside.letters.pop_all_due(now, &mut popped).ok()?;
    let (first, rest) = popped.as_slice().split_first()?;
    for entry in rest {
        if parts(&beside.jobs, 0) != Some(*entry) || beside.jobs.is_empty() {
            return Some(false);
        }
        beside.jobs.remove(0);
    }
    Some(*first == held && due_count(&beside.jobs, now) == 0 && show_alike(beside))
}

#[test]
fn due_jobs_are_shown_and_leave_as_in_a_plain_list(rt: HostRuntime) {
    for number in 0..CHOICES {
        for now in 0..5u64 {
            let mut beside = beside_of(rt.alloc(), number).expect(&rt, "memory");
            assert!(rt; are_due(&beside, now));
            assert!(rt; leave_singly(&mut beside, now));
            let mut beside = beside_of(rt.alloc(), number).expect(&rt, "memory");
            assert_eq!(rt; leave_at_once(rt.alloc(), &mut beside, now), Some(true));
        }
    }
}

#[test]
fn jobs_from_each_on_are_those_of_a_plain_list(rt: HostRuntime) {
    for number in 0..CHOICES {
        let mut beside = beside_of(rt.alloc(), number).expect(&rt, "memory");
        for first in 0..4usize {
            assert_eq!(rt; go_on_from(&beside, first), Some(true));
        }
        let (ended, _, _) = parts(&beside.jobs, 0).expect(&rt, "a job");
        assert!(rt; leave_singly(&mut beside, 1) || beside.letters.contains(ended));
        assert!(rt; beside.letters.contains(ended) || beside.letters.iter_from(ended).is_none());
    }
}

/// Whether the bit at a place is set.
fn is_chosen(bits: usize, place: usize) -> bool {
    let mut rest = bits;
    for _ in 0..place {
        rest /= 2;
    }
    rest % 2 == 1
}

/// Returns whether the test is asked once for each job, in order, and those are kept whose bits are set.
fn is_retained(alloc: Global, beside: &mut Beside, bits: usize) -> Option<bool> {
    let jobs = &beside.jobs;
    let mut kept = Vec::new(alloc);
    for place in 0..jobs.len() {
        if is_chosen(bits, place) {
            kept.push(jobs[place]).ok()?;
        }
    }
    let mut asked = 0usize;
    let mut right = 0usize;
    beside.letters.retain(|ticket, deadline, letter| {
        let place = asked;
        asked = asked.wrapping_add(1);
        if parts(jobs, place) == Some((ticket, deadline, *letter)) {
            right = right.wrapping_add(1);
        }
        is_chosen(bits, place)
    });
    let is_asked = (asked, right) == (jobs.len(), jobs.len());
    beside.jobs = kept;
    Some(is_asked && show_alike(beside))
}

#[test]
fn retain_asks_for_each_job_once_and_keeps_the_chosen_ones(rt: HostRuntime) {
    for number in 0..CHOICES {
        for bits in 0..16usize {
            let mut beside = beside_of(rt.alloc(), number).expect(&rt, "memory");
            assert_eq!(rt; is_retained(rt.alloc(), &mut beside, bits), Some(true));
        }
    }
}
