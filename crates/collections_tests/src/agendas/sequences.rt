//! Every sequence of five calls on an agenda of three jobs, compared with a plain list.
use super::Letters;
use agenda::Ticket;
use std::alloc::Global;

/// A job in the plain list.
#[derive(Clone, Copy, PartialEq, Eq)]
pub(super) struct Job {
    pub(super) ticket: Ticket,
    pub(super) deadline: u64,
    pub(super) letter: char,
}

/// An agenda beside the plain list of its jobs, in the order in which they leave, and all tickets in the order of their issue.
#[derive(Drop)]
pub(super) struct Beside {
    pub(super) letters: Letters,
    pub(super) jobs: Vec<Job>,
    pub(super) tickets: Vec<Ticket>,
}

/// Puts a job into the list, behind all whose deadline is at most its own.
fn put(jobs: &mut Vec<Job>, job: Job) {
    let mut place = 0usize;
    for other in jobs.iter() {
        if other.deadline <= job.deadline {
            place = place.saturating_add(1);
        }
    }
    if place <= jobs.len() {
        let _ = jobs.insert(place, job);
    }
}

/// Removes the job of a ticket from the list.
fn take(jobs: &mut Vec<Job>, ticket: Ticket) -> Option<Job> {
    for place in 0..jobs.len() {
        if jobs[place].ticket == ticket {
            return Some(jobs.remove(place));
        }
    }
    None
}

/// Returns a job without its ticket.
fn without_ticket(job: Option<Job>) -> Option<(u64, char)> {
    let job = job?;
    Some((job.deadline, job.letter))
}

/// A letter for each ticket.
const LETTERS: [char; 8] = ['a', 'b', 'c', 'd', 'e', 'f', 'g', 'h'];

/// Schedules the next letter.
pub(super) fn schedule(beside: &mut Beside, deadline: u64) -> bool {
    let letter = LETTERS[beside.tickets.len() % 8];
    let Ok(ticket) = beside.letters.schedule(deadline, letter) else {
        return false;
    };
    let job = Job {
        ticket,
        deadline,
        letter,
    };
    put(&mut beside.jobs, job);
    beside.tickets.push(ticket).is_ok()
}

/// Returns the ticket at a place in the order of issue.
fn ticket_at(beside: &Beside, place: usize) -> Option<Ticket> {
    beside.tickets.get(place).copied()
}

/// Gives the job of a ticket another deadline. It keeps its ticket.
fn reschedule(beside: &mut Beside, place: usize, deadline: u64) -> bool {
    let Some(ticket) = ticket_at(beside, place) else {
        return false;
    };
    let is_named = beside.letters.reschedule(ticket, deadline);
    match take(&mut beside.jobs, ticket) {
        Some(job) => {
            put(&mut beside.jobs, Job { deadline, ..job });
            is_named
        }
        None => !is_named,
    }
}

/// Gives the job of a ticket another deadline and another ticket.
fn move_to(beside: &mut Beside, place: usize, deadline: u64) -> bool {
    let Some(ticket) = ticket_at(beside, place) else {
        return false;
    };
    let moved = beside.letters.move_to(ticket, deadline);
    match (take(&mut beside.jobs, ticket), moved) {
        (Some(job), Some(ticket)) => {
            let letter = job.letter;
            let job = Job {
                ticket,
                deadline,
                letter,
            };
            put(&mut beside.jobs, job);
            beside.tickets.push(ticket).is_ok()
        }
        (None, None) => true,
        _ => false,
    }
}

/// Cancels the job of a ticket.
fn cancel(beside: &mut Beside, place: usize) -> bool {
    let Some(ticket) = ticket_at(beside, place) else {
        return false;
    };
    let wanted = take(&mut beside.jobs, ticket);
    beside.letters.cancel(ticket) == without_ticket(wanted)
}

/// Removes the first job, if it is due.
fn pop_due(beside: &mut Beside, now: u64) -> bool {
    let mut wanted = None;
    if let Some(job) = beside.jobs.first().copied() {
        if job.deadline <= now {
            wanted = take(&mut beside.jobs, job.ticket);
        }
    }
    beside.letters.pop_due(now) == without_ticket(wanted)
}

/// The calls of the sequences. Those by ticket name the first or the second ticket issued.
#[derive(Clone, Copy)]
enum Call {
    Schedule(u64),
    Reschedule(usize, u64),
    Move(usize, u64),
    Cancel(usize),
    PopDue(u64),
}

const CALLS: [Call; 9] = [
    Call::Schedule(1),
    Call::Schedule(2),
    Call::Reschedule(0, 1),
    Call::Reschedule(0, 2),
    Call::Reschedule(1, 1),
    Call::Reschedule(1, 3),
    Call::Move(0, 2),
    Call::Cancel(0),
    Call::PopDue(1),
];

/// Makes a call. Returns whether agenda and list agree on its result.
fn is_made(beside: &mut Beside, call: Call) -> bool {
    match call {
        Call::Schedule(deadline) => schedule(beside, deadline),
        Call::Reschedule(place, deadline) => reschedule(beside, place, deadline),
        Call::Move(place, deadline) => move_to(beside, place, deadline),
        Call::Cancel(place) => cancel(beside, place),
        Call::PopDue(now) => pop_due(beside, now),
    }
}

/// Returns whether the agenda shows exactly the jobs of the list, in its order, and by their tickets.
pub(super) fn show_alike(beside: &Beside) -> bool {
    let mut place = 0usize;
    for (ticket, deadline, letter) in beside.letters.iter() {
        let Some(job) = beside.jobs.get(place) else {
            return false;
        };
        let is_named = beside.letters.get(ticket) == Some((deadline, letter));
        if *job
            != (Job {
                ticket,
                deadline,
                letter: *letter,
            })
            || !is_named
        {
            return false;
        }
        place = place.saturating_add(1);
    }
    place == beside.jobs.len()
}

/// Returns whether agenda and list have the same jobs, and the same first one.
fn are_alike(beside: &Beside) -> bool {
    let first = match beside.letters.peek() {
        Some((ticket, _, _)) => Some(ticket),
        None => None,
    };
    let wanted = match beside.jobs.first() {
        Some(job) => Some(job.ticket),
        None => None,
    };
    first == wanted && beside.letters.len() == beside.jobs.len() && show_alike(beside)
}

/// Returns whether all jobs leave the agenda in the order of the list.
fn leave_alike(beside: &mut Beside) -> bool {
    for _ in 0..beside.jobs.len() {
        if !pop_due(beside, u64::MAX) {
            return false;
        }
    }
    beside.letters.is_empty()
}

/// Returns whether a copy of the agenda gives its jobs by value as the list has them, and says how many are left.
fn are_given_alike(beside: &Beside) -> bool {
    let Ok(letters) = beside.letters.try_clone() else {
        return false;
    };
    let mut given = letters.into_iter();
    for job in beside.jobs.iter() {
        let left = given.len();
        if given.next() != Some((job.ticket, job.deadline, job.letter))
            || given.len().checked_add(1) != Some(left)
        {
            return false;
        }
    }
    given.next().is_none()
}

/// Makes the calls of the sequence with this number. Its digits in base 9 are those of the calls.
fn all_are_made(beside: &mut Beside, number: usize) -> bool {
    let mut digits = number;
    for _ in 0..5u32 {
        if !is_made(beside, CALLS[digits % 9]) || !are_alike(beside) {
            return false;
        }
        digits /= 9;
    }
    are_given_alike(beside) && leave_alike(beside)
}

/// Returns whether an agenda of three jobs, two of them with equal deadlines, behaves like a list.
fn is_plain(alloc: Global, number: usize) -> bool {
    let mut beside = Beside {
        letters: Letters::new(alloc),
        jobs: Vec::new(alloc),
        tickets: Vec::new(alloc),
    };
    for deadline in &[1u64, 2, 2] {
        if !schedule(&mut beside, *deadline) {
            return false;
        }
    }
    all_are_made(&mut beside, number)
}

#[test]
fn every_sequence_of_five_calls_agrees_with_a_plain_list(rt: HostRuntime) {
    for number in 0..59_049usize {
        assert!(rt; is_plain(rt.alloc(), number));
    }
}
