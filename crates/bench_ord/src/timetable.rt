//! Jobs by deadline, as they are measured: an agenda, std's `BinaryHeap` and std's `BTreeMap`.
use agenda::{Agenda, Ticket};
use std::alloc::{AllocError, Global};
use std::cmp::Reverse;
use std::collections::{BTreeMap, BinaryHeap, HashMap};

/// Jobs that leave by deadline, and where deadlines are equal in the order of scheduling. The job of a deadline is the deadline
/// without its last byte.
pub trait Timetable: Drop {
    /// What names a job that is to be cancelled.
    type Ticket: Copy;

    /// Schedules a job for each deadline, and answers their tickets, in this order.
    fn scheduled(alloc: Global, deadlines: &[u64]) -> Result<(Self, Vec<Self::Ticket>), AllocError>;

    /// Cancels each job that is named, and adds them up.
    fn cancel_all(&mut self, tickets: &Vec<Self::Ticket>) -> u64;

    /// Takes the first job out until there is none. The answer goes by the jobs and their order.
    fn pop_all(&mut self) -> u64;
}

// The answer for jobs that left in this order, with one more.
fn and_then(order: u64, job: u64) -> u64 {
    order.wrapping_mul(31).wrapping_add(job)
}

impl Timetable for Agenda<u64> {
    type Ticket = Ticket;

    fn scheduled(alloc: Global, deadlines: &[u64]) -> Result<(Self, Vec<Ticket>), AllocError> {
        let mut agenda = Agenda::new(alloc);
        let mut tickets = Vec::with_capacity(alloc, deadlines.len())?;
        for deadline in deadlines {
            let Ok(ticket) = agenda.schedule(*deadline, *deadline >> 8) else {
                return Err(AllocError);
            };
            tickets.push(ticket)?;
        }
        Ok((agenda, tickets))
    }

    fn cancel_all(&mut self, tickets: &Vec<Ticket>) -> u64 {
        let mut sum = 0u64;
        for ticket in tickets {
            if let Some((_, job)) = self.cancel(*ticket) {
                sum = sum.wrapping_add(job);
            }
        }
        sum
    }

    fn pop_all(&mut self) -> u64 {
        let mut order = 0u64;
        for _ in 0..self.len() {
            if let Some((_, job)) = self.pop_due(u64::MAX) {
                order = and_then(order, job);
            }
        }
        order
    }
}

/// Jobs by deadline and number, which is how many were scheduled before.
pub type ByDeadline = BTreeMap<(u64, u64), u64>;

impl Timetable for ByDeadline {
    type Ticket = (u64, u64);

    fn scheduled(alloc: Global, deadlines: &[u64]) -> Result<(Self, Vec<(u64, u64)>), AllocError> {
        let mut jobs = BTreeMap::new(alloc);
        let mut tickets = Vec::with_capacity(alloc, deadlines.len())?;
        for deadline in deadlines {
            let ticket = (*deadline, tickets.len() as u64);
            let _ = jobs.insert(ticket, *deadline >> 8)?;
            tickets.push(ticket)?;
        }
        Ok((jobs, tickets))
    }

    fn cancel_all(&mut self, tickets: &Vec<(u64, u64)>) -> u64 {
        let mut sum = 0u64;
        for ticket in tickets {
            if let Some(job) = self.remove(ticket) {
                sum = sum.wrapping_add(job);
            }
        }
        sum
    }

    fn pop_all(&mut self) -> u64 {
        let mut order = 0u64;
        for _ in 0..self.len() {
            if let Some((_, job)) = self.pop_first() {
                order = and_then(order, job);
            }
        }
        order
    }
}

/// A heap of deadlines, each with the number of its job, and the jobs by number.
///
/// A heap finds none but its first element. So a job that is cancelled is taken out of the map alone, and its deadline stays in the
/// heap until it comes first, and is passed over then.
#[derive(Drop)]
pub struct LazyHeap {
    deadlines: BinaryHeap<Reverse<(u64, u64)>>,
    jobs: HashMap<u64, u64>,
}

impl Timetable for LazyHeap {
    type Ticket = u64;

    fn scheduled(alloc: Global, deadlines: &[u64]) -> Result<(Self, Vec<u64>), AllocError> {
        let mut heap = LazyHeap {
            deadlines: BinaryHeap::new(alloc),
            jobs: HashMap::new(alloc),
        };
        let mut tickets = Vec::with_capacity(alloc, deadlines.len())?;
        for deadline in deadlines {
            let number = tickets.len() as u64;
            heap.deadlines.push(Reverse((*deadline, number)))?;
            let _ = heap.jobs.insert(number, *deadline >> 8)?;
            tickets.push(number)?;
        }
        Ok((heap, tickets))
    }

    fn cancel_all(&mut self, tickets: &Vec<u64>) -> u64 {
        let mut sum = 0u64;
        for number in tickets {
            if let Some(job) = self.jobs.remove(number) {
                sum = sum.wrapping_add(job);
            }
        }
        sum
    }

    fn pop_all(&mut self) -> u64 {
        let mut order = 0u64;
        for _ in 0..self.deadlines.len() {
            if let Some(Reverse((_, number))) = self.deadlines.pop()
                && let Some(job) = self.jobs.remove(&number)
            {
                order = and_then(order, job);
            }
        }
        order
    }
}
