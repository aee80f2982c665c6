//! Scheduling many jobs at once.

ghost use Rattle.std.specs.Prelude.{◌≡◌, ◌+◌, ◌<◌, ◌≤◌, ◌⊎◌, map, length, take, drop, vec_len, Some, Err, IsOk, IfErr, OnOk, OnErr};
ghost use Rattle.std.specs.List.{All};
ghost use Rattle.std.specs.Vec.{vec_capacity};
ghost use Rattle.listing.specs.PlainArena.{capacity_for};
ghost use Rattle.agenda.specs.Agenda.{most_entries, count, get, IsFree, Keeps};
ghost use Rattle.agenda.specs.Bulk.{entries_of, with_all};
ghost use Rattle.agenda.specs.Scheduling.{SchedulesEach};
ghost use Rattle.agenda.specs.Tickets.{IsStep};

use super::Agenda;
use crate::ticket::Ticket;
use std::alloc::Allocator;
use triple_ord::ReallocationError;

impl<J: Drop, A: Allocator> Agenda<J, A> {
    /// Schedules all jobs of a vector, each at its deadline and one after another, and appends their tickets to another vector, in the same
    /// order.
    ///
    /// Room for all jobs and all tickets is made first, as by [`reserve`](Self::reserve).
    ///
    /// ```
    /// let jobs = Vec::from_array(rt.alloc(), [(30, "report"), (10, "tea")])?;
    /// let mut tickets = Vec::new(rt.alloc());
    /// agenda.schedule_all(jobs, &mut tickets).map_err(|refused| refused.1)?;
    /// assert_eq!(rt; agenda.get(tickets[0]), Some((30, &"report")));
    /// assert_eq!(rt; agenda.next_deadline(), Some(10));
    /// ```
    ///
    /// # Errors
    ///
    /// All jobs come back, the agenda is unchanged, and no ticket is appended.
    /// - `BeyondMaxCapacity`: there would be more than 4,294,967,294 jobs.
    /// - `AllocError`: the agenda or the vector of tickets is refused memory.
    ///
    /// # Complexity
    ///
    /// O(log n) for each job, plus O(n) when the agenda grows.
    pub fn schedule_all<B: Allocator, C: Allocator>(
        &mut self,
        jobs: Vec<(u64, J), B>,
        tickets: &mut Vec<Ticket, C>,
    ) -> Result<(), (Vec<(u64, J), B>, ReallocationError)>
        ensures held { OnOk result
            (take (length tickets.old.items) tickets.new.items ≡ tickets.old.items) }
        ensures named { OnOk result
            (map (get self.new) (drop (length tickets.old.items) tickets.new.items)
            ≡ map Some jobs.items) }
        ensures free { OnOk result
            (All (IsFree self.old) (drop (length tickets.old.items) tickets.new.items)) }
        ensures entries { OnOk result (self.new.entries ≡ with_all
            (entries_of (drop (length tickets.old.items) tickets.new.items) jobs.items)
            self.old.entries) }
        ensures keeps { OnOk result (Keeps self.old self.new) }
        ensures count { OnOk result (count self.new ≡ count self.old + vec_len jobs) }
        ensures capacity { OnOk result (self.new.capacity
            ≡ capacity_for most_entries self.old.capacity (count self.old + vec_len jobs)) }
        ensures generation { self.new.generation ≡ self.old.generation }
        ensures back { IfErr result (λ e. e.0 ≡ jobs) }
        ensures kept { OnErr result (tickets.new.items ≡ tickets.old.items) }
        ensures err { OnErr result (self.new ≡ self.old) }
        ensures full { result ≡ Err (jobs, ReallocationError.BeyondMaxCapacity)
            → most_entries < count self.old + vec_len jobs }
        ensures memory { result ≡ Err (jobs, ReallocationError.AllocError)
            → (self.old.capacity < count self.old + vec_len jobs)
            ⊎ (vec_capacity tickets.old < vec_len tickets.old + vec_len jobs) }
        ensures step { IsStep self.old self.new }
    {
        let Ok(()) = tickets.reserve(jobs.len()) else {
            return Err((jobs, ReallocationError::AllocError));
        };
        if let Err(refusal) = self.reserve(jobs.len()) {
            return Err((jobs, refusal));
        }
        self.schedule_each(jobs, tickets);
        Ok(())
    }

    // Schedules all jobs. There is room for them and for their tickets.
    fn schedule_each<B: Allocator, C: Allocator>(
        &mut self,
        jobs: Vec<(u64, J), B>,
        tickets: &mut Vec<Ticket, C>,
    )
        requires room { count self.old + vec_len jobs ≤ self.old.capacity }
        requires space { vec_len tickets.old + vec_len jobs ≤ vec_capacity tickets.old }
        ensures schedules { SchedulesEach self.old jobs.items tickets.old.items tickets.new.items self.new }
    {
        for (deadline, job) in jobs {
            match self.schedule(deadline, job) {
                Ok(ticket) => {
                    let _ = tickets.push(ticket);
                }
                // there is room for all
                Err(_) => unreachable!(),
            }
        }
    }
}
