//! `IterFrom`: the jobs of an agenda from one on, in the order in which they leave.

ghost use Rattle.std.specs.Prelude.{◌≡◌, None, IsSome, IfSome, IfNone};
ghost use Rattle.std.specs.Iterator.{YieldsFirstBy, item_count};
ghost use Rattle.listing.specs.Chain.{from_index};
ghost use Rattle.agenda.specs.Agenda.{get, shown_job};

use super::{Agenda, Jobs};
use crate::ticket::Ticket;
use std::alloc::{Allocator, Global};
use std::marker::Model;

/// An iterator over the tickets, deadlines and jobs of an agenda from one job on, in the order in which they leave. Each step is O(1). In
/// contracts it is the list of the jobs that are left.
#[derive(Drop)]
pub struct IterFrom<'a, J, A: Allocator = Global> {
    jobs: &'a Jobs<J, A>,
    // The index of the next job.
    at: Option<u32>,
}

impl<'a, J, A: Allocator> Model for IterFrom<'a, J, A> {
    ghost use Rattle.std.specs.Prelude.{List, ℕ};
    ghost use Rattle.listing.specs.Chain.{Entry, IsDistinct};
    ghost use Rattle.listing.specs.Walk.{entries_left};

    ghost Value = { List (Entry (ℕ × J)) };

    ghost view = { λ i. entries_left i.jobs.now.list.entries i.at };

    ghost invariant = { λ i. IsDistinct i.jobs.now.list.entries };
}

impl<J, A: Allocator> Agenda<J, A> {
    /// Returns an iterator over the jobs from that of `ticket` on, in the order in which they leave; `None` if the ticket names no job. O(1),
    /// as each step is.
    ///
    /// ```
    /// let mut agenda: Agenda<&str> = Agenda::new(rt.alloc());
    /// let tea = agenda.schedule(10, "tea").map_err(|refused| refused.1)?;
    /// agenda.schedule(5, "milk").map_err(|refused| refused.1)?;
    /// let report = agenda.schedule(30, "report").map_err(|refused| refused.1)?;
    /// let mut jobs = agenda.iter_from(tea).expect(&rt, "a job");
    /// assert_eq!(rt; jobs.next(), Some((tea, 10, &"tea")));
    /// assert_eq!(rt; jobs.next(), Some((report, 30, &"report")));
    /// assert_eq!(rt; jobs.next(), None);
    /// ```
    pub fn iter_from(&self, ticket: Ticket) -> Option<IterFrom<'_, J, A>>
        ensures none { IfNone result (get self.now ticket ≡ None) }
        ensures jobs { IfSome result (λ jobs. IsSome (get self.now ticket)
            × (jobs ≡ from_index self.now.entries ticket.0)) }
    {
        // For the prover: no ticket names two jobs.
        let _ = self.len();
        if !self.contains(ticket) {
            return None;
        }
        Some(IterFrom {
            jobs: &self.jobs,
            at: Some(ticket.index()),
        })
    }
}

impl<'a, J, A: Allocator> Iterator for IterFrom<'a, J, A> {
    type Item = (Ticket, u64, &'a J);

    ghost next_gives = { YieldsFirstBy shown_job (λ left. left) };

    ghost remaining = { item_count (λ left. left) };

    fn next(&mut self) -> Option<(Ticket, u64, &'a J)> {
        let i = self.at?;
        let entry = self.jobs.get_inx_link_no_gen(i)?;
        let link = entry.1;
        self.at = link.next();
        let (deadline, job) = link.t.k_v();
        Some((Ticket::new(i, entry.0), *deadline, job))
    }
}
