//! Jobs by their tickets, and the next one, without taking them off.

ghost use Rattle.std.specs.Prelude.{◌≡◌, IfNone, is_some};
ghost use Rattle.std.specs.Option.{option_map};
ghost use Rattle.listing.specs.Gap.{first_of};
ghost use Rattle.agenda.specs.Agenda.{count, get, shown_job};

use super::Agenda;
use crate::ticket::Ticket;
use std::alloc::Allocator;

impl<J, A: Allocator> Agenda<J, A> {
    /// Returns whether `ticket` names a job, in O(1).
    pub fn contains(&self, ticket: Ticket) -> bool
        ensures { result ≡ is_some (get self.now ticket) }
    {
        self.jobs.contains(ticket.pointer)
    }

    /// Returns the deadline and the job of `ticket`, in O(1). `None` if the ticket names no job.
    ///
    /// ```
    /// let tea = agenda.schedule(10, "tea").map_err(|refused| refused.1)?;
    /// assert_eq!(rt; agenda.get(tea), Some((10, &"tea")));
    /// ```
    pub fn get(&self, ticket: Ticket) -> Option<(u64, &J)>
        ensures { option_map (λ x. (x.0, x.1.now)) result ≡ get self.now ticket }
    {
        let pair = self.jobs.get(ticket.pointer)?;
        let (deadline, job) = pair.k_v();
        Some((*deadline, job))
    }

    /// Returns the ticket, the deadline and the job of the first job, in O(1). `None` if there are no jobs.
    ///
    /// ```
    /// let mut agenda: Agenda<&str> = Agenda::new(rt.alloc());
    /// agenda.schedule(30, "report").map_err(|refused| refused.1)?;
    /// let tea = agenda.schedule(10, "tea").map_err(|refused| refused.1)?;
    /// assert_eq!(rt; agenda.peek(), Some((tea, 10, &"tea")));
    /// ```
    pub fn peek(&self) -> Option<(Ticket, u64, &J)>
        ensures value { option_map shown_job result ≡ first_of self.now.entries }
        ensures none { IfNone result (count self.now ≡ 0) }
    {
        let first = self.jobs.first()?;
        let pair = self.jobs.get(first)?;
        let (deadline, job) = pair.k_v();
        Some((Ticket { pointer: first }, *deadline, job))
    }
}
