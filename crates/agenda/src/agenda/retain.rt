//! Keeping the jobs that pass a test.

ghost use Rattle.std.specs.Prelude.{◌≡◌, ◌≤◌, IsSome};
ghost use Rattle.std.specs.List.Retain.{IsFiltered};
ghost use Rattle.std.specs.Ordering.{nat_cmp};
ghost use Rattle.listing.specs.{Chain.first_pointer, Listing.behind_first};
ghost use Rattle.agenda.specs.Agenda.{most_entries, greatest_generation, count, from_index, get, with_rest, IsSound};
ghost use Rattle.agenda.specs.Answer.{AnswersForJob};
ghost use Rattle.agenda.specs.Asking.{AsksFor, IsCutAt};
ghost use Rattle.agenda.specs.Tickets.{IsStep};

use super::Agenda;
use crate::ticket::Ticket;
use std::alloc::Allocator;

impl<J: Drop, A: Allocator> Agenda<J, A> {
    /// Asks `f` once for each job, in the order in which they leave, and removes the jobs for which it answers `false`. `f` is given the ticket,
    /// the deadline and the job. No memory is taken.
    ///
    /// O(n) calls, and O(log n) for each job that is removed.
    ///
    /// ```
    /// let tea = agenda.schedule(10, "tea").map_err(|refused| refused.1)?;
    /// agenda.schedule(20, "tea").map_err(|refused| refused.1)?;
    /// let report = agenda.schedule(30, "report").map_err(|refused| refused.1)?;
    /// agenda.retain(|ticket, _, job| ticket == tea || *job != "tea");
    /// assert_eq!(rt; agenda.len(), 2);
    /// assert!(rt; agenda.contains(tea) && agenda.contains(report));
    /// ```
    pub fn retain<F: FnMut(Ticket, u64, &J) -> bool>(&mut self, mut f: F)
        requires { F.IsAlwaysCallable f }
        ensures filtered { IsFiltered (AnswersForJob F.FnMut) f self.old.entries self.new.entries }
        ensures after { self.new ≡ with_rest greatest_generation self.old self.new.entries }
        ensures count { count self.new ≤ count self.old }
        ensures sound { IsSound nat_cmp most_entries self.new }
        ensures step { IsStep self.old self.new }
    {
        let mut next = self.first();
        while let Some(ticket) = next {
            next = self.ask(ticket, &mut f);
        }
    }

    // The ticket of the first job.
    fn first(&self) -> Option<Ticket>
        ensures value { result ≡ first_pointer self.now.entries }
        ensures sound { IsSound nat_cmp most_entries self.now }
    {
        // For the prover: the list is sound.
        let _ = self.len();
        let pointer = self.jobs.first()?;
        Some(Ticket { pointer })
    }

    // Asks for the job of `ticket`, removes it if the answer is `false`, and returns the ticket of the job behind it.
    fn ask<F: FnMut(Ticket, u64, &J) -> bool>(
        &mut self,
        ticket: Ticket,
        f: &mut F,
    ) -> Option<Ticket>
        requires sound { IsSound nat_cmp most_entries self.old }
        requires named { IsCutAt self.old.entries ticket }
        requires callable { F.IsAlwaysCallable f.old }
        ensures asks { (at : IsCutAt self.old.entries ticket)
            → AsksFor (AnswersForJob F.FnMut) greatest_generation self.old ticket at f.old
            f.new self.new result }
        ensures still_callable { F.IsAlwaysCallable f.new }
        ensures still_sound { IsSound nat_cmp most_entries self.new }
    {
        let next = self.behind(ticket);
        match self.get(ticket) {
            Some((deadline, job)) => {
                if f(ticket, deadline, job) {
                    return next;
                }
            }
            None => unreachable!(),
        }
        let _ = self.cancel(ticket);
        next
    }

    // The ticket of the job behind that of `ticket`.
    fn behind(&self, ticket: Ticket) -> Option<Ticket>
        requires { IsSome (get self.now ticket) }
        ensures { result
            ≡ first_pointer (behind_first (from_index self.now.entries ticket.0)) }
    {
        let mut jobs = self.iter_from(ticket)?;
        let _ = jobs.next();
        match jobs.next() {
            Some((behind, _, _)) => Some(behind),
            None => None,
        }
    }
}
