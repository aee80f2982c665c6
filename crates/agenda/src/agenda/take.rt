//! Removals of jobs that are due, each with the ticket that it had.

ghost use Rattle.std.specs.Prelude.{◌≡◌, ◌+◌, ◌≤◌, ◌<◌, map, length, take, drop, vec_len, None, Some, IsOk, OnOk, OnErr, IfSome, IfNone, OnSome};
ghost use Rattle.std.specs.List.{All};
ghost use Rattle.std.specs.Option.{option_map};
ghost use Rattle.std.specs.Ordering.{is_gt, nat_cmp};
ghost use Rattle.std.specs.Vec.{vec_capacity};
ghost use Rattle.listing.specs.Gap.{first_of};
ghost use Rattle.agenda.specs.Agenda.{most_entries, greatest_generation, count, get, key_of, first_due, given_job, entries_until};
ghost use Rattle.agenda.specs.Agenda.{with_passing, without_first, HasRoomFor, IsSound, Updates};
ghost use Rattle.agenda.specs.Tickets.{IsStep};

use super::Agenda;
use crate::ticket::Ticket;
use std::alloc::{AllocError, Allocator};

impl<J, A: Allocator> Agenda<J, A> {
    /// Removes the first job if its deadline is at most `now`, as [`pop_due`](Self::pop_due) does, and returns the ticket that it had, its
    /// deadline and the job, in O(log n).
    ///
    /// If no job is due, returns `None` and nothing changes.
    ///
    /// ```
    /// let tea = agenda.schedule(10, "tea").map_err(|refused| refused.1)?;
    /// assert_eq!(rt; agenda.pop_due_entry(9), None);
    /// assert_eq!(rt; agenda.pop_due_entry(10), Some((tea, 10, "tea")));
    /// assert!(rt; !agenda.contains(tea));
    /// ```
    pub fn pop_due_entry(&mut self, now: u64) -> Option<(Ticket, u64, J)>
        ensures value { option_map (λ x. (x.1, x.2)) result ≡ first_due now self.old.entries }
        ensures first { IfSome result (λ x. first_of self.old.entries ≡ Some (given_job x)) }
        ensures due { IfSome result (λ x. x.1 ≤ now) }
        ensures named { IfSome result (λ x. get self.old x.0 ≡ Some (x.1, x.2)) }
        ensures updates { IfSome result (λ x. Updates self.old self.new x.0 None) }
        ensures gone { OnSome result (self.new ≡ without_first greatest_generation self.old) }
        ensures count { OnSome result (count self.old ≡ count self.new + 1) }
        ensures room { OnSome result (HasRoomFor 1 self.new) }
        ensures none { IfNone result (self.new ≡ self.old) }
        ensures sound { IsSound nat_cmp most_entries self.old }
        ensures step { IsStep self.old self.new }
    {
        let first = self.jobs.first()?;
        let (deadline, job) = self.pop_due(now)?;
        Some((Ticket { pointer: first }, deadline, job))
    }
}

impl<J: Drop, A: Allocator> Agenda<J, A> {
    /// Moves all jobs whose deadline is at most `now` to the end of a vector, in the order in which they leave, each with the ticket that it
    /// had. O(log n) for each.
    ///
    /// ```
    /// agenda.schedule(30, "report").map_err(|refused| refused.1)?;
    /// let tea = agenda.schedule(10, "tea").map_err(|refused| refused.1)?;
    /// let mut popped = Vec::new(rt.alloc());
    /// agenda.pop_all_due(20, &mut popped)?;
    /// assert!(rt; popped.iter().eq(&[(tea, 10, "tea")]));
    /// assert_eq!(rt; agenda.next_deadline(), Some(30));
    /// ```
    ///
    /// # Errors
    ///
    /// If the vector is refused memory, nothing changes.
    pub fn pop_all_due<B: Allocator>(
        &mut self,
        now: u64,
        popped: &mut Vec<(Ticket, u64, J), B>,
    ) -> Result<(), AllocError>
        ensures held { OnOk result
            (take (length popped.old.items) popped.new.items ≡ popped.old.items) }
        ensures popped { OnOk result
            (map given_job (drop (length popped.old.items) popped.new.items)
            ≡ entries_until nat_cmp now self.old.entries) }
        ensures after { OnOk result (self.new
            ≡ with_passing greatest_generation self.old (λ e. is_gt (nat_cmp (key_of e) now))) }
        ensures left { OnOk result (All (λ e. now < key_of e) self.new.entries) }
        ensures fits { vec_len popped.old + length (entries_until nat_cmp now self.old.entries)
            ≤ vec_capacity popped.old → IsOk result }
        ensures kept { OnErr result (popped.new.items ≡ popped.old.items) }
        ensures err { OnErr result (self.new ≡ self.old) }
        ensures sound { IsSound nat_cmp most_entries self.old }
        ensures step { IsStep self.old self.new }
    {
        // For the prover: the list is sound.
        let _ = self.len();
        let due = self.count_due(now);
        popped.reserve(due)?;
        while let Some(entry) = self.pop_due_entry(now) {
            let _ = popped.push(entry);
        }
        Ok(())
    }
}
