//! `Due`: the jobs that are due, in the order in which they leave.

ghost use Rattle.std.specs.Prelude.{◌≡◌, length};
ghost use Rattle.std.specs.Iterator.{YieldsFirstBy, item_count};
ghost use Rattle.std.specs.Ordering.{nat_cmp};
ghost use Rattle.agenda.specs.Agenda.{entries_until, shown_job};

use crate::agenda::Agenda;
use crate::iter::Iter;
use crate::ticket::Ticket;
use std::alloc::{Allocator, Global};
use std::marker::Model;

/// An iterator over the tickets, deadlines and jobs of an agenda whose deadlines are at most a given time, in the order in which they leave.
/// Each step is O(1). In contracts it is the list of the jobs that are left.
#[derive(Drop)]
pub struct Due<'a, J, A: Allocator = Global> {
    jobs: Iter<'a, J, A>,
    time: u64,
}

impl<'a, J, A: Allocator> Model for Due<'a, J, A> {
    ghost use Rattle.std.specs.Prelude.{List, ℕ};
    ghost use Rattle.listing.specs.Chain.{Entry};

    ghost Value = { List (Entry (ℕ × J)) };

    ghost use Rattle.std.specs.Ordering.{nat_cmp};
    ghost use Rattle.agenda.specs.Agenda.{entries_until, AreSorted};

    ghost view = { λ d. entries_until nat_cmp d.time d.jobs };

    ghost invariant = { λ d. AreSorted nat_cmp d.jobs };
}

impl<J, A: Allocator> Agenda<J, A> {
    /// Returns an iterator over the jobs whose deadline is at most `now`, in the order in which they leave. They stay on the agenda.
    ///
    /// O(1), as each step is. No memory is taken.
    ///
    /// ```
    /// agenda.schedule(30, "report").map_err(|refused| refused.1)?;
    /// let tea = agenda.schedule(10, "tea").map_err(|refused| refused.1)?;
    /// let mut due = agenda.due(20);
    /// assert_eq!(rt; due.next(), Some((tea, 10, &"tea")));
    /// assert_eq!(rt; due.next(), None);
    /// ```
    pub fn due(&self, now: u64) -> Due<'_, J, A>
        ensures { result ≡ entries_until nat_cmp now self.now.entries }
    {
        Due {
            jobs: self.iter(),
            time: now,
        }
    }

    /// Returns how many jobs have a deadline at most `now`. O(their number).
    ///
    /// ```
    /// agenda.schedule(30, "report").map_err(|refused| refused.1)?;
    /// agenda.schedule(10, "tea").map_err(|refused| refused.1)?;
    /// assert_eq!(rt; agenda.count_due(20), 1);
    /// assert_eq!(rt; agenda.count_due(30), 2);
    /// ```
    pub fn count_due(&self, now: u64) -> usize
        ensures { result ≡ length (entries_until nat_cmp now self.now.entries) }
    {
        // For the prover: there are fewer than 2 ^ 64 jobs.
        let _ = self.len();
        self.due(now).count()
    }
}

impl<'a, J, A: Allocator> Iterator for Due<'a, J, A> {
    type Item = (Ticket, u64, &'a J);

    ghost next_gives = { YieldsFirstBy shown_job (λ left. left) };

    ghost remaining = { item_count (λ left. left) };

    fn next(&mut self) -> Option<(Ticket, u64, &'a J)> {
        match self.jobs.next() {
            Some((ticket, deadline, job)) => {
                if deadline > self.time {
                    return None;
                }
                Some((ticket, deadline, job))
            }
            None => None,
        }
    }
}
