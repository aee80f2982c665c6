//! `IntoIter`: the jobs of an agenda that is taken apart.

ghost use Rattle.std.specs.Iterator.{YieldsFirstBy, item_count};
ghost use Rattle.listing.specs.Walk.{IsExactHint};
ghost use Rattle.agenda.specs.Agenda.{given_job};
ghost use Rattle.agenda.specs.Whole.{IteratesOver};

use super::Agenda;
use crate::ticket::Ticket;
use std::alloc::{Allocator, Global};
use std::marker::Model;
use triple_ord::{CapacityDrain, OrdPair, P0};

/// An iterator over the jobs of an agenda that it owns, in the order in which they leave, each with the ticket that it had and its deadline.
/// Each step is O(log n), and takes no memory. In contracts it is the list of the jobs that are left.
///
/// ```
/// let mut agenda: Agenda<&str> = Agenda::new(rt.alloc());
/// let report = agenda.schedule(30, "report").map_err(|refused| refused.1)?;
/// let tea = agenda.schedule(10, "tea").map_err(|refused| refused.1)?;
/// let mut jobs = agenda.into_iter();
/// assert_eq!(rt; jobs.len(), 2);
/// assert_eq!(rt; jobs.next(), Some((tea, 10, "tea")));
/// assert_eq!(rt; jobs.next(), Some((report, 30, "report")));
/// assert_eq!(rt; jobs.next(), None);
/// ```
#[derive(Drop)]
pub struct IntoIter<J, A: Allocator = Global> {
    entries: CapacityDrain<P0, OrdPair<u64, J>, A>,
}

impl<J, A: Allocator> Model for IntoIter<J, A> {
    ghost use Rattle.std.specs.Prelude.{List, ℕ};
    ghost use Rattle.listing.specs.Chain.{Entry};

    ghost Value = { List (Entry (ℕ × J)) };

    ghost view = { λ i. i.entries };
}

/// `for (ticket, deadline, job) in agenda` takes all jobs out, in the order in which they leave.
impl<J: Drop, A: Allocator> IntoIterator for Agenda<J, A> {
    type Item = (Ticket, u64, J);

    type IntoIter = IntoIter<J, A>;

    ghost into_iter_gives = { λ a jobs. IteratesOver given_job a jobs };

    fn into_iter(self) -> IntoIter<J, A> {
        // For the prover: the list is sound.
        let _ = self.len();
        IntoIter {
            entries: self.jobs.into_iter(),
        }
    }
}

impl<J: Drop, A: Allocator> Iterator for IntoIter<J, A> {
    type Item = (Ticket, u64, J);

    ghost next_gives = { YieldsFirstBy given_job (λ left. left) };

    ghost remaining = { item_count (λ left. left) };

    fn next(&mut self) -> Option<(Ticket, u64, J)> {
        match self.entries.next() {
            Some((pointer, pair)) => {
                let (deadline, job) = pair.into_k_v();
                Some((Ticket { pointer }, deadline, job))
            }
            None => None,
        }
    }

    fn size_hint(&self) -> (usize, Option<usize>)
        ensures { IsExactHint self.now result }
    {
        self.entries.size_hint()
    }
}

impl<J: Drop, A: Allocator> ExactSizeIterator for IntoIter<J, A> {
    fn len(&self) -> usize {
        self.entries.len()
    }
}
