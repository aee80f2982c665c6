//! `Iter`: the jobs of an agenda, in the order in which they leave.

ghost use Rattle.std.specs.Prelude.{◌≡◌};
ghost use Rattle.std.specs.Iterator.{YieldsFirstBy, item_count};
ghost use Rattle.agenda.specs.Agenda.{shown_job, AreSorted};
ghost use Rattle.agenda.specs.Whole.{IteratesOver};
ghost use Rattle.std.specs.Ordering.{nat_cmp};
ghost use Rattle.listing.specs.Walk.{IsExactHint};

use crate::agenda::Agenda;
use crate::ticket::Ticket;
use std::alloc::{Allocator, Global};
use std::marker::Model;
use triple_ord::{Iter as Entries, OrdPair, P0};

/// An iterator over the tickets, deadlines and jobs of an agenda, in the order in which the jobs leave. Each step is O(1).
#[derive(Drop)]
pub struct Iter<'a, J, A: Allocator = Global> {
    pub(crate) entries: Entries<'a, P0, OrdPair<u64, J>, A>,
}

impl<'a, J, A: Allocator> Model for Iter<'a, J, A> {
    ghost use Rattle.std.specs.Prelude.{List, ℕ};
    ghost use Rattle.listing.specs.Chain.{Entry};

    ghost Value = { List (Entry (ℕ × J)) };

    ghost view = { λ i. i.entries };
}

impl<J, A: Allocator> Agenda<J, A> {
    /// Returns an iterator over all jobs, in the order in which they leave. `for (ticket, deadline, job) in &agenda` goes over them too.
    ///
    /// ```
    /// let mut agenda: Agenda<&str> = Agenda::new(rt.alloc());
    /// agenda.schedule(30, "report").map_err(|refused| refused.1)?;
    /// agenda.schedule(10, "tea").map_err(|refused| refused.1)?;
    /// let mut last = 0;
    /// for (_, deadline, _) in &agenda {
    ///     assert!(rt; last < deadline);
    ///     last = deadline;
    /// }
    /// assert_eq!(rt; last, 30);
    /// ```
    pub fn iter(&self) -> Iter<'_, J, A>
        ensures value { result ≡ self.now.entries }
        ensures in_order { AreSorted nat_cmp self.now.entries }
    {
        Iter {
            entries: self.entries(),
        }
    }
}

impl<'a, J, A: Allocator> Iterator for Iter<'a, J, A> {
    type Item = (Ticket, u64, &'a J);

    ghost next_gives = { YieldsFirstBy shown_job (λ left. left) };

    ghost remaining = { item_count (λ left. left) };

    fn next(&mut self) -> Option<(Ticket, u64, &'a J)> {
        match self.entries.next() {
            Some((pointer, pair)) => {
                let (deadline, job) = pair.k_v();
                Some((Ticket { pointer }, *deadline, job))
            }
            None => None,
        }
    }

    fn size_hint(&self) -> (usize, Option<usize>)
        ensures { IsExactHint self.now result }
    {
        self.entries.size_hint()
    }
}

impl<'a, J, A: Allocator> ExactSizeIterator for Iter<'a, J, A> {
    fn len(&self) -> usize {
        self.entries.len()
    }
}

/// `for (ticket, deadline, job) in &agenda` goes over all jobs, in the order in which they leave.
impl<'a, J, A: Allocator> IntoIterator for &'a Agenda<J, A> {
    type Item = (Ticket, u64, &'a J);

    type IntoIter = Iter<'a, J, A>;

    ghost into_iter_gives = { λ a jobs. IteratesOver shown_job a.now jobs };

    fn into_iter(self) -> Iter<'a, J, A> {
        // For the prover: the list is sound.
        let _ = self.len();
        self.iter()
    }
}
