//! `Iter`: the jobs of a store, in the order in which they leave.

ghost use Rattle.std.specs.Iterator.{YieldsFirstBy, item_count};
ghost use Rattle.agenda.specs.Walk.{IsExactHint};
ghost use Rattle.agenda_store.specs.Store.{lent};

use crate::job::JobRef;
use crate::planner::{Task, lend};
use agenda::Iter as Entries;
use std::marker::Model;

/// An iterator over the jobs of a store, in the order in which they leave. Each step is O(1).
#[derive(Drop)]
pub struct Iter<'a> {
    pub(crate) entries: Entries<'a, Task>,
}

impl<'a> Model for Iter<'a> {
    ghost use Rattle.std.specs.Prelude.{List, map};
    ghost use Rattle.job_table.specs.Plan.{Job};
    ghost use Rattle.agenda_store.specs.Planner.{job_in};

    ghost Value = { List Job };

    ghost view = { λ i. map job_in i.entries };
}

impl<'a> Iterator for Iter<'a> {
    type Item = JobRef<'a>;

    ghost next_gives = { YieldsFirstBy lent (λ left. left) };

    ghost remaining = { item_count (λ left. left) };

    fn next(&mut self) -> Option<JobRef<'a>> {
        match self.entries.next() {
            Some((_, deadline, task)) => Some(lend(deadline, task)),
            None => None,
        }
    }

    fn size_hint(&self) -> (usize, Option<usize>)
        ensures { IsExactHint self.now result }
    {
        self.entries.size_hint()
    }
}
