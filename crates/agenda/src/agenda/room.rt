//! Capacity, clearing and clones.

ghost use Rattle.std.specs.Prelude.{◌≡◌, ◌↔◌, ◌+◌, ◌<◌, [], Err, IfOk, IsOk, OnOk, OnErr};
ghost use Rattle.listing.specs.PlainArena.{capacity_for};
ghost use Rattle.agenda.specs.Agenda.{most_entries, greatest_generation, count, greatest_index, with_left, HasRoomFor};
ghost use Rattle.agenda.specs.Tickets.{IsStep};

use super::Agenda;
use std::alloc::{AllocError, Allocator};
use triple_ord::ReallocationError;

impl<J, A: Allocator> Agenda<J, A> {
    /// Makes room for `additional` more jobs: scheduling them will not fail. O(capacity) if the agenda grows, else O(1).
    ///
    /// If it grows, it grows at least as much as for one more job, so that repeated reservations cost amortized O(1) for each job.
    ///
    /// ```
    /// agenda.reserve(2)?;
    /// let room = agenda.capacity();
    /// agenda.schedule(30, "report").map_err(|refused| refused.1)?;
    /// agenda.schedule(10, "tea").map_err(|refused| refused.1)?;
    /// assert_eq!(rt; agenda.capacity(), room);
    /// ```
    ///
    /// # Errors
    ///
    /// The agenda is unchanged.
    /// - `BeyondMaxCapacity`: there would be more than 4,294,967,294 jobs.
    /// - `AllocError`: growing failed.
    pub fn reserve(&mut self, additional: usize) -> Result<(), ReallocationError>
        ensures jobs { self.new.entries ≡ self.old.entries }
        ensures capacity { OnOk result
            (self.new.capacity ≡ capacity_for most_entries self.old.capacity (count self.old + additional)) }
        ensures room { OnOk result (HasRoomFor additional self.new) }
        ensures full { (result ≡ Err ReallocationError.BeyondMaxCapacity)
            ↔ (most_entries < count self.old + additional) }
        ensures memory { result ≡ Err ReallocationError.AllocError
            → self.old.capacity < count self.old + additional }
        ensures generation { self.new.generation ≡ self.old.generation }
        ensures err { OnErr result (self.new ≡ self.old) }
        ensures step { IsStep self.old self.new }
    {
        self.jobs.reserve(additional)
    }
}

impl<J: Drop, A: Allocator> Agenda<J, A> {
    /// Removes and drops all jobs, in O(capacity). Their tickets end. The capacity stays.
    ///
    /// ```
    /// let tea = agenda.schedule(10, "tea").map_err(|refused| refused.1)?;
    /// agenda.clear();
    /// assert!(rt; agenda.is_empty());
    /// assert_eq!(rt; agenda.get(tea), None);
    /// ```
    pub fn clear(&mut self)
        ensures after { self.new ≡ with_left greatest_generation self.old [] }
        ensures count { count self.new ≡ 0 }
        ensures step { IsStep self.old self.new }
    {
        let _ = self.jobs.clear();
    }
}

impl<J: Clone + Drop, A: Allocator + Copy> Agenda<J, A> {
    /// Returns a clone on the same allocator: the same jobs under the same tickets. A clone of a job has to equal it. O(capacity).
    ///
    /// The clone's capacity is the greatest index of a ticket, which is at least the number of jobs and at most this agenda's capacity.
    ///
    /// ```
    /// let tea = agenda.schedule(10, "tea").map_err(|refused| refused.1)?;
    /// let copy = agenda.try_clone()?;
    /// agenda.clear();
    /// assert_eq!(rt; copy.get(tea), Some((10, &"tea")));
    /// ```
    ///
    /// # Errors
    ///
    /// `AllocError`: memory for the jobs, or for the clone of a job, is refused.
    pub fn try_clone(&self) -> Result<Self, AllocError>
        requires clones { (x y : J) → J.is_clone x y → y ≡ x }
        ensures jobs { IfOk result (λ a. a.entries ≡ self.now.entries) }
        ensures generation { IfOk result (λ a. a.generation ≡ self.now.generation) }
        ensures capacity { IfOk result (λ a. a.capacity ≡ greatest_index self.now.entries) }
        ensures none { count self.now ≡ 0 → IsOk result }
    {
        Ok(Agenda {
            jobs: self.jobs.clone()?,
        })
    }
}
