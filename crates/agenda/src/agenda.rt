//! `Agenda`: jobs by deadline.

ghost use Rattle.std.specs.Prelude.{◌≡◌, ◌==◌, ◌↔◌, ◌+◌, ℕ, ◌≤◌, ◌<◌, [], Err, Some, None, IsOk};
ghost use Rattle.std.specs.Prelude.{IfOk, OnOk, IfErr, OnErr, IfSome, IfNone, OnSome};
ghost use Rattle.std.specs.{Prelude.is_some, Option.option_map, Ordering.nat_cmp};
ghost use Rattle.agenda.specs.Agenda.{most_entries, greatest_generation, count, get, first_deadline, first_due};
ghost use Rattle.agenda.specs.Agenda.{with_entry, with_key, without_entry, without_first, IsFree, IsSound, AreSorted, HasRoomFor, Leaves, Reschedules, Updates};
ghost use Rattle.agenda.specs.Tickets.{HasNoLaterTicket, IsStep};

mod debug;
mod from;
mod into;
mod look;
mod retain;
mod room;
mod schedule_all;
mod take;

use crate::ticket::Ticket;
pub use from::IterFrom;
pub use into::IntoIter;
use listing::{insert_behind, insert_behind_within};
use std::alloc::{Allocator, Global};
use std::marker::Model;
use triple_ord::{Iter, OrdPair, P0, ReallocationError, SimpleOrdArena};

// Jobs by deadline.
type Jobs<J, A> = SimpleOrdArena<P0, OrdPair<u64, J>, A>;

/// Jobs by deadline. Jobs with equal deadlines leave in the order of scheduling.
///
/// A deadline is a number in whatever unit the program counts its time. [`schedule`](Self::schedule) returns a ticket, which names the job
/// until the job leaves or [`move_to`](Self::move_to) moves it; [`reschedule`](Self::reschedule) keeps it. Each ended ticket raises the
/// generation of tickets, so it names nothing from then on, until the generations overflow after some 2^64 of them
/// ([`ended_ticket_law`](crate::laws::ended_ticket_law)).
///
/// In contracts an agenda is the list of its jobs, each with ticket and deadline, the generation of the next ticket, and the capacity.
/// [`len`](Self::len) promises what holds of every agenda: the list is in order, no ticket names two jobs, and all jobs fit in the
/// capacity.
///
/// Only `schedule` takes memory. In the docs n is the number of jobs. In the examples of the calls `agenda` is an empty `Agenda<&str>`, as
/// `Agenda::new(rt.alloc())` makes it.
#[derive(Drop)]
pub struct Agenda<J, A: Allocator = Global> {
    jobs: Jobs<J, A>,
}

impl<J, A: Allocator> Model for Agenda<J, A> {
    ghost use Rattle.agenda.specs.Agenda.{Agenda};

    ghost Value = { Agenda J };

    ghost use Rattle.agenda.specs.Layout.{agenda_of, IsArenaOfJobs};

    ghost view = { λ a. agenda_of a.jobs };

    ghost invariant = { λ a. IsArenaOfJobs a.jobs };
}

impl<J, A: Allocator> Agenda<J, A> {
    /// Creates an agenda without jobs. It takes no memory until a job is scheduled.
    pub fn new(alloc: A) -> Self
    where
        A: Copy,
        ensures jobs { result.entries ≡ [] }
        ensures generation { result.generation ≡ 2 }
        ensures capacity { result.capacity ≡ 0 }
        ensures tickets { HasNoLaterTicket result }
    {
        Agenda {
            jobs: SimpleOrdArena::new(alloc),
        }
    }

    /// Returns how many jobs the agenda holds without growing.
    pub fn capacity(&self) -> usize
        ensures { result ≡ self.now.capacity }
    {
        self.jobs.capacity()
    }

    /// Returns the number of jobs.
    pub fn len(&self) -> usize
        ensures value { result ≡ count self.now }
        ensures sound { IsSound nat_cmp most_entries self.now }
    {
        self.jobs.len()
    }

    /// Returns whether there are no jobs.
    pub fn is_empty(&self) -> bool
        ensures { result ≡ (count self.now == 0) }
    {
        self.jobs.is_empty()
    }

    // The entries of the ordered arena.
    pub(crate) fn entries(&self) -> Iter<'_, P0, OrdPair<u64, J>, A>
        ensures value { result ≡ self.now.entries }
        ensures in_order { AreSorted nat_cmp self.now.entries }
    {
        self.jobs.iter_ordered()
    }

    /// Returns the deadline of the first job, in O(1). `None` if there are no jobs.
    pub fn next_deadline(&self) -> Option<u64>
        ensures value { result ≡ first_deadline self.now.entries }
        ensures none { IfNone result (count self.now ≡ 0) }
    {
        let first = self.jobs.first()?;
        let pair = self.jobs.get(first)?;
        Some(*pair.k())
    }

    /// Removes the job of `ticket` and returns its deadline and the job, in O(log n).
    ///
    /// If the ticket names no job, returns `None` and nothing changes.
    ///
    /// ```
    /// let report = agenda.schedule(30, "report").map_err(|refused| refused.1)?;
    /// assert_eq!(rt; agenda.cancel(report), Some((30, "report")));
    /// assert_eq!(rt; agenda.cancel(report), None);
    /// ```
    #[tactic(auto, using(listing::proofs::CallerLemmas::words))]
    pub fn cancel(&mut self, ticket: Ticket) -> Option<(u64, J)>
        ensures value { result ≡ get self.old ticket }
        ensures after { self.new ≡ without_entry greatest_generation self.old ticket }
        ensures updates { Updates self.old self.new ticket None }
        ensures count { OnSome result (count self.old ≡ count self.new + 1) }
        ensures none { IfNone result (self.new ≡ self.old) }
        ensures room { OnSome result (HasRoomFor 1 self.new) }
        ensures sound { IsSound nat_cmp most_entries self.old }
        ensures step { IsStep self.old self.new }
    {
        let pair = self.jobs.remove(ticket.pointer).allow()?;
        Some(pair.into_k_v())
    }

    /// Removes the first job if its deadline is at most `now`, and returns its deadline and the job, in O(log n).
    ///
    /// If no job is due, returns `None` and nothing changes.
    ///
    /// ```
    /// agenda.schedule(30, "report").map_err(|refused| refused.1)?;
    /// agenda.schedule(10, "tea").map_err(|refused| refused.1)?;
    /// assert_eq!(rt; agenda.pop_due(20), Some((10, "tea")));
    /// assert_eq!(rt; agenda.pop_due(20), None);
    /// ```
    pub fn pop_due(&mut self, now: u64) -> Option<(u64, J)>
        ensures value { result ≡ first_due now self.old.entries }
        ensures due { IfSome result (λ due. due.0 ≤ now) }
        ensures gone { OnSome result (self.new ≡ without_first greatest_generation self.old) }
        ensures count { OnSome result (count self.old ≡ count self.new + 1) }
        ensures room { OnSome result (HasRoomFor 1 self.new) }
        ensures leaves { IfSome result (λ due. Leaves self.old self.new due) }
        ensures none { IfNone result (self.new ≡ self.old) }
        ensures sound { IsSound nat_cmp most_entries self.old }
        ensures step { IsStep self.old self.new }
    {
        let first = self.jobs.first()?;
        let deadline = *self.jobs.get(first)?.k();
        if deadline > now {
            return None;
        }
        self.cancel(Ticket { pointer: first })
    }
}

impl<J: Drop, A: Allocator> Agenda<J, A> {
    /// Inserts a job after every job with a deadline ≤ its own, and returns its ticket. If it is full, the agenda grows.
    ///
    /// ```
    /// agenda.schedule(30, "report").map_err(|refused| refused.1)?;
    /// agenda.schedule(10, "tea").map_err(|refused| refused.1)?;
    /// assert_eq!(rt; agenda.next_deadline(), Some(10));
    /// ```
    ///
    /// # Errors
    ///
    /// The job comes back, and the agenda is unchanged.
    /// - `BeyondMaxCapacity`: there are 4,294,967,294 jobs, as many as tickets have indexes.
    /// - `AllocError`: growing failed.
    ///
    /// # Complexity
    ///
    /// O(log n), and one comparison if no deadline is later; plus O(n) when the agenda grows (amortized O(1)).
    #[tactic(auto, using(listing::proofs::CallerLemmas::words))]
    pub fn schedule(&mut self, deadline: u64, job: J) -> Result<Ticket, (J, ReallocationError)>
        ensures ok { IfOk result (λ ticket.
            self.new ≡ with_entry nat_cmp most_entries self.old ticket (deadline, job)) }
        ensures free { IfOk result (λ ticket. IsFree self.old ticket) }
        ensures updates { IfOk result
            (λ ticket. Updates self.old self.new ticket (Some (deadline, job))) }
        ensures count { OnOk result (count self.new ≡ count self.old + 1) }
        ensures generation { self.new.generation ≡ self.old.generation }
        ensures back { IfErr result (λ e. e.0 ≡ job) }
        ensures err { OnErr result (self.new ≡ self.old) }
        ensures full { (result ≡ Err (job, ReallocationError.BeyondMaxCapacity))
            ↔ (count self.old ≡ most_entries) }
        ensures memory { result ≡ Err (job, ReallocationError.AllocError)
            → count self.old ≡ self.old.capacity }
        ensures fits { count self.old < self.old.capacity → IsOk result }
        ensures step { IsStep self.old self.new }
    {
        match insert_behind(&mut self.jobs, deadline, job) {
            Ok(pointer) => Ok(Ticket { pointer }),
            Err(((_, job), refusal)) => Err((job, refusal)),
        }
    }

    /// Gives the job of `ticket` another deadline and returns whether there is such a job, in O(log n). The ticket stays valid.
    ///
    /// The job counts as newly scheduled: it goes after every other job with a deadline ≤ its own, also if its deadline doesn't
    /// change. [`move_to`](Self::move_to) does the same and issues a new ticket. No memory is taken. If the ticket names no job, nothing
    /// changes.
    ///
    /// ```
    /// let tea = agenda.schedule(10, "tea").map_err(|refused| refused.1)?;
    /// agenda.schedule(30, "report").map_err(|refused| refused.1)?;
    /// assert!(rt; agenda.reschedule(tea, 40));
    /// assert_eq!(rt; agenda.next_deadline(), Some(30));
    /// assert_eq!(rt; agenda.get(tea), Some((40, &"tea")));
    /// ```
    #[tactic(auto, using(listing::proofs::CallerLemmas::words))]
    pub fn reschedule(&mut self, ticket: Ticket, deadline: u64) -> bool
        ensures value { result ≡ is_some (get self.old ticket) }
        ensures after { self.new ≡ with_key nat_cmp self.old ticket deadline }
        ensures updates { Updates self.old self.new ticket
            (option_map (λ job. (deadline, job.1)) (get self.old ticket)) }
        ensures count { count self.new ≡ count self.old }
        ensures sound { IsSound nat_cmp most_entries self.old }
        ensures step { IsStep self.old self.new }
    {
        self.jobs.rekey_pair(ticket.pointer, deadline).is_ok()
    }

    /// Gives the job of `ticket` another deadline and a new ticket, and returns that, in O(log n). The old ticket ends.
    ///
    /// The job counts as newly scheduled, as by [`reschedule`](Self::reschedule). No memory is taken. If the ticket names no job, returns
    /// `None` and nothing changes.
    ///
    /// ```
    /// let tea = agenda.schedule(10, "tea").map_err(|refused| refused.1)?;
    /// let later = agenda.move_to(tea, 40);
    /// assert!(rt; later.is_some());
    /// assert!(rt; !agenda.contains(tea));
    /// assert_eq!(rt; agenda.next_deadline(), Some(40));
    /// ```
    pub fn move_to(&mut self, ticket: Ticket, deadline: u64) -> Option<Ticket>
        ensures value { is_some result ≡ is_some (get self.old ticket) }
        ensures moved { IfSome result (λ new. Reschedules self.old ticket new deadline self.new) }
        ensures none { IfNone result (self.new ≡ self.old) }
        ensures sound { IsSound nat_cmp most_entries self.old }
        ensures step { IsStep self.old self.new }
    {
        let moved = self.jobs.remove(ticket.pointer).allow()?;
        let (_, job) = moved.into_k_v();
        // the job that was taken out has left its slot
        let pointer = insert_behind_within(&mut self.jobs, deadline, job);
        Some(Ticket { pointer })
    }
}
