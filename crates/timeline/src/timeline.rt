//! `Timeline`: the value that holds at each time.

ghost use Rattle.std.specs.Prelude.{◌≡◌, true, false, ◌<◌, ◌≤◌, ◌+◌, ◌*◌, ◌↔◌, ◌⊎◌, ℕ, [], Some, None, Err, IsOk, IfOk, OnOk, OnErr, IfSome, IfNone, length};
ghost use Rattle.std.specs.Option.{option_copied};
ghost use Rattle.sorted_arena.specs.PlainArena.{capacity_for};
ghost use Rattle.timeline.specs.Timeline.{most_entries, value_at, shown_whole, AreChanges, IsTimeline, HasRoomFor};
ghost use Rattle.timeline.specs.Timeline.{IsWholeSpan, IsNextChange, SetsStretch, SetsFrom};
ghost use Rattle.timeline.specs.Layout.{pieces_of, capacity_put, Sets, CannotEnd, IsEmptyTime, IsLastChange};

use crate::changes::{Changes, around, held_at, held_from, last_time, next_after, time_of};
use crate::list::ChangesByTime;
use crate::paint::{make_room, paint};
use crate::span::WholeSpan;
use crate::value::TimelineValue;
use crate::walk::Walk;
use sorted_arena::{ReallocationError, SortedArena};
use std::alloc::{AllocError, Allocator, Global};
use std::marker::Model;

/// A function from times to values, each of which holds over a span of time.
///
/// A time is a number in whatever unit the program counts it. In contracts a timeline is the list of its changes, each a time from which on
/// another value holds, or none, and its capacity.
///
/// Only `reserve` and the settings take memory. In the docs n is the number of changes. In the examples of the calls `day` is a `Timeline<u8>`
/// without values, as `Timeline::new(rt.alloc())` makes it.
#[derive(Drop)]
pub struct Timeline<V, A: Allocator = Global> {
    changes: Changes<V, A>,
}

impl<V, A: Allocator> Model for Timeline<V, A> {
    ghost use Rattle.timeline.specs.Timeline.{Timeline};

    ghost Value = { Timeline V };

    ghost use Rattle.timeline.specs.Timeline.{AreChanges};
    ghost use Rattle.timeline.specs.Layout.{changes_of, timeline_of};

    ghost view = { λ t. timeline_of t.changes };

    ghost invariant = { λ t. AreChanges (changes_of t.changes) };
}

impl<V, A: Allocator> Timeline<V, A> {
    /// Creates a timeline without values. It takes no memory until a value is set.
    pub fn new(alloc: A) -> Self
    where
        A: Copy,
        ensures changes { result.changes ≡ [] }
        ensures capacity { result.capacity ≡ 0 }
    {
        Timeline {
            changes: SortedArena::new(alloc),
        }
    }

    /// Returns how many changes the timeline holds without growing. A setting needs room for two more.
    pub fn capacity(&self) -> usize
        ensures { result ≡ self.now.capacity }
    {
        self.changes.capacity()
    }

    /// Returns the number of changes.
    pub fn len(&self) -> usize
        ensures value { result ≡ length self.now.changes }
        ensures lawful { IsTimeline self.now }
    {
        self.changes.len()
    }

    /// Returns the value at a time, in O(log n). `None` if no value holds.
    pub fn get(&self, time: u64) -> Option<&V>
        ensures { option_copied result ≡ value_at self.now.changes time }
    {
        held_at(&self.changes, time)
    }

    /// Returns the whole stretch of time around `time` over which its value holds, in O(log n). `None` if no value holds.
    ///
    /// It begins with the change that brought the value, and ends at the next one; `until` is `None` if no change follows.
    ///
    /// ```
    /// day.set(9, 17, 1)?;
    /// let span = day.span_at(12).map(|span| (span.from, span.until));
    /// assert_eq!(rt; span, Some((9, Some(17))));
    /// ```
    pub fn span_at(&self, time: u64) -> Option<WholeSpan<&V>>
        ensures span { IfSome result
            (λ span. IsWholeSpan self.now.changes time (shown_whole span)) }
        ensures none { IfNone result (value_at self.now.changes time ≡ None) }
    {
        let (last, next) = around(&self.changes, time);
        match held_from(&self.changes, last) {
            Some((from, value)) => Some(WholeSpan {
                from,
                until: time_of(&self.changes, next),
                value,
            }),
            None => None,
        }
    }

    /// Returns the first time after `time` at which another value holds, or none, in O(log n). `None` if there is no such time.
    ///
    /// ```
    /// day.set(9, 17, 1)?;
    /// assert_eq!(rt; day.next_change(0), Some(9));
    /// assert_eq!(rt; day.next_change(9), Some(17));
    /// assert_eq!(rt; day.next_change(17), None);
    /// ```
    pub fn next_change(&self, time: u64) -> Option<u64>
        ensures { IsNextChange self.now.changes time result }
    {
        next_after(&self.changes, time)
    }

    /// Returns an iterator over all changes: times, each with the value that holds from then on, or none. Each step is O(1).
    pub fn changes(&self) -> ChangesByTime<'_, V, A>
        ensures { result ≡ self.now.changes }
    {
        ChangesByTime {
            items: self.changes.iter().items(),
        }
    }

    // The time from which on the value stays as it is.
    pub(crate) fn last_change(&self) -> Option<u64>
        ensures { IsLastChange self.now.changes result }
    {
        last_time(&self.changes)
    }

    // The pieces from one time until another.
    pub(crate) fn walk(&self, from: u64, until: u64) -> Walk<'_, V, A>
        ensures pieces { result ≡ pieces_of self.now.changes from until }
        ensures lawful { AreChanges self.now.changes }
    {
        Walk::new(&self.changes, from, until)
    }

    /// Makes room for this many more settings: each takes the room of two changes at most, so that so many of them never grow the timeline.
    ///
    /// O(n) if the timeline grows, else O(1). If it grows, its capacity at least doubles, up to the limit.
    ///
    /// ```
    /// day.reserve(1)?;
    /// let room = day.capacity();
    /// day.set(9, 17, 1)?;
    /// assert_eq!(rt; day.capacity(), room);
    /// ```
    ///
    /// # Errors
    ///
    /// The timeline is unchanged.
    /// - `BeyondMaxCapacity`: there would be more than 4,294,967,294 changes.
    /// - `AllocError`: growing failed.
    pub fn reserve(&mut self, settings: usize) -> Result<(), ReallocationError>
        ensures changes { self.new.changes ≡ self.old.changes }
        ensures room { OnOk result (HasRoomFor settings self.new) }
        ensures capacity { OnOk result (self.new.capacity ≡ capacity_for most_entries
            self.old.capacity (length self.old.changes + 2 * settings)) }
        ensures full { (result ≡ Err ReallocationError.BeyondMaxCapacity)
            ↔ (most_entries < length self.old.changes + 2 * settings) }
        ensures memory { result ≡ Err ReallocationError.AllocError
            → self.old.capacity < length self.old.changes + 2 * settings }
        ensures err { OnErr result (self.new ≡ self.old) }
    {
        let Some(additional) = settings.checked_mul(2) else {
            return Err(ReallocationError::BeyondMaxCapacity);
        };
        self.changes.reserve(additional)
    }
}

impl<V: Drop, A: Allocator> Timeline<V, A> {
    /// Removes all changes, in O(capacity): no value holds at any time. The capacity stays.
    pub fn reset(&mut self)
        ensures changes { self.new.changes ≡ [] }
        ensures capacity { self.new.capacity ≡ self.old.capacity }
    {
        self.changes.clear();
    }
}

impl<V: TimelineValue, A: Allocator> Timeline<V, A> {
    /// Makes `value` hold from `from` until before `until`. At all other times the value stays.
    ///
    /// If `until` isn't later than `from`, nothing changes. If a stretch that began before `from` goes on at `until`, its value is cloned.
    ///
    /// ```
    /// day.set(9, 17, 1)?;
    /// day.set(12, 13, 2)?;
    /// assert_eq!(rt; day.get(12), Some(&2));
    /// assert_eq!(rt; day.get(13), Some(&1));
    /// assert_eq!(rt; day.get(17), None);
    /// ```
    ///
    /// # Errors
    ///
    /// The timeline is unchanged, and `value` is dropped.
    /// - `BeyondMaxCapacity`: two more changes would be more than 4,294,967,294.
    /// - `AllocError`: there is no room for two more changes, and growing failed; or the clone was refused.
    ///
    /// # Complexity
    ///
    /// O((k + 1) log n) for k changes within that time, with two searches; plus O(n) when the timeline grows. It makes room for two more
    /// changes first; if it grows, its capacity at least doubles, up to the limit, and the value at `until` is cloned.
    pub fn set(&mut self, from: u64, until: u64, value: V) -> Result<(), ReallocationError>
        ensures { SetsStretch V.is_infallible self.old from until (Some value) result self.new }
    {
        self.put(from, Some(until), Some(value))
    }

    /// Removes all values from `from` until before `until`. At all other times the value stays.
    ///
    /// ```
    /// day.set(9, 17, 1)?;
    /// day.clear(12, 13)?;
    /// assert_eq!(rt; day.get(12), None);
    /// assert_eq!(rt; day.get(13), Some(&1));
    /// ```
    ///
    /// # Errors
    ///
    /// Those of [`set`](Self::set), at the same cost.
    pub fn clear(&mut self, from: u64, until: u64) -> Result<(), ReallocationError>
        ensures { SetsStretch V.is_infallible self.old from until None result self.new }
    {
        self.put(from, Some(until), None)
    }

    /// Makes `value` hold from `from` on, without end: also at `u64::MAX`. Before, the value stays. Nothing is cloned.
    ///
    /// ```
    /// day.set_from(20, 3)?;
    /// assert_eq!(rt; day.get(19), None);
    /// assert_eq!(rt; day.get(u64::MAX), Some(&3));
    /// ```
    ///
    /// # Errors
    ///
    /// The timeline is unchanged, and `value` is dropped.
    /// - `BeyondMaxCapacity`: two more changes would be more than 4,294,967,294.
    /// - `AllocError`: there is no room for two more changes, and growing failed.
    ///
    /// # Complexity
    ///
    /// That of [`set`](Self::set).
    pub fn set_from(&mut self, from: u64, value: V) -> Result<(), ReallocationError>
        ensures { SetsFrom self.old from (Some value) result self.new }
    {
        self.put(from, None, Some(value))
    }

    /// Removes all values from `from` on, without end. Before, the value stays.
    ///
    /// ```
    /// day.set(9, 17, 1)?;
    /// day.clear_from(12)?;
    /// assert_eq!(rt; day.next_change(9), Some(12));
    /// assert_eq!(rt; day.next_change(12), None);
    /// ```
    ///
    /// # Errors
    ///
    /// Those of [`set_from`](Self::set_from), at the same cost.
    pub fn clear_from(&mut self, from: u64) -> Result<(), ReallocationError>
        ensures { SetsFrom self.old from None result self.new }
    {
        self.put(from, None, None)
    }

    // Makes this the value, or makes it none, until before the end if there is one.
    fn put(
        &mut self,
        from: u64,
        until: Option<u64>,
        value: Option<V>,
    ) -> Result<(), ReallocationError>
        ensures set { OnOk result (Sets self.old.changes from until value self.new.changes) }
        ensures full { (result ≡ Err ReallocationError.BeyondMaxCapacity)
            ↔ (IfSome until (λ u. from < u) × (most_entries < length self.old.changes + 2)) }
        ensures memory { result ≡ Err ReallocationError.AllocError
            → IfSome until (λ u. from < u) × ((self.old.capacity < length self.old.changes + 2)
            ⊎ CannotEnd V.is_infallible self.old.changes from until) }
        ensures capacity { OnOk result (self.new.capacity ≡ capacity_put self.old from until) }
        ensures room { OnOk result ((n : ℕ) → HasRoomFor (n + 1) self.old → HasRoomFor n self.new) }
        ensures err { OnErr result (self.new ≡ self.old) }
        ensures lawful { IsTimeline self.new }
    {
        // For the prover: the timeline is lawful.
        let _ = self.len();
        if is_empty(from, until) {
            return Ok(());
        }
        let spare = make_room(&mut self.changes, until)?;
        let Ok(()) = paint(&mut self.changes, from, until, value, spare) else {
            return Err(ReallocationError::AllocError);
        };
        Ok(())
    }
}

impl<V: TimelineValue, A: Allocator + Copy> Timeline<V, A> {
    /// Returns a clone on the same allocator: the same value at each time. O(capacity).
    ///
    /// The clone's capacity is at least the number of changes and at most this timeline's capacity.
    ///
    /// ```
    /// day.set(9, 17, 1)?;
    /// let copy = day.try_clone()?;
    /// day.reset();
    /// assert_eq!(rt; copy.get(12), Some(&1));
    /// ```
    ///
    /// # Errors
    ///
    /// `AllocError`: memory for the changes, or for the clone of a value, is refused.
    pub fn try_clone(&self) -> Result<Self, AllocError>
        ensures changes { IfOk result (λ t. t.changes ≡ self.now.changes) }
        ensures capacity { IfOk result (λ t. t.capacity ≤ self.now.capacity) }
        ensures none { length self.now.changes ≡ 0 → IsOk result }
        ensures lawful { IsTimeline self.now }
    {
        // For the prover: the timeline is lawful, and its arena is sound.
        let _ = self.len();
        let _ = self.changes.len();
        Ok(Timeline {
            changes: self.changes.clone()?,
        })
    }
}

// Whether no time is from this one until before the end.
fn is_empty(from: u64, until: Option<u64>) -> bool
    ensures yes { result ≡ true → IsEmptyTime from until }
    ensures no { result ≡ false → IfSome until (λ u. from < u) }
{
    match until {
        Some(until) => until <= from,
        None => false,
    }
}
