//! `Spans`: the spans of a timeline, in order.

ghost use Rattle.std.specs.Prelude.{◌≡◌, ◌↔◌, ◌-◌, ◌^◌, IsTrue, IfSome, IfNone};
ghost use Rattle.std.specs.Iterator.{YieldsFirstBy, item_count};
ghost use Rattle.timeline.specs.Timeline.{AreSpans, IsNextSpan, HasNone, shown_span};

use crate::span::Span;
use crate::timeline::Timeline;
use crate::walk::Walk;
use std::alloc::{Allocator, Global};
use std::marker::Model;

/// An iterator over the spans within a time. It takes no memory. In contracts it is the list of the spans that are left.
///
/// `for span in &timeline` goes over those from time 0 until before `u64::MAX`, in order. A value that holds for ever is cut there.
///
/// ```
/// let mut day: Timeline<u8> = Timeline::new(rt.alloc());
/// day.set(9, 17, 1)?;
/// day.set_from(20, 3)?;
/// let mut ends = 0u64;
/// for span in &day {
///     assert!(rt; ends < span.from);
///     ends = span.until;
/// }
/// assert_eq!(rt; ends, u64::MAX);
/// ```
#[derive(Drop)]
pub struct Spans<'a, V, A: Allocator = Global> {
    walk: Walk<'a, V, A>,
}

impl<'a, V, A: Allocator> Model for Spans<'a, V, A> {
    ghost use Rattle.std.specs.Prelude.{List};
    ghost use Rattle.timeline.specs.declared.span.Span.{Span};

    ghost Value = { List (Span V) };

    ghost use Rattle.timeline.specs.Layout.{spans_among};

    ghost view = { λ s. spans_among s.walk };
}

impl<V, A: Allocator> Timeline<V, A> {
    /// Returns an iterator over the spans from `from` until before `until`, in order. O(log n), and each step is O(1).
    ///
    /// ```
    /// day.set(9, 17, 1)?;
    /// day.set(12, 13, 2)?;
    /// let mut hours = 0;
    /// for span in day.spans(10, 24) {
    ///     if *span.value == 1 {
    ///         hours = span.until.wrapping_sub(span.from).wrapping_add(hours);
    ///     }
    /// }
    /// assert_eq!(rt; hours, 6);
    /// ```
    pub fn spans(&self, from: u64, until: u64) -> Spans<'_, V, A>
        ensures { AreSpans self.now.changes from until result }
    {
        Spans {
            walk: self.walk(from, until),
        }
    }

    /// Returns the first span of a value within the time from `from` until before `until`, in O(log n). `None` if no value holds there.
    ///
    /// The span ends where another value or none begins, at the latest at `until`. Called again from its end on, it returns the next one.
    ///
    /// ```
    /// let mut day: Timeline<u8> = Timeline::new(rt.alloc());
    /// day.set(9, 17, 1)?;
    /// let span = day.next_span(10, 24).map(|span| (span.from, span.until, *span.value));
    /// assert_eq!(rt; span, Some((10, 17, 1)));
    /// ```
    pub fn next_span(&self, from: u64, until: u64) -> Option<Span<&V>>
        ensures span { IfSome result
            (λ span. IsNextSpan self.now.changes from until (shown_span span)) }
        ensures none { IfNone result (HasNone self.now.changes from until) }
    {
        self.spans(from, until).next()
    }

    /// Returns whether no value holds at any time from `from` until before `until`, in O(log n).
    ///
    /// ```
    /// day.set(9, 17, 1)?;
    /// assert!(rt; day.is_free(17, 24));
    /// assert!(rt; !day.is_free(16, 18));
    /// assert!(rt; day.is_free(12, 12));
    /// ```
    pub fn is_free(&self, from: u64, until: u64) -> bool
        ensures { IsTrue result ↔ HasNone self.now.changes from until }
    {
        self.next_span(from, until).is_none()
    }
}

impl<'a, V, A: Allocator> Iterator for Spans<'a, V, A> {
    type Item = Span<&'a V>;

    ghost next_gives = { YieldsFirstBy shown_span (λ left. left) };

    ghost remaining = { item_count (λ left. left) };

    fn next(&mut self) -> Option<Span<&'a V>> {
        while let Some(piece) = self.walk.piece() {
            if let Some(value) = piece.value {
                return Some(Span {
                    from: piece.from,
                    until: piece.until,
                    value,
                });
            }
        }
        None
    }
}

/// `for span in &timeline` goes over the spans of all times but the last, `u64::MAX`, in order.
impl<'a, V, A: Allocator> IntoIterator for &'a Timeline<V, A> {
    type Item = Span<&'a V>;

    type IntoIter = Spans<'a, V, A>;

    ghost into_iter_gives = { λ t spans. AreSpans t.now.changes 0 (2 ^ 64 - 1) spans };

    fn into_iter(self) -> Spans<'a, V, A> {
        self.spans(0, u64::MAX)
    }
}
