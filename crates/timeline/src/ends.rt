//! The first and the last span of a timeline.

ghost use Rattle.std.specs.Prelude.{IfSome, IfNone};
ghost use Rattle.timeline.specs.Timeline.{IsBlank, IsFirstSpan, IsLastSpan, shown_whole};

use crate::changes::last_time;
use crate::span::WholeSpan;
use crate::timeline::Timeline;
use std::alloc::Allocator;

impl<V, A: Allocator> Timeline<V, A> {
    /// Returns the whole stretch of time over which the first value holds, in O(log n). `None` if no value holds at any time.
    ///
    /// ```
    /// day.set(9, 17, 1)?;
    /// day.set(12, 13, 2)?;
    /// let span = day.first_span().map(|span| (span.from, span.until, *span.value));
    /// assert_eq!(rt; span, Some((9, Some(12), 1)));
    /// ```
    pub fn first_span(&self) -> Option<WholeSpan<&V>>
        ensures span { IfSome result (λ span. IsFirstSpan self.now.changes (shown_whole span)) }
        ensures none { IfNone result (IsBlank self.now.changes) }
    {
        match self.span_at(0) {
            Some(span) => Some(span),
            None => self.span_at(self.next_change(0)?),
        }
    }

    /// Returns the whole stretch of time over which the last value holds, in O(log n). `None` if no value holds at any time.
    ///
    /// Its `until` is `None` if the value holds for ever.
    ///
    /// ```
    /// day.set(9, 17, 1)?;
    /// day.set(12, 13, 2)?;
    /// let span = day.last_span().map(|span| (span.from, span.until, *span.value));
    /// assert_eq!(rt; span, Some((13, Some(17), 1)));
    /// ```
    pub fn last_span(&self) -> Option<WholeSpan<&V>>
        ensures span { IfSome result (λ span. IsLastSpan self.now.changes (shown_whole span)) }
        ensures none { IfNone result (IsBlank self.now.changes) }
    {
        let last = self.last_change()?;
        match self.span_at(last) {
            Some(span) => Some(span),
            // the last change ends a value, which began before it
            None => self.span_at(last - 1),
        }
    }
}
