//! `Gaps`: the stretches without a value, in order.

ghost use Rattle.std.specs.Prelude.{◌≡◌, IfSome, IfNone};
ghost use Rattle.std.specs.Iterator.{YieldsFirst, item_count};
ghost use Rattle.timeline.specs.Timeline.{AreGaps};

use crate::span::Gap;
use crate::timeline::Timeline;
use crate::walk::Walk;
use std::alloc::{Allocator, Global};
use std::marker::Model;

/// An iterator over the gaps within a time. It takes no memory. In contracts it is the list of the gaps that are left.
#[derive(Drop)]
pub struct Gaps<'a, V, A: Allocator = Global> {
    walk: Walk<'a, V, A>,
}

impl<'a, V, A: Allocator> Model for Gaps<'a, V, A> {
    ghost use Rattle.std.specs.Prelude.{List};
    ghost use Rattle.timeline.specs.declared.span.Gap.{Gap};

    ghost Value = { List Gap };

    ghost use Rattle.timeline.specs.Layout.{gaps_among};

    ghost view = { λ s. gaps_among s.walk };
}

impl<V, A: Allocator> Timeline<V, A> {
    /// Returns an iterator over the stretches without a value from `from` until before `until`, in order. O(log n), and each step is O(1).
    ///
    /// ```
    /// day.set(9, 12, 1)?;
    /// day.set(13, 17, 1)?;
    /// let gap = day.gaps(9, 17).next().map(|gap| (gap.from, gap.until));
    /// assert_eq!(rt; gap, Some((12, 13)));
    /// ```
    pub fn gaps(&self, from: u64, until: u64) -> Gaps<'_, V, A>
        ensures { AreGaps self.now.changes from until result }
    {
        Gaps {
            walk: self.walk(from, until),
        }
    }
}

impl<'a, V, A: Allocator> Iterator for Gaps<'a, V, A> {
    type Item = Gap;

    ghost next_gives = { YieldsFirst (λ left. left) };

    ghost remaining = { item_count (λ left. left) };

    fn next(&mut self) -> Option<Gap> {
        while let Some(piece) = self.walk.piece() {
            if piece.value.is_none() {
                return Some(Gap {
                    from: piece.from,
                    until: piece.until,
                });
            }
        }
        None
    }
}
