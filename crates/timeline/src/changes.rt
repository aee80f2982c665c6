//! The arena of a timeline: its changes by their times.

ghost use Rattle.std.specs.Prelude.{◌≡◌};
ghost use Rattle.std.specs.Option.{option_copied, option_map, option_and_then};
ghost use Rattle.sorted_arena.specs.Sorted.{get};
ghost use Rattle.timeline.specs.Timeline.{value_at, AreChanges, IsNextChange};
ghost use Rattle.timeline.specs.Layout.{changes_of, valued, IsAround, IsLastChange};

use sorted_arena::{P0, SortedArena};
use std::alloc::Allocator;

/// Changes by time, each with the value that holds from then on, or none.
pub(crate) type Changes<V, A> = SortedArena<u64, Option<V>, P0, A>;

/// The last change at or before a time, and the first one after it.
pub(crate) fn around<V, A: Allocator>(
    changes: &Changes<V, A>,
    time: u64,
) -> (Option<P0>, Option<P0>)
    ensures { IsAround changes.now.entries time result }
{
    let after = changes.upper_bound(&time);
    let before = match after {
        Some(p) => changes.prev(p),
        None => changes.last(),
    };
    (before, after)
}

/// The value that a change brings; none where there is no change.
pub(crate) fn value_of<V, A: Allocator>(changes: &Changes<V, A>, p: Option<P0>) -> Option<&V>
    ensures { option_copied result
        ≡ option_and_then (λ pair. pair.1) (option_and_then (get changes.now) p) }
{
    match changes.get(p?) {
        Some((_, value)) => value.as_ref(),
        None => None,
    }
}

/// The time of a change.
pub(crate) fn time_of<V, A: Allocator>(changes: &Changes<V, A>, p: Option<P0>) -> Option<u64>
    ensures { result ≡ option_map (λ pair. pair.0) (option_and_then (get changes.now) p) }
{
    match changes.get(p?) {
        Some((time, _)) => Some(*time),
        None => None,
    }
}

/// Time and value of a change; none where there is no change, or it brings no value.
pub(crate) fn held_from<V, A: Allocator>(
    changes: &Changes<V, A>,
    p: Option<P0>,
) -> Option<(u64, &V)>
    ensures { option_map (λ h. (h.0, h.1.now)) result
        ≡ option_and_then valued (option_and_then (get changes.now) p) }
{
    match changes.get(p?) {
        Some((time, value)) => match value.as_ref() {
            Some(value) => Some((*time, value)),
            None => None,
        },
        None => None,
    }
}

/// The value that holds at a time.
pub(crate) fn held_at<V, A: Allocator>(changes: &Changes<V, A>, time: u64) -> Option<&V>
    ensures { option_copied result ≡ value_at (changes_of changes.now) time }
{
    value_of(changes, around(changes, time).0)
}

/// The time of the first change after a time.
pub(crate) fn next_after<V, A: Allocator>(changes: &Changes<V, A>, time: u64) -> Option<u64>
    requires { AreChanges (changes_of changes.now) }
    ensures { IsNextChange (changes_of changes.now) time result }
{
    time_of(changes, around(changes, time).1)
}

/// The time of the last change.
pub(crate) fn last_time<V, A: Allocator>(changes: &Changes<V, A>) -> Option<u64>
    requires { AreChanges (changes_of changes.now) }
    ensures { IsLastChange (changes_of changes.now) result }
{
    time_of(changes, changes.last())
}
