//! Settings: what a new value takes out of the changes, and what it puts between.

ghost use Rattle.std.specs.Prelude.{◌≡◌, ◌≤◌, ◌<◌, ◌+◌, ◌++◌, ◌↔◌, true, false, length, Some, None, Err, IfOk, OnOk, IfErr, OnErr, IfSome, OnSome, IfNone};
ghost use Rattle.std.specs.Ordering.{nat_cmp};
ghost use Rattle.sorted_arena.specs.Sorted.{with_entry, IsSound};
ghost use Rattle.timeline.specs.Timeline.{most_entries, roomy_capacity, value_at, IsRising};
ghost use Rattle.timeline.specs.Layout.{changes_of, timeline_of, IsReached, IsBeyond, IsAt, KeepsCapacity, TakesChange, TakesNext, TakesBehind, TakesSame};
ghost use Rattle.timeline.specs.Layout.{end_value_of, IsOpen, TakesOver, IsJoinedTo, IsFinished, IsPainted, IsRefusable, CannotEnd};

use crate::changes::{Changes, held_at, value_of};
use crate::value::{TimelineValue, clone_of, is_same};
use sorted_arena::{BasePtrInx, P0, ReallocationError};
use std::alloc::{AllocError, Allocator};

/// Makes room for two more changes, in O(n) if the arena has to grow. If it grows and there is an end, it first makes a clone of the value
/// that holds at the end: then nothing can be refused any more. On `Err` nothing has changed.
pub(crate) fn make_room<V: TimelineValue, A: Allocator>(
    changes: &mut Changes<V, A>,
    until: Option<u64>,
) -> Result<Option<Option<V>>, ReallocationError>
    ensures entries { changes.new.entries ≡ changes.old.entries }
    ensures room { OnOk result (length changes.new.entries + 2 ≤ changes.new.capacity) }
    ensures capacity { OnOk result
        (changes.new.capacity ≡ roomy_capacity (timeline_of changes.old)) }
    ensures unspared { IfOk result
        (λ spare. spare ≡ None → changes.new.capacity ≡ changes.old.capacity) }
    ensures spared { IfOk result (λ spare. IfSome spare
        (λ held. IfSome until (λ u. held ≡ value_at (changes_of changes.old) u))) }
    ensures full { (result ≡ Err ReallocationError.BeyondMaxCapacity)
        ↔ (most_entries < length changes.old.entries + 2) }
    ensures memory { result ≡ Err ReallocationError.AllocError
        → changes.old.capacity < length changes.old.entries + 2 }
    ensures err { OnErr result (changes.new ≡ changes.old) }
{
    let needed = changes.len() + 2;
    if needed <= changes.capacity() {
        return Ok(None);
    }
    // There are as many changes at most as pointers have indexes.
    if needed > u32::limit() {
        return Err(ReallocationError::BeyondMaxCapacity);
    }
    let held = match until {
        Some(until) => clone_of(held_at(changes, until)),
        None => Ok(None),
    };
    match held {
        Ok(held) => {
            changes.reserve(2)?;
            Ok(Some(held))
        }
        Err(_) => Err(ReallocationError::AllocError),
    }
}

// Inserts a change, for which there is room, and returns its pointer.
#[tactic(auto, using(sorted_arena::proofs::CallerLemmas::words))]
fn insert_at<V: Drop, A: Allocator>(changes: &mut Changes<V, A>, time: u64, value: Option<V>) -> P0
    requires { length changes.old.entries < changes.old.capacity }
    ensures inserted { changes.new
        ≡ with_entry nat_cmp most_entries changes.old result (time, value) }
    ensures keeps { KeepsCapacity changes.old changes.new }
    ensures count { length changes.new.entries ≡ length changes.old.entries + 1 }
{
    match changes.insert(time, value) {
        Ok(p) => p,
        Err((_, ReallocationError::BeyondMaxCapacity)) => unreachable!(),
        Err((_, ReallocationError::AllocError)) => unreachable!(),
    }
}

// Whether an end, which may be none, reaches a time.
fn is_reached(until: Option<u64>, time: u64) -> bool
    ensures yes { result ≡ true → IsReached until time }
    ensures no { result ≡ false → IsBeyond until time }
{
    match until {
        Some(until) => time <= until,
        None => true,
    }
}

// Takes the change directly behind the one at `p` out, if the end reaches it, and returns its value.
fn take_next<V, A: Allocator>(
    changes: &mut Changes<V, A>,
    p: P0,
    until: Option<u64>,
) -> Option<Option<V>>
    ensures takes { TakesChange changes.old p
        (λ at. TakesNext until at result changes.new.entries) changes.new }
    ensures count { OnSome result
        (length changes.old.entries ≡ length changes.new.entries + 1) }
    ensures kept { IfNone result (changes.new ≡ changes.old) }
{
    let next = changes.next(p)?;
    let time = *changes.key(next)?;
    if !is_reached(until, time) {
        return None;
    }
    match changes.remove(next) {
        Some((_, value)) => Some(value),
        None => None,
    }
}

// Takes all changes behind the one at `p` out that the end reaches, and returns the value of the last of them.
fn take_behind<V: Drop, A: Allocator>(
    changes: &mut Changes<V, A>,
    p: P0,
    until: Option<u64>,
) -> Option<Option<V>>
    ensures { TakesChange changes.old p (λ at. TakesBehind until at result changes.new.entries)
        changes.new }
{
    let mut moved = None;
    while let Some(value) = take_next(changes, p, until) {
        moved = Some(value);
    }
    moved
}

// Takes the change directly before the one at `p` out, if it is at this time, and returns its value.
fn take_same<V, A: Allocator>(changes: &mut Changes<V, A>, p: P0, from: u64) -> Option<Option<V>>
    ensures { TakesChange changes.old p (λ at. TakesSame from at result changes.new.entries)
        changes.new }
{
    let before = changes.prev(p)?;
    if *changes.key(before)? != from {
        return None;
    }
    match changes.remove(before) {
        Some((_, value)) => Some(value),
        None => None,
    }
}

// Takes the changes at `from` and behind the one at `p` out that the end reaches, and returns the value of the last of them.
fn take_over<V: Drop, A: Allocator>(
    changes: &mut Changes<V, A>,
    p: P0,
    from: u64,
    until: Option<u64>,
) -> Option<Option<V>>
    ensures { TakesChange changes.old p (λ at. TakesOver from until at result changes.new.entries)
        changes.new }
{
    let moved = take_behind(changes, p, until);
    let same = take_same(changes, p, from);
    match moved {
        Some(value) => Some(value),
        None => same,
    }
}

// The value that holds at the end: the spare clone, or that of the last change that was taken out, or a clone of the one before `p`.
fn end_value<V: TimelineValue, A: Allocator>(
    changes: &Changes<V, A>,
    p: P0,
    spare: Option<Option<V>>,
    taken: Option<Option<V>>,
) -> Result<Option<V>, AllocError>
    ensures ok { (at : IsAt changes.now.entries p) → IfOk result
        (λ value. value ≡ end_value_of at spare taken) }
    ensures err { (at : IsAt changes.now.entries p) → IfErr result
        (λ _. IsRefusable V.is_infallible at spare taken) }
{
    match (spare, taken) {
        (Some(value), _) => Ok(value),
        (None, Some(value)) => Ok(value),
        (None, None) => clone_of(value_of(changes, changes.prev(p))),
    }
}

// Removes the change at `p` if it brings the value of the one before it.
fn join_before<V: TimelineValue, A: Allocator>(changes: &mut Changes<V, A>, p: P0)
    ensures { TakesChange changes.old p (λ at. IsJoinedTo at changes.new.entries) changes.new }
{
    let (before, here) = (changes.prev(p), Some(p));
    if is_same(value_of(changes, before), value_of(changes, here)) {
        let _ = changes.remove(p);
    }
}

// Ends the stretch that begins at `p`. On `Err` the change at `p` is removed, and nothing else.
fn finish<V: TimelineValue, A: Allocator>(
    changes: &mut Changes<V, A>,
    p: P0,
    until: u64,
    spare: Option<Option<V>>,
    taken: Option<Option<V>>,
) -> Result<(), AllocError>
    requires room { length changes.old.entries < changes.old.capacity }
    requires sound { IsSound nat_cmp most_entries changes.old }
    ensures finished { (stands : IsOpen changes.old.entries p until) → OnOk result
        (IsFinished stands (end_value_of stands.at spare taken) (changes_of changes.new)) }
    ensures refused { (at : IsAt changes.old.entries p)
        → OnErr result (IsRefusable V.is_infallible at spare taken) }
    ensures err { (at : IsAt changes.old.entries p)
        → OnErr result (changes.new.entries ≡ at.front ++ at.back) }
    ensures keeps { KeepsCapacity changes.old changes.new }
    ensures count { length changes.new.entries ≤ length changes.old.entries + 1 }
{
    let after = match end_value(changes, p, spare, taken) {
        Ok(after) => after,
        Err(refused) => {
            let _ = changes.remove(p);
            return Err(refused);
        }
    };
    let is_end = !is_same(value_of(changes, Some(p)), after.as_ref());
    join_before(changes, p);
    if is_end {
        let _ = insert_at(changes, until, after);
    }
    Ok(())
}

/// Makes this the value from one time on, until before the end if there is one. On `Err` nothing has changed.
pub(crate) fn paint<V: TimelineValue, A: Allocator>(
    changes: &mut Changes<V, A>,
    from: u64,
    until: Option<u64>,
    value: Option<V>,
    spare: Option<Option<V>>,
) -> Result<(), AllocError>
    requires rising { IsRising (changes_of changes.old) }
    requires later { IfSome until (λ u. from < u) }
    requires room { length changes.old.entries + 2 ≤ changes.old.capacity }
    requires spare { IfSome spare
        (λ held. IfSome until (λ u. held ≡ value_at (changes_of changes.old) u)) }
    ensures painted { OnOk result
        (IsPainted (changes_of changes.old) from until value (changes_of changes.new)) }
    ensures refused { OnErr result
        ((spare ≡ None) × CannotEnd V.is_infallible (changes_of changes.old) from until) }
    ensures err { OnErr result (changes_of changes.new ≡ changes_of changes.old) }
    ensures keeps { KeepsCapacity changes.old changes.new }
    ensures count { length changes.new.entries ≤ length changes.old.entries + 2 }
{
    let p = insert_at(changes, from, value);
    let taken = take_over(changes, p, from, until);
    match until {
        Some(until) => finish(changes, p, until, spare, taken),
        None => {
            join_before(changes, p);
            Ok(())
        }
    }
}
