//! What a program makes of a timeline, proved from the promises of the timeline's calls alone: there is no proof file.
#![tactic(auto)]

ghost use Rattle.std.specs.Prelude.{◌≡◌, ◌≤◌, ◌<◌, ◌+◌, ◌-◌, ◌^◌, ◌↔◌, ℕ, false, IsTrue, Some, None, IfSome, IfNone, IfOk, IsOk, OnOk, OnErr, length};
ghost use Rattle.std.specs.Option.{option_copied};
ghost use Rattle.timeline.specs.Timeline.{value_at, shown_span, HasNone, HasValues, HasRoomFor, IsBlank, IsNextGap, IsNextSpan};

use std::alloc::Allocator;
use timeline::{Gap, ReallocationError, Span, Text, Timeline};

/// Who is on duty at each time.
pub type Shifts<A> = Timeline<Text<A>, A>;

/// The first gap from one time until another: nobody is on duty then, and somebody always before.
pub fn next_gap<A: Allocator + Copy>(shifts: &Shifts<A>, from: u64, until: u64) -> Option<Gap>
    ensures gap { IfSome result (λ gap. IsNextGap shifts.now.changes from until gap) }
    ensures none { IfNone result (HasValues shifts.now.changes from until) }
{
    shifts.gaps(from, until).next()
}

/// The time until which the one on duty now stays; `None` if that is for ever, or nobody is.
pub fn end_of_shift<A: Allocator + Copy>(shifts: &Shifts<A>, now: u64) -> Option<u64>
    ensures later { IfSome result (λ end. now < end) }
    ensures same { IfSome result (λ end. (t : ℕ) → now ≤ t → t < end
        → value_at shifts.now.changes t ≡ value_at shifts.now.changes now) }
{
    shifts.next_change(now)
}

/// Puts somebody on duty. On `Err` everybody has the shifts as before.
pub fn put<A: Allocator + Copy>(
    shifts: &mut Shifts<A>,
    from: u64,
    until: u64,
    who: Text<A>,
) -> Result<(), ReallocationError>
    ensures within { OnOk result ((t : ℕ) → from ≤ t → t < until
        → value_at shifts.new.changes t ≡ Some who) }
    ensures before { OnOk result ((t : ℕ) → t < from
        → value_at shifts.new.changes t ≡ value_at shifts.old.changes t) }
    ensures err { OnErr result (shifts.new ≡ shifts.old) }
{
    shifts.set(from, until, who)
}

/// Sets a rate, for which room was reserved: that never fails.
pub fn set_reserved<A: Allocator>(rates: &mut Timeline<u64, A>, from: u64, rate: u64)
    requires { HasRoomFor 1 rates.old }
    ensures { (t : ℕ) → from ≤ t → value_at rates.new.changes t ≡ Some rate }
{
    match rates.set_from(from, rate) {
        Ok(()) => {}
        Err(ReallocationError::BeyondMaxCapacity) => unreachable!(),
        Err(ReallocationError::AllocError) => unreachable!(),
    }
}

/// Books a time for somebody if nobody has it. Returns whether it was free.
pub fn book<A: Allocator>(
    bookings: &mut Timeline<u64, A>,
    from: u64,
    until: u64,
    who: u64,
) -> Result<bool, ReallocationError>
    ensures free { IfOk result (λ is_booked. IsTrue is_booked ↔ HasNone bookings.old.changes from until) }
    ensures within { IfOk result (λ is_booked. IsTrue is_booked → (t : ℕ) → from ≤ t → t < until
        → value_at bookings.new.changes t ≡ Some who) }
    ensures taken { IfOk result (λ is_booked. is_booked ≡ false → bookings.new ≡ bookings.old) }
    ensures err { OnErr result (bookings.new ≡ bookings.old) }
{
    if !bookings.is_free(from, until) {
        return Ok(false);
    }
    bookings.set(from, until, who)?;
    Ok(true)
}

/// The time at which the first shift begins: before it nobody is on duty.
pub fn opening<A: Allocator + Copy>(shifts: &Shifts<A>) -> Option<u64>
    ensures before { IfSome result (λ opens. HasNone shifts.now.changes 0 opens) }
    ensures never { IfNone result (IsBlank shifts.now.changes) }
{
    let first = shifts.first_span()?;
    Some(first.from)
}

/// The time from which on nobody is on duty any more; `None` if somebody stays for ever, or nobody ever is.
pub fn closing<A: Allocator + Copy>(shifts: &Shifts<A>) -> Option<u64>
    ensures { IfSome result (λ closes. (t : ℕ) → closes ≤ t
        → value_at shifts.now.changes t ≡ None) }
{
    shifts.last_span()?.until
}

/// What the rates would be with another one from a time on. The rates stay.
pub fn with_rate<A: Allocator + Copy>(
    rates: &Timeline<u64, A>,
    from: u64,
    rate: u64,
) -> Result<Timeline<u64, A>, ReallocationError>
    ensures from { IfOk result (λ new. (t : ℕ) → from ≤ t → value_at new.changes t ≡ Some rate) }
    ensures before { IfOk result (λ new. (t : ℕ) → t < from
        → value_at new.changes t ≡ value_at rates.now.changes t) }
{
    let Ok(mut new) = rates.try_clone() else {
        return Err(ReallocationError::AllocError);
    };
    new.set_from(from, rate)?;
    Ok(new)
}

/// The first rate that holds before the last time of all, and over which times.
pub fn first_rate<A: Allocator>(rates: &Timeline<u64, A>) -> Option<Span<&u64>>
    ensures span { IfSome result
        (λ span. IsNextSpan rates.now.changes 0 (2 ^ 64 - 1) (shown_span span)) }
    ensures none { IfNone result (HasNone rates.now.changes 0 (2 ^ 64 - 1)) }
{
    rates.into_iter().next()
}
