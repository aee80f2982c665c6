//! The examples in the text of `Timeline`'s calls.

use std::process::Abort;
use std::test::Fail;
use timeline::Timeline;

#[test]
fn set(rt: HostRuntime) -> Result<(), Fail> {
    set_in(&rt, &mut Timeline::new(rt.alloc()))
}

fn set_in(rt: &impl Abort, day: &mut Timeline<u8>) -> Result<(), Fail> {
    day.set(9, 17, 1)?;
    day.set(12, 13, 2)?;
    assert_eq!(rt; day.get(12), Some(&2));
    assert_eq!(rt; day.get(13), Some(&1));
    assert_eq!(rt; day.get(17), None);
    Ok(())
}

#[test]
fn clear(rt: HostRuntime) -> Result<(), Fail> {
    clear_in(&rt, &mut Timeline::new(rt.alloc()))
}

fn clear_in(rt: &impl Abort, day: &mut Timeline<u8>) -> Result<(), Fail> {
    day.set(9, 17, 1)?;
    day.clear(12, 13)?;
    assert_eq!(rt; day.get(12), None);
    assert_eq!(rt; day.get(13), Some(&1));
    Ok(())
}

#[test]
fn set_from(rt: HostRuntime) -> Result<(), Fail> {
    set_from_in(&rt, &mut Timeline::new(rt.alloc()))
}

fn set_from_in(rt: &impl Abort, day: &mut Timeline<u8>) -> Result<(), Fail> {
    day.set_from(20, 3)?;
    assert_eq!(rt; day.get(19), None);
    assert_eq!(rt; day.get(u64::MAX), Some(&3));
    Ok(())
}

#[test]
fn clear_from(rt: HostRuntime) -> Result<(), Fail> {
    clear_from_in(&rt, &mut Timeline::new(rt.alloc()))
}

fn clear_from_in(rt: &impl Abort, day: &mut Timeline<u8>) -> Result<(), Fail> {
    day.set(9, 17, 1)?;
    day.clear_from(12)?;
    assert_eq!(rt; day.next_change(9), Some(12));
    assert_eq!(rt; day.next_change(12), None);
    Ok(())
}

#[test]
fn span_at(rt: HostRuntime) -> Result<(), Fail> {
    span_at_in(&rt, &mut Timeline::new(rt.alloc()))
}

fn span_at_in(rt: &impl Abort, day: &mut Timeline<u8>) -> Result<(), Fail> {
    day.set(9, 17, 1)?;
    let span = day.span_at(12).map(|span| (span.from, span.until));
    assert_eq!(rt; span, Some((9, Some(17))));
    Ok(())
}

#[test]
fn next_change(rt: HostRuntime) -> Result<(), Fail> {
    next_change_in(&rt, &mut Timeline::new(rt.alloc()))
}

fn next_change_in(rt: &impl Abort, day: &mut Timeline<u8>) -> Result<(), Fail> {
    day.set(9, 17, 1)?;
    assert_eq!(rt; day.next_change(0), Some(9));
    assert_eq!(rt; day.next_change(9), Some(17));
    assert_eq!(rt; day.next_change(17), None);
    Ok(())
}

#[test]
fn next_span(rt: HostRuntime) -> Result<(), Fail> {
    let mut day: Timeline<u8> = Timeline::new(rt.alloc());
    day.set(9, 17, 1)?;
    let span = day
        .next_span(10, 24)
        .map(|span| (span.from, span.until, *span.value));
    assert_eq!(rt; span, Some((10, 17, 1)));
    Ok(())
}

#[test]
fn spans(rt: HostRuntime) -> Result<(), Fail> {
    spans_in(&rt, &mut Timeline::new(rt.alloc()))
}

fn spans_in(rt: &impl Abort, day: &mut Timeline<u8>) -> Result<(), Fail> {
    day.set(9, 17, 1)?;
    day.set(12, 13, 2)?;
    let mut hours = 0;
    for span in day.spans(10, 24) {
        if *span.value == 1 {
            hours = span.until.wrapping_sub(span.from).wrapping_add(hours);
        }
    }
    assert_eq!(rt; hours, 6);
    Ok(())
}

#[test]
fn gaps(rt: HostRuntime) -> Result<(), Fail> {
    gaps_in(&rt, &mut Timeline::new(rt.alloc()))
}

fn gaps_in(rt: &impl Abort, day: &mut Timeline<u8>) -> Result<(), Fail> {
    day.set(9, 12, 1)?;
    day.set(13, 17, 1)?;
    let gap = day.gaps(9, 17).next().map(|gap| (gap.from, gap.until));
    assert_eq!(rt; gap, Some((12, 13)));
    Ok(())
}

#[test]
fn reserve(rt: HostRuntime) -> Result<(), Fail> {
    reserve_in(&rt, &mut Timeline::new(rt.alloc()))
}

fn reserve_in(rt: &impl Abort, day: &mut Timeline<u8>) -> Result<(), Fail> {
    day.reserve(1)?;
    let room = day.capacity();
    day.set(9, 17, 1)?;
    assert_eq!(rt; day.capacity(), room);
    Ok(())
}

#[test]
fn is_free(rt: HostRuntime) -> Result<(), Fail> {
    is_free_in(&rt, &mut Timeline::new(rt.alloc()))
}

fn is_free_in(rt: &impl Abort, day: &mut Timeline<u8>) -> Result<(), Fail> {
    day.set(9, 17, 1)?;
    assert!(rt; day.is_free(17, 24));
    assert!(rt; !day.is_free(16, 18));
    assert!(rt; day.is_free(12, 12));
    Ok(())
}

#[test]
fn first_span(rt: HostRuntime) -> Result<(), Fail> {
    first_span_in(&rt, &mut Timeline::new(rt.alloc()))
}

fn first_span_in(rt: &impl Abort, day: &mut Timeline<u8>) -> Result<(), Fail> {
    day.set(9, 17, 1)?;
    day.set(12, 13, 2)?;
    let span = day
        .first_span()
        .map(|span| (span.from, span.until, *span.value));
    assert_eq!(rt; span, Some((9, Some(12), 1)));
    Ok(())
}

#[test]
fn last_span(rt: HostRuntime) -> Result<(), Fail> {
    last_span_in(&rt, &mut Timeline::new(rt.alloc()))
}

fn last_span_in(rt: &impl Abort, day: &mut Timeline<u8>) -> Result<(), Fail> {
    day.set(9, 17, 1)?;
    day.set(12, 13, 2)?;
    let span = day
        .last_span()
        .map(|span| (span.from, span.until, *span.value));
    assert_eq!(rt; span, Some((13, Some(17), 1)));
    Ok(())
}

#[test]
fn try_clone(rt: HostRuntime) -> Result<(), Fail> {
    try_clone_in(&rt, &mut Timeline::new(rt.alloc()))
}

fn try_clone_in(rt: &impl Abort, day: &mut Timeline<u8>) -> Result<(), Fail> {
    day.set(9, 17, 1)?;
    let copy = day.try_clone()?;
    day.reset();
    assert_eq!(rt; copy.get(12), Some(&1));
    Ok(())
}

#[test]
fn into_iter(rt: HostRuntime) -> Result<(), Fail> {
    let mut day: Timeline<u8> = Timeline::new(rt.alloc());
    day.set(9, 17, 1)?;
    day.set_from(20, 3)?;
    let mut ends = 0u64;
    for span in &day {
        assert!(rt; ends < span.from);
        ends = span.until;
    }
    assert_eq!(rt; ends, u64::MAX);
    Ok(())
}
