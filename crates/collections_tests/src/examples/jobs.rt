//! The examples in the text of `Agenda`'s calls.

use agenda::Agenda;
use std::process::Abort;
use std::test::Fail;

#[test]
fn schedule(rt: HostRuntime) -> Result<(), Fail> {
    schedule_in(&rt, &mut Agenda::new(rt.alloc()))
}

fn schedule_in(rt: &impl Abort, agenda: &mut Agenda<&'static str>) -> Result<(), Fail> {
    agenda.schedule(30, "report").map_err(|refused| refused.1)?;
    agenda.schedule(10, "tea").map_err(|refused| refused.1)?;
    assert_eq!(rt; agenda.next_deadline(), Some(10));
    Ok(())
}

#[test]
fn cancel(rt: HostRuntime) -> Result<(), Fail> {
    cancel_in(&rt, &mut Agenda::new(rt.alloc()))
}

fn cancel_in(rt: &impl Abort, agenda: &mut Agenda<&'static str>) -> Result<(), Fail> {
    let report = agenda.schedule(30, "report").map_err(|refused| refused.1)?;
    assert_eq!(rt; agenda.cancel(report), Some((30, "report")));
    assert_eq!(rt; agenda.cancel(report), None);
    Ok(())
}

#[test]
fn pop_due(rt: HostRuntime) -> Result<(), Fail> {
    pop_due_in(&rt, &mut Agenda::new(rt.alloc()))
}

fn pop_due_in(rt: &impl Abort, agenda: &mut Agenda<&'static str>) -> Result<(), Fail> {
    agenda.schedule(30, "report").map_err(|refused| refused.1)?;
    agenda.schedule(10, "tea").map_err(|refused| refused.1)?;
    assert_eq!(rt; agenda.pop_due(20), Some((10, "tea")));
    assert_eq!(rt; agenda.pop_due(20), None);
    Ok(())
}

#[test]
fn reschedule(rt: HostRuntime) -> Result<(), Fail> {
    reschedule_in(&rt, &mut Agenda::new(rt.alloc()))
}

fn reschedule_in(rt: &impl Abort, agenda: &mut Agenda<&'static str>) -> Result<(), Fail> {
    let tea = agenda.schedule(10, "tea").map_err(|refused| refused.1)?;
    agenda.schedule(30, "report").map_err(|refused| refused.1)?;
    assert!(rt; agenda.reschedule(tea, 40));
    assert_eq!(rt; agenda.next_deadline(), Some(30));
    assert_eq!(rt; agenda.get(tea), Some((40, &"tea")));
    Ok(())
}

#[test]
fn move_to(rt: HostRuntime) -> Result<(), Fail> {
    move_to_in(&rt, &mut Agenda::new(rt.alloc()))
}

fn move_to_in(rt: &impl Abort, agenda: &mut Agenda<&'static str>) -> Result<(), Fail> {
    let tea = agenda.schedule(10, "tea").map_err(|refused| refused.1)?;
    let later = agenda.move_to(tea, 40);
    assert!(rt; later.is_some());
    assert!(rt; !agenda.contains(tea));
    assert_eq!(rt; agenda.next_deadline(), Some(40));
    Ok(())
}

#[test]
fn get(rt: HostRuntime) -> Result<(), Fail> {
    get_in(&rt, &mut Agenda::new(rt.alloc()))
}

fn get_in(rt: &impl Abort, agenda: &mut Agenda<&'static str>) -> Result<(), Fail> {
    let tea = agenda.schedule(10, "tea").map_err(|refused| refused.1)?;
    assert_eq!(rt; agenda.get(tea), Some((10, &"tea")));
    Ok(())
}

#[test]
fn peek(rt: HostRuntime) -> Result<(), Fail> {
    let mut agenda: Agenda<&str> = Agenda::new(rt.alloc());
    agenda.schedule(30, "report").map_err(|refused| refused.1)?;
    let tea = agenda.schedule(10, "tea").map_err(|refused| refused.1)?;
    assert_eq!(rt; agenda.peek(), Some((tea, 10, &"tea")));
    Ok(())
}

#[test]
fn reserve(rt: HostRuntime) -> Result<(), Fail> {
    reserve_in(&rt, &mut Agenda::new(rt.alloc()))
}

fn reserve_in(rt: &impl Abort, agenda: &mut Agenda<&'static str>) -> Result<(), Fail> {
    agenda.reserve(2)?;
    let room = agenda.capacity();
    agenda.schedule(30, "report").map_err(|refused| refused.1)?;
    agenda.schedule(10, "tea").map_err(|refused| refused.1)?;
    assert_eq!(rt; agenda.capacity(), room);
    Ok(())
}

#[test]
fn clear(rt: HostRuntime) -> Result<(), Fail> {
    clear_in(&rt, &mut Agenda::new(rt.alloc()))
}

fn clear_in(rt: &impl Abort, agenda: &mut Agenda<&'static str>) -> Result<(), Fail> {
    let tea = agenda.schedule(10, "tea").map_err(|refused| refused.1)?;
    agenda.clear();
    assert!(rt; agenda.is_empty());
    assert_eq!(rt; agenda.get(tea), None);
    Ok(())
}

#[test]
fn try_clone(rt: HostRuntime) -> Result<(), Fail> {
    try_clone_in(&rt, &mut Agenda::new(rt.alloc()))
}

fn try_clone_in(rt: &impl Abort, agenda: &mut Agenda<&'static str>) -> Result<(), Fail> {
    let tea = agenda.schedule(10, "tea").map_err(|refused| refused.1)?;
    let copy = agenda.try_clone()?;
    agenda.clear();
    assert_eq!(rt; copy.get(tea), Some((10, &"tea")));
    Ok(())
}

#[test]
fn pop_due_entry(rt: HostRuntime) -> Result<(), Fail> {
    pop_due_entry_in(&rt, &mut Agenda::new(rt.alloc()))
}

fn pop_due_entry_in(rt: &impl Abort, agenda: &mut Agenda<&'static str>) -> Result<(), Fail> {
    let tea = agenda.schedule(10, "tea").map_err(|refused| refused.1)?;
    assert_eq!(rt; agenda.pop_due_entry(9), None);
    assert_eq!(rt; agenda.pop_due_entry(10), Some((tea, 10, "tea")));
    assert!(rt; !agenda.contains(tea));
    Ok(())
}

#[test]
fn iter_from(rt: HostRuntime) -> Result<(), Fail> {
    let mut agenda: Agenda<&str> = Agenda::new(rt.alloc());
    let tea = agenda.schedule(10, "tea").map_err(|refused| refused.1)?;
    agenda.schedule(5, "milk").map_err(|refused| refused.1)?;
    let report = agenda.schedule(30, "report").map_err(|refused| refused.1)?;
    let mut jobs = agenda.iter_from(tea).expect(&rt, "a job");
    assert_eq!(rt; jobs.next(), Some((tea, 10, &"tea")));
    assert_eq!(rt; jobs.next(), Some((report, 30, &"report")));
    assert_eq!(rt; jobs.next(), None);
    Ok(())
}

#[test]
fn due(rt: HostRuntime) -> Result<(), Fail> {
    let mut agenda: Agenda<&str> = Agenda::new(rt.alloc());
    agenda.schedule(30, "report").map_err(|refused| refused.1)?;
    let tea = agenda.schedule(10, "tea").map_err(|refused| refused.1)?;
    let mut due = agenda.due(20);
    assert_eq!(rt; due.next(), Some((tea, 10, &"tea")));
    assert_eq!(rt; due.next(), None);
    Ok(())
}

#[test]
fn count_due(rt: HostRuntime) -> Result<(), Fail> {
    count_due_in(&rt, &mut Agenda::new(rt.alloc()))
}

fn count_due_in(rt: &impl Abort, agenda: &mut Agenda<&'static str>) -> Result<(), Fail> {
    agenda.schedule(30, "report").map_err(|refused| refused.1)?;
    agenda.schedule(10, "tea").map_err(|refused| refused.1)?;
    assert_eq!(rt; agenda.count_due(20), 1);
    assert_eq!(rt; agenda.count_due(30), 2);
    Ok(())
}

#[test]
fn pop_all_due(rt: HostRuntime) -> Result<(), Fail> {
    pop_all_due_in(&rt, &mut Agenda::new(rt.alloc()))
}

fn pop_all_due_in(
    rt: &(impl Abort + AllocGlobal),
    agenda: &mut Agenda<&'static str>,
) -> Result<(), Fail> {
    agenda.schedule(30, "report").map_err(|refused| refused.1)?;
    let tea = agenda.schedule(10, "tea").map_err(|refused| refused.1)?;
    let mut popped = Vec::new(rt.alloc());
    agenda.pop_all_due(20, &mut popped)?;
    assert!(rt; popped.iter().eq(&[(tea, 10, "tea")]));
    assert_eq!(rt; agenda.next_deadline(), Some(30));
    Ok(())
}

#[test]
fn retain(rt: HostRuntime) -> Result<(), Fail> {
    retain_in(&rt, &mut Agenda::new(rt.alloc()))
}

fn retain_in(rt: &impl Abort, agenda: &mut Agenda<&'static str>) -> Result<(), Fail> {
    let tea = agenda.schedule(10, "tea").map_err(|refused| refused.1)?;
    agenda.schedule(20, "tea").map_err(|refused| refused.1)?;
    let report = agenda.schedule(30, "report").map_err(|refused| refused.1)?;
    agenda.retain(|ticket, _, job| ticket == tea || *job != "tea");
    assert_eq!(rt; agenda.len(), 2);
    assert!(rt; agenda.contains(tea) && agenda.contains(report));
    Ok(())
}

#[test]
fn schedule_all(rt: HostRuntime) -> Result<(), Fail> {
    schedule_all_in(&rt, &mut Agenda::new(rt.alloc()))
}

fn schedule_all_in(
    rt: &(impl Abort + AllocGlobal),
    agenda: &mut Agenda<&'static str>,
) -> Result<(), Fail> {
    let jobs = Vec::from_array(rt.alloc(), [(30, "report"), (10, "tea")])?;
    let mut tickets = Vec::new(rt.alloc());
    agenda
        .schedule_all(jobs, &mut tickets)
        .map_err(|refused| refused.1)?;
    assert_eq!(rt; agenda.get(tickets[0]), Some((30, &"report")));
    assert_eq!(rt; agenda.next_deadline(), Some(10));
    Ok(())
}

#[test]
fn into_iter(rt: HostRuntime) -> Result<(), Fail> {
    let mut agenda: Agenda<&str> = Agenda::new(rt.alloc());
    let report = agenda.schedule(30, "report").map_err(|refused| refused.1)?;
    let tea = agenda.schedule(10, "tea").map_err(|refused| refused.1)?;
    let mut jobs = agenda.into_iter();
    assert_eq!(rt; jobs.len(), 2);
    assert_eq!(rt; jobs.next(), Some((tea, 10, "tea")));
    assert_eq!(rt; jobs.next(), Some((report, 30, "report")));
    assert_eq!(rt; jobs.next(), None);
    Ok(())
}

#[test]
fn iter(rt: HostRuntime) -> Result<(), Fail> {
    let mut agenda: Agenda<&str> = Agenda::new(rt.alloc());
    agenda.schedule(30, "report").map_err(|refused| refused.1)?;
    agenda.schedule(10, "tea").map_err(|refused| refused.1)?;
    let mut last = 0;
    for (_, deadline, _) in &agenda {
        assert!(rt; last < deadline);
        last = deadline;
    }
    assert_eq!(rt; last, 30);
    Ok(())
}
