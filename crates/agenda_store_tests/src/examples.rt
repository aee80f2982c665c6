//! The examples in the text of the calls of `Store`.

use agenda_store::{Reply, Request, Store, StoreError};
use job_table::JOB_OBJECT;
use sqlite_trees::memory::MemStore;
use std::process::Abort;
use std::test::Fail;

// An agenda without jobs, over rows in memory.
fn opened(rt: &HostRuntime) -> Result<Store<MemStore>, Fail> {
    let rows = MemStore::new(rt.alloc(), &[JOB_OBJECT])?;
    let store = Store::open(rt.alloc(), rows).map_err(|failed| failed.0)?;
    Ok(store)
}

#[test]
fn open(rt: HostRuntime) -> Result<(), Fail> {
    let rows = MemStore::new(rt.alloc(), &[JOB_OBJECT])?;
    let store = Store::open(rt.alloc(), rows).map_err(|failed| failed.0)?;
    assert_eq!(rt; store.len(), 0);
    Ok(())
}

#[test]
fn schedule(rt: HostRuntime) -> Result<(), Fail> {
    schedule_in(&rt, &mut opened(&rt)?)
}

fn schedule_in(rt: &impl Abort, store: &mut Store<MemStore>) -> Result<(), Fail> {
    let report = store.schedule(30, b"report")?;
    let tea = store.schedule(10, b"tea")?;
    store.commit()?;
    assert!(rt; report < tea);
    assert_eq!(rt; store.next_deadline(), Some(10));
    Ok(())
}

#[test]
fn cancel(rt: HostRuntime) -> Result<(), Fail> {
    cancel_in(&rt, &mut opened(&rt)?)
}

fn cancel_in(rt: &impl Abort, store: &mut Store<MemStore>) -> Result<(), Fail> {
    let tea = store.schedule(10, b"tea")?;
    assert_eq!(rt; store.cancel(tea)?.map(|job| job.deadline), Some(10));
    assert!(rt; store.cancel(tea)?.is_none());
    Ok(())
}

#[test]
fn reschedule(rt: HostRuntime) -> Result<(), Fail> {
    reschedule_in(&rt, &mut opened(&rt)?)
}

fn reschedule_in(rt: &impl Abort, store: &mut Store<MemStore>) -> Result<(), Fail> {
    let tea = store.schedule(10, b"tea")?;
    assert!(rt; store.reschedule(tea, 40)?);
    assert_eq!(rt; store.get(tea).map(|job| job.deadline), Some(40));
    Ok(())
}

#[test]
fn pop_due(rt: HostRuntime) -> Result<(), Fail> {
    pop_due_in(&rt, &mut opened(&rt)?)
}

fn pop_due_in(rt: &impl Abort, store: &mut Store<MemStore>) -> Result<(), Fail> {
    let tea = store.schedule(10, b"tea")?;
    assert!(rt; store.pop_due(9)?.is_none());
    assert_eq!(rt; store.pop_due(10)?.map(|job| job.id), Some(tea));
    Ok(())
}

#[test]
fn claim_due(rt: HostRuntime) -> Result<(), Fail> {
    claim_due_in(&rt, &mut opened(&rt)?)
}

fn claim_due_in(rt: &impl Abort, store: &mut Store<MemStore>) -> Result<(), Fail> {
    let tea = store.schedule(10, b"tea")?;
    assert_eq!(rt; store.claim_due(20, 80)?.map(|job| job.id), Some(tea));
    assert_eq!(rt;
        store.get(tea).map(|job| (job.deadline, job.attempts)),
        Some((80, 1))
    );
    Ok(())
}

#[test]
fn peek(rt: HostRuntime) -> Result<(), Fail> {
    peek_in(&rt, &mut opened(&rt)?)
}

fn peek_in(rt: &impl Abort, store: &mut Store<MemStore>) -> Result<(), Fail> {
    store.schedule(30, b"report")?;
    let tea = store.schedule(10, b"tea")?;
    assert_eq!(rt; store.peek().map(|job| job.id), Some(tea));
    Ok(())
}

#[test]
fn rollback(rt: HostRuntime) -> Result<(), Fail> {
    rollback_in(&rt, &mut opened(&rt)?)
}

fn rollback_in(rt: &impl Abort, store: &mut Store<MemStore>) -> Result<(), Fail> {
    store.schedule(10, b"tea")?;
    store.commit()?;
    store.schedule(30, b"report")?;
    store.rollback()?;
    assert_eq!(rt; store.len(), 1);
    Ok(())
}

#[test]
fn run(rt: HostRuntime) -> Result<(), Fail> {
    run_in(&rt, &mut opened(&rt)?)
}

fn run_in(rt: &(impl Abort + AllocGlobal), store: &mut Store<MemStore>) -> Result<(), Fail> {
    let tea = Vec::from_slice(rt.alloc(), b"tea")?;
    let replies = store.run(&[Request::Schedule(10, tea), Request::PopDue(10)])?;
    assert_eq!(rt; replies.len(), 2);
    assert!(rt; matches!(replies.last(), Some(Reply::Popped(Some(_)))));
    Ok(())
}

#[test]
fn session(rt: HostRuntime) -> Result<(), Fail> {
    session_in(&rt, &mut opened(&rt)?)
}

fn session_in(rt: &(impl Abort + AllocGlobal), store: &mut Store<MemStore>) -> Result<(), Fail> {
    let tea = Vec::from_slice(rt.alloc(), b"tea")?;
    let scheduled = Vec::from_array(rt.alloc(), [Request::Schedule(10, tea)])?;
    let too_late = Vec::from_array(rt.alloc(), [Request::ClaimDue(10, u64::MAX)])?;
    let session = store.session(&[scheduled, too_late]);
    assert_eq!(rt; session.replies.len(), 1);
    assert!(rt; matches!(session.end, Err(StoreError::TooLate)));
    Ok(())
}
