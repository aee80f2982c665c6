//! The results of each call over five jobs, with 8-bit pointers. In order the deadlines are 10, 30, 50, 60, 70, at the indexes 5, 2, 1,
//! 4, 3. Each job is marked with a tenth of its deadline.
use arena_base::{BasePtr, ItemsMut, P8};
use std::alloc::Global;
use std::cmp::Ordering;
use triple_ord::{SimpleOrdArena, SimpleOrdItem};

/// An item with its key in a field.
#[derive(Drop)]
struct Job {
    mark: u64,
    deadline: u64,
}

impl SimpleOrdItem for Job {
    type Key = u64;

    ghost key_of = { λ j. j.deadline };

    fn key(&self) -> &u64 {
        &self.deadline
    }
}

type Jobs = SimpleOrdArena<P8, Job>;

/// The pointer of an entry inserted before any removal.
fn at(index: u8) -> P8 {
    P8::_from_raw(index, 2)
}

/// The mark of a replaced item, 0 if there was none.
fn mark_before(before: Option<Job>) -> u64 {
    match before {
        Some(job) => job.mark,
        None => 0,
    }
}

/// Inserts a job. Returns its pointer and the mark that it replaced, or `None` on `Err`.
fn put(a: &mut Jobs, deadline: u64, mark: u64) -> Option<(P8, u64)> {
    let (p, before) = a.insert(Job { mark, deadline }).ok()?;
    Some((p, mark_before(before)))
}

/// The five jobs.
fn five(alloc: Global) -> Jobs {
    let mut a = Jobs::new(alloc);
    for deadline in &[50u64, 30, 70, 60, 10] {
        let _ = put(&mut a, *deadline, *deadline / 10);
    }
    a
}

/// The results of a search for a deadline and of a search for a similar one, and the visits of both. `None` if the searches without
/// counts differ, or if one of the two visits more than the other.
fn found(a: &Jobs, deadline: u64) -> Option<(Option<P8>, Option<(P8, Ordering)>, u128)> {
    let (equal, visits) = a.find_key_counted(&deadline);
    let (similar, similar_visits) = a.find_similar_key_counted(&deadline);
    let is_same = a.find_key(&deadline) == equal && a.find_similar_key(&deadline) == similar;
    if is_same && visits == similar_visits {
        Some((equal, similar, visits.count()))
    } else {
        None
    }
}

/// A deadline, the index and the order at which a search for it ends, and the visits.
const SOUGHT: [(u64, u8, Ordering, u128); 7] = [
    (50, 1, Ordering::Equal, 2),
    (30, 2, Ordering::Equal, 3),
    (70, 3, Ordering::Equal, 3),
    (10, 5, Ordering::Equal, 3),
    (53, 4, Ordering::Less, 3),
    (40, 2, Ordering::Greater, 2),
    (99, 3, Ordering::Greater, 2),
];

#[test]
fn a_deadline_finds_its_pointer_or_a_neighbour(rt: HostRuntime) {
    let a = five(rt.alloc());
    for (deadline, index, order, visits) in &SOUGHT {
        let p = at(*index);
        let equal = if order.is_eq() { Some(p) } else { None };
        let wanted = Some((equal, Some((p, *order)), *visits));
        assert!(rt; found(&a, *deadline) == wanted);
    }
}

/// The mark of a pointer's item, 0 if there is none.
fn mark_of(a: &Jobs, p: P8) -> u64 {
    match a.get(p) {
        Some(job) => job.mark,
        None => 0,
    }
}

/// The deadline of a pointer, read in place, 0 if there is none.
fn deadline_in_place(a: &Jobs, p: P8) -> u64 {
    if a.contains(p) { a[p].deadline } else { 0 }
}

/// The generation and the deadline at an index.
fn deadline_at_index(a: &Jobs, i: u8) -> Option<(u8, u64)> {
    let (generation, job) = a.get_inx(i)?;
    Some((generation, job.deadline))
}

/// The deadline at an index, and the indexes of its neighbours in the list.
fn neighbours_of(a: &Jobs, i: u8) -> Option<(u64, Option<u8>, Option<u8>)> {
    let (_, link) = a.get_inx_link_no_gen(i)?;
    Some((link.t.deadline, link.prev(), link.next()))
}

#[test]
fn a_pointer_finds_its_item(rt: HostRuntime) {
    let a = five(rt.alloc());
    for (index, deadline) in &[(5u8, 10u64), (2, 30), (1, 50), (4, 60), (3, 70)] {
        let p = at(*index);
        assert!(rt; (mark_of(&a, p), deadline_in_place(&a, p)) == (*deadline / 10, *deadline));
        assert!(rt; deadline_at_index(&a, *index) == Some((2, *deadline)));
    }
    assert!(rt; neighbours_of(&a, 4) == Some((60, Some(1), Some(3))));
    assert!(rt; (a.first(), a.last()) == (Some(at(5)), Some(at(3))));
}

/// Marks a pointer's item, if there is one.
fn mark_by_pointer(a: &mut Jobs, p: P8, mark: u64) {
    if let Some(job) = a.get_mut(p) {
        job.mark = mark;
    }
}

/// Marks the item at an index, if there is one.
fn mark_by_index(a: &mut Jobs, i: u8, mark: u64) {
    if let Some((_, job)) = a.get_inx_mut(i) {
        job.mark = mark;
    }
}

/// Marks a pointer's item in place, if there is one.
fn mark_in_place(a: &mut Jobs, p: P8, mark: u64) {
    if a.contains(p) {
        a[p].mark = mark;
    }
}

/// Removes the entry at an index, and returns its generation and its mark.
fn taken_at_index(a: &mut Jobs, i: u8) -> Option<(u8, u64)> {
    let (generation, job) = a.remove_inx(i).allow()?;
    Some((generation, job.mark))
}

#[test]
fn a_pointer_reads_what_each_call_writes(rt: HostRuntime) {
    let mut a = five(rt.alloc());
    let p = at(4);
    assert!(rt; put(&mut a, 60, 8) == Some((p, 6)) && mark_of(&a, p) == 8);
    mark_by_pointer(&mut a, p, 11);
    assert!(rt; mark_of(&a, p) == 11);
    mark_by_index(&mut a, 4, 12);
    assert!(rt; mark_of(&a, p) == 12);
    mark_in_place(&mut a, p, 13);
    assert!(rt; mark_of(&a, p) == 13);
    let _ = a.inc_generation();
    assert!(rt; taken_at_index(&mut a, 4) == Some((2, 13)));
    assert!(rt; (mark_of(&a, p), a.len(), a.generation()) == (0, 4, 4));
}
