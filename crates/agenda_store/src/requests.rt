//! `Request` and `Reply`: what a caller asks of a store, as values; and batches of requests, each made to last by one commit.

ghost use Rattle.std.specs.Prelude.{◌≡◌, ◌⊎◌, IsTrue, IfOk, OnOk, OnErr};
ghost use Rattle.sqlite_trees.specs.Tree.{Trees};
ghost use Rattle.sqlite_trees.specs.View.{IsClean};
ghost use Rattle.job_table.specs.Table.{TreesStandFor, rows_of};
ghost use Rattle.agenda_store.specs.Requests.{answered, answered_all, IsReply, AllReply};
ghost use Rattle.agenda_store.specs.Store.{IsClosed};

use crate::job::{Job, JobId};
use crate::store::Store;
use job_table::{MAX_BYTES, MAX_DEADLINE, StoreError};
use sqlite_trees::store::Store as Rows;

/// What a caller asks of a store.
#[derive(Drop)]
pub enum Request {
    /// Schedule a job by its deadline and its bytes.
    Schedule(u64, Vec<u8>),
    /// Take the job of a number off.
    Cancel(JobId),
    /// Give the job of a number another deadline.
    Reschedule(JobId, u64),
    /// Take the first job off if it is due at a time.
    PopDue(u64),
    /// Claim the first job if it is due at a time; it is due again at another.
    ClaimDue(u64, u64),
}

/// What a store answers to a request.
#[derive(Drop)]
pub enum Reply {
    /// The number of the job that was scheduled.
    Scheduled(JobId),
    /// The job that was taken off. `None`: the number names no job.
    Cancelled(Option<Job>),
    /// Whether the number names a job.
    Rescheduled(bool),
    /// The job that was taken off. `None`: no job is due.
    Popped(Option<Job>),
    /// The job that was claimed. `None`: no job is due.
    Claimed(Option<Job>),
}

// Returns why a request is refused whatever the jobs are.
fn refusal(request: &Request) -> Option<StoreError> {
    match request {
        Request::Schedule(_, bytes) if bytes.len() > MAX_BYTES => Some(StoreError::TooLong),
        Request::Schedule(deadline, _) | Request::Reschedule(_, deadline)
            if *deadline > MAX_DEADLINE => { Some(StoreError::TooLate) }
        Request::ClaimDue(_, until) if *until > MAX_DEADLINE => Some(StoreError::TooLate),
        _ => None,
    }
}

// Returns why the first of the requests that is refused is so.
fn first_refusal(requests: &[Request]) -> Option<StoreError> {
    for request in requests {
        if let Some(error) = refusal(request) {
            return Some(error);
        }
    }
    None
}

impl<S: Rows> Store<S> {
    // Does what a request asks for. It lasts once it is committed.
    fn answer(&mut self, request: &Request) -> Result<Reply, StoreError>
        ensures plan { OnOk result (self.new.plan ≡ answered request.now self.old.plan) }
        ensures reply { IfOk result (λ reply. IsReply request.now self.old.plan reply) }
        ensures open { OnOk result (IsTrue self.new.is_open) }
        ensures clean { IsClean (S.Store.view (rows_of self.new.table)) → IsClean (S.Store.view (rows_of self.old.table)) }
        ensures crash { (trees : Trees) → S.Store.recovers (rows_of self.new.table) trees → S.Store.recovers (rows_of self.old.table) trees }
    {
        match request {
            Request::Schedule(deadline, bytes) => {
                let id = self.schedule(*deadline, bytes)?;
                Ok(Reply::Scheduled(id))
            }
            Request::Cancel(id) => {
                let job = self.cancel(*id)?;
                Ok(Reply::Cancelled(job))
            }
            Request::Reschedule(id, deadline) => {
                let is_found = self.reschedule(*id, *deadline)?;
                Ok(Reply::Rescheduled(is_found))
            }
            Request::PopDue(now) => {
                let job = self.pop_due(*now)?;
                Ok(Reply::Popped(job))
            }
            Request::ClaimDue(now, until) => {
                let job = self.claim_due(*now, *until)?;
                Ok(Reply::Claimed(job))
            }
        }
    }

    // Does what the requests ask for, in order, and commits.
    fn answer_all(&mut self, requests: &[Request]) -> Result<Vec<Reply>, StoreError>
        ensures plan { OnOk result (self.new.plan ≡ answered_all requests.now self.old.plan) }
        ensures replies { IfOk result (λ replies. AllReply requests.now self.old.plan replies.items) }
        ensures open { OnOk result (IsTrue self.new.is_open) }
        ensures clean { IsClean (S.Store.view (rows_of self.new.table)) → IsClean (S.Store.view (rows_of self.old.table)) }
        ensures durable { OnOk result (IsClean (S.Store.view (rows_of self.new.table)) → (trees : Trees)
            → S.Store.recovers (rows_of self.new.table) trees → TreesStandFor trees (answered_all requests.now self.old.plan)) }
        ensures crash { IsClean (S.Store.view (rows_of self.new.table)) → (trees : Trees) → S.Store.recovers (rows_of self.new.table) trees
            → TreesStandFor trees (answered_all requests.now self.old.plan) ⊎ S.Store.recovers (rows_of self.old.table) trees }
    {
        let mut replies = Vec::with_capacity(self.alloc, requests.len())?;
        for request in requests {
            let reply = self.answer(request)?;
            replies.push(reply)?;
        }
        self.commit()?;
        Ok(replies)
    }

    /// Does what the requests ask for, in order, makes it last by one commit, and returns the reply to each.
    ///
    /// A crash at any moment leaves the whole batch, or what it could leave before. After `Ok` every crash leaves the whole batch.
    ///
    /// ```
    /// let tea = Vec::from_slice(rt.alloc(), b"tea")?;
    /// let replies = store.run(&[Request::Schedule(10, tea), Request::PopDue(10)])?;
    /// assert_eq!(rt; replies.len(), 2);
    /// assert!(rt; matches!(replies.last(), Some(Reply::Popped(Some(_)))));
    /// ```
    ///
    /// # Errors
    ///
    /// No part of the batch lasts, unless the commit itself failed and a crash comes before [`rollback`](Self::rollback).
    /// - `TooLong`, `TooLate`: a request is refused whatever the jobs are; `Closed`: an earlier call failed. The store is unchanged.
    /// - Any other: the store is closed, and `rollback` goes back to the last commit.
    pub fn run(&mut self, requests: &[Request]) -> Result<Vec<Reply>, StoreError>
        ensures plan { OnOk result (self.new.plan ≡ answered_all requests.now self.old.plan) }
        ensures replies { IfOk result (λ replies. AllReply requests.now self.old.plan replies.items) }
        ensures open { OnOk result (IsTrue self.new.is_open) }
        ensures closed { OnErr result ((self.new ≡ self.old) ⊎ IsClosed self.new) }
        ensures clean { IsClean (S.Store.view (rows_of self.new.table)) → IsClean (S.Store.view (rows_of self.old.table)) }
        ensures durable { OnOk result (IsClean (S.Store.view (rows_of self.new.table)) → (trees : Trees)
            → S.Store.recovers (rows_of self.new.table) trees → TreesStandFor trees (answered_all requests.now self.old.plan)) }
        ensures crash { IsClean (S.Store.view (rows_of self.new.table)) → (trees : Trees) → S.Store.recovers (rows_of self.new.table) trees
            → TreesStandFor trees (answered_all requests.now self.old.plan) ⊎ S.Store.recovers (rows_of self.old.table) trees }
    {
        if !self.is_open {
            return Err(StoreError::Closed);
        }
        if let Some(error) = first_refusal(requests) {
            return Err(error);
        }
        let replies = self.answer_all(requests);
        if replies.is_err() {
            self.is_open = false;
        }
        replies
    }
}
