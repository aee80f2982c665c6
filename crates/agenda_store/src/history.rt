//! Sessions of batches, and whole histories: sessions with a crash after each, at any moment.

ghost use Rattle.std.specs.Prelude.{◌≡◌, ◌≤◌, IfOk, OnOk, length};
ghost use Rattle.sqlite_trees.specs.Tree.{Trees};
ghost use Rattle.sqlite_trees.specs.View.{IsClean};
ghost use Rattle.job_table.specs.Table.{rows_of};
ghost use Rattle.agenda_store.specs.Requests.{IsSettled, StandsAfterSome};
ghost use Rattle.agenda_store.specs.History.{AreAnswered, IsHistory};

use crate::requests::{Reply, Request};
use crate::store::Store;
use job_table::StoreError;
use sqlite_trees::store::{Reopen, Store as Rows};
use std::alloc::Global;

/// What a session answered, and how it ended.
#[derive(Drop)]
pub struct Session {
    /// The replies to the batches that were answered, in order.
    pub replies: Vec<Vec<Reply>>,
    /// `Ok` if all batches were answered, else why the next one was not.
    pub end: Result<(), StoreError>,
}

impl<S: Rows> Store<S> {
    /// Runs batches in order until one fails or memory runs out, and returns the replies to those that were answered, with the error that
    /// ended the session, if one did.
    ///
    /// A crash at any moment leaves the plan after the answered batches, or after one more, which was in flight: no batch in part, none
    /// skipped, none that was answered lost.
    ///
    /// ```
    /// let tea = Vec::from_slice(rt.alloc(), b"tea")?;
    /// let scheduled = Vec::from_array(rt.alloc(), [Request::Schedule(10, tea)])?;
    /// let too_late = Vec::from_array(rt.alloc(), [Request::ClaimDue(10, u64::MAX)])?;
    /// let session = store.session(&[scheduled, too_late]);
    /// assert_eq!(rt; session.replies.len(), 1);
    /// assert!(rt; matches!(session.end, Err(StoreError::TooLate)));
    /// ```
    pub fn session(&mut self, batches: &[Vec<Request>]) -> Session
        ensures replies { AreAnswered batches.now self.old.plan result.replies.items }
        ensures all { OnOk result.end (length result.replies.items ≡ length batches.now) }
        ensures clean { IsClean (S.Store.view (rows_of self.new.table)) → IsClean (S.Store.view (rows_of self.old.table)) }
        ensures crash { IsClean (S.Store.view (rows_of self.new.table)) → IsSettled S.Store self.old
            → (trees : Trees) → S.Store.recovers (rows_of self.new.table) trees
            → StandsAfterSome trees (length result.replies.items) batches.now self.old.plan }
    {
        let mut replies = Vec::new(self.alloc);
        for batch in batches {
            let answers = match self.run(batch) {
                Ok(answers) => answers,
                Err(error) => return Session {
                    replies,
                    end: Err(error),
                },
            };
            if replies.push(answers).is_err() {
                return Session {
                    replies,
                    end: Err(StoreError::OutOfMemory),
                };
            }
        }
        Session {
            replies,
            end: Ok(()),
        }
    }
}

impl<S: Reopen> Store<S> {
    /// Runs the sessions, each until a batch fails, with a crash after each, and returns the replies of each. The plan is then what the
    /// answered batches made of it, give or take the one that was in flight at each crash.
    pub fn live(
        &mut self,
        alloc: Global,
        sessions: &[Vec<Vec<Request>>],
    ) -> Result<Vec<Vec<Vec<Reply>>>, StoreError>
        ensures { IfOk result (λ told. IsClean (S.Store.view (rows_of self.new.table)) → IsSettled S.Store self.old
            → IsHistory sessions.now told.items self.old.plan self.new.plan) }
    {
        let mut told = Vec::new(alloc);
        for session in sessions {
            let replies = self.session(session).replies;
            told.push(replies)?;
            self.reopen()?;
        }
        Ok(told)
    }
}
