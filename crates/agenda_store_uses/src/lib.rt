//! What users of `agenda_store` prove with no proof file: a worker that loses no job, and a batch whose replies give the numbers.
#![tactic(auto)]

ghost use Rattle.std.specs.Prelude.{◌≡◌, Some, IfOk, OnOk};
ghost use Rattle.std.specs.Option.{option_map};
ghost use Rattle.sqlite_trees.specs.Tree.{Trees};
ghost use Rattle.sqlite_trees.specs.View.{IsClean};
ghost use Rattle.agenda_store.specs.Plan.{cancelled, claimed, scheduled};
ghost use Rattle.agenda_store.specs.Table.{TreesStandFor, rows_of};

use agenda_store::{Job, JobId, Reply, Request, Store, StoreError};
use sqlite_trees::store::Store as Rows;

/// Claims the first job that is due at `now`, before anyone works on it. A crash from then on leaves the job, due again at `until`.
pub fn claim<S: Rows>(store: &mut Store<S>, now: u64, until: u64) -> Result<Option<Job>, StoreError>
    ensures lasts { OnOk result (IsClean (S.Store.view (rows_of store.new.table)) → (trees : Trees)
        → S.Store.recovers (rows_of store.new.table) trees → TreesStandFor trees (claimed now until store.old.plan)) }
{
    let job = store.claim_due(now, until)?;
    store.commit()?;
    Ok(job)
}

/// Takes a job off whose work is done. A crash from then on leaves the plan without it.
pub fn acknowledge<S: Rows>(store: &mut Store<S>, id: JobId) -> Result<(), StoreError>
    ensures lasts { OnOk result (IsClean (S.Store.view (rows_of store.new.table)) → (trees : Trees)
        → S.Store.recovers (rows_of store.new.table) trees → TreesStandFor trees (cancelled id.0 store.old.plan)) }
{
    let _ = store.cancel(id)?;
    store.commit()?;
    Ok(())
}

/// Schedules a job by a batch, and returns its number.
pub fn schedule<S: Rows>(
    store: &mut Store<S>,
    deadline: u64,
    bytes: Vec<u8>,
) -> Result<Option<JobId>, StoreError>
    ensures plan { OnOk result (store.new.plan ≡ scheduled deadline bytes.items store.old.plan) }
    ensures id { IfOk result (λ id. option_map (λ id. id.0) id ≡ Some store.old.plan.next) }
{
    let replies = store.run(&[Request::Schedule(deadline, bytes)])?;
    match replies.first() {
        Some(Reply::Scheduled(id)) => Ok(Some(*id)),
        _ => Ok(None),
    }
}
