//! The table of jobs: how a job is a row, and the calls on the rows.

ghost use Rattle.std.specs.Prelude.{◌≡◌, ◌<◌, ◌^◌, IsTrue, IfOk, IfErr, IfSome, OnOk, false};
ghost use Rattle.sqlite_trees.specs.View.{IsClean, IsQuiet};
ghost use Rattle.job_table.specs.Table.{job_row, next_row, IsPut, IsDeleted};
ghost use Rattle.job_table.specs.Entries.{entry_row, IsRead};
ghost use Rattle.job_table.specs.Causes.{HasFault, IsCause};

use crate::error::StoreError;
use sqlite_trees::store::{Direction, Shape, Store as Rows};
use sqlite_value::row::Row;
use sqlite_value::value::ValueRef;
use std::alloc::{AllocError, Global};

/// The most bytes that a job may have.
pub const MAX_BYTES: usize = 65536;

/// The latest deadline.
pub const MAX_DEADLINE: u64 = (1 << 63) - 1;

/// The greatest number, turn and count of attempts.
pub const MAX_NUMBER: u64 = (1 << 63) - 2;

/// The number of the table among the trees of the database.
pub const JOBS: u32 = 0;

/// A row, as it was read.
#[derive(Drop)]
pub struct Entry {
    pub turn: u64,
    pub id: u64,
    pub deadline: u64,
    pub attempts: u64,
    pub bytes: Vec<u8>,
}

// Writes the row of a job.
fn spell_job(
    row: &mut Row,
    id: u64,
    deadline: u64,
    turn: u64,
    attempts: u64,
    bytes: &[u8],
) -> Result<(), AllocError>
    requires id { id < 2 ^ 63 }
    requires deadline { deadline < 2 ^ 63 }
    requires turn { turn < 2 ^ 63 }
    requires attempts { attempts < 2 ^ 63 }
    ensures { OnOk result (row.new ≡ job_row turn (record { id = id; deadline = deadline; attempts = attempts; bytes = bytes.now })) }
{
    row.clear();
    row.push(ValueRef::Int(id as i64))?;
    row.push(ValueRef::Null)?;
    row.push(ValueRef::Int(deadline as i64))?;
    row.push(ValueRef::Int(turn as i64))?;
    row.push(ValueRef::Int(attempts as i64))?;
    row.push(ValueRef::Blob(bytes))
}

// Writes the row of the number that comes next.
fn spell_next(row: &mut Row, id: u64) -> Result<(), AllocError>
    requires { id < 2 ^ 63 }
    ensures { OnOk result (row.new ≡ next_row id) }
{
    row.clear();
    row.push(ValueRef::Int(id as i64))?;
    row.push(ValueRef::Null)?;
    row.push(ValueRef::Null)?;
    row.push(ValueRef::Null)?;
    row.push(ValueRef::Null)?;
    row.push(ValueRef::Null)
}

/// Puts the row of a job, over the row that has its number.
pub fn put_job<S: Rows>(
    rows: &mut S,
    row: &mut Row,
    id: u64,
    deadline: u64,
    turn: u64,
    attempts: u64,
    bytes: &[u8],
) -> Result<(), StoreError>
    requires id { id < 2 ^ 63 }
    requires deadline { deadline < 2 ^ 63 }
    requires turn { turn < 2 ^ 63 }
    requires attempts { attempts < 2 ^ 63 }
    ensures ok { OnOk result (IsClean (S.Store.view rows.new) → IsPut (S.Store.view rows.old) (S.Store.view rows.new)
        (job_row turn (record { id = id; deadline = deadline; attempts = attempts; bytes = bytes.now }))) }
    ensures cause { IfErr result (λ e. IsClean (S.Store.view rows.new) → (S.Store.view rows.old).is_broken ≡ false → (S.Store.view rows.old).shape 0 ≡ Shape.Table
        → IsCause (HasFault S.Store rows.old rows.new) ⊥ ⊥ ⊥ ⊥ e) }
    ensures quiet { IsQuiet S.Store.view S.Store.faults S.Store.recovers S.Store.is_shielded rows.old rows.new }
{
    spell_job(row, id, deadline, turn, attempts, bytes)?;
    if rows.shape(JOBS) != Shape::Table {
        return Err(StoreError::NotAnAgenda);
    }
    rows.put(JOBS, row)?;
    Ok(())
}

/// Puts the row of the number that comes next.
pub fn put_next<S: Rows>(rows: &mut S, row: &mut Row, id: u64) -> Result<(), StoreError>
    requires { id < 2 ^ 63 }
    ensures ok { OnOk result (IsClean (S.Store.view rows.new) → IsPut (S.Store.view rows.old) (S.Store.view rows.new) (next_row id)) }
    ensures cause { IfErr result (λ e. IsClean (S.Store.view rows.new) → (S.Store.view rows.old).is_broken ≡ false → (S.Store.view rows.old).shape 0 ≡ Shape.Table
        → IsCause (HasFault S.Store rows.old rows.new) ⊥ ⊥ ⊥ ⊥ e) }
    ensures quiet { IsQuiet S.Store.view S.Store.faults S.Store.recovers S.Store.is_shielded rows.old rows.new }
{
    spell_next(row, id)?;
    if rows.shape(JOBS) != Shape::Table {
        return Err(StoreError::NotAnAgenda);
    }
    rows.put(JOBS, row)?;
    Ok(())
}

/// Deletes the row of a number.
pub fn delete<S: Rows>(rows: &mut S, id: u64) -> Result<(), StoreError>
    requires { id < 2 ^ 63 }
    ensures ok { OnOk result (IsClean (S.Store.view rows.new) → IsDeleted (S.Store.view rows.old) (S.Store.view rows.new) id) }
    ensures cause { IfErr result (λ e. IsClean (S.Store.view rows.new) → (S.Store.view rows.old).is_broken ≡ false → (S.Store.view rows.old).shape 0 ≡ Shape.Table
        → IsCause (HasFault S.Store rows.old rows.new) ⊥ ⊥ ⊥ ⊥ e) }
    ensures quiet { IsQuiet S.Store.view S.Store.faults S.Store.recovers S.Store.is_shielded rows.old rows.new }
{
    if rows.shape(JOBS) != Shape::Table {
        return Err(StoreError::NotAnAgenda);
    }
    rows.delete(JOBS, id as i64)?;
    Ok(())
}

// Returns the number that a value is.
fn number(value: ValueRef<'_>) -> Option<u64>
    ensures { IfSome result (λ n. n < 2 ^ 63) }
{
    match value {
        ValueRef::Int(n) if n >= 0 => Some(n as u64),
        _ => None,
    }
}

/// What a row says.
enum Said {
    Job(Entry),
    Next(u64),
    Nothing,
}

// Returns what a row says.
fn read(alloc: Global, row: &Row) -> Result<Said, AllocError> {
    let Some(id) = number(row.get(0)) else {
        return Ok(Said::Nothing);
    };
    if let ValueRef::Null = row.get(2) {
        return Ok(Said::Next(id));
    }
    let numbers = (number(row.get(2)), number(row.get(3)), number(row.get(4)));
    let (Some(deadline), Some(turn), Some(attempts)) = numbers else {
        return Ok(Said::Nothing);
    };
    match row.get(5) {
        ValueRef::Blob(bytes) if bytes.len() <= MAX_BYTES => Ok(Said::Job(Entry {
            turn,
            id,
            deadline,
            attempts,
            bytes: Vec::from_slice(alloc, bytes)?,
        })),
        _ => Ok(Said::Nothing),
    }
}

/// Returns the jobs of the rows, in the order of their numbers, and the number that comes next. Each row is spelled again and compared, so
/// no other row passes.
pub(crate) fn read_all<S: Rows>(
    alloc: Global,
    rows: &mut S,
) -> Result<(Vec<Entry>, u64), StoreError>
    ensures ok { IfOk result (λ r. IsClean (S.Store.view rows.new) → IsRead (S.Store.view rows.old) (S.Store.view rows.new) r.0.items r.1) }
    ensures quiet { IsQuiet S.Store.view S.Store.faults S.Store.recovers S.Store.is_shielded rows.old rows.new }
{
    if rows.shape(JOBS) != Shape::Table {
        return Err(StoreError::NotAnAgenda);
    }
    let mut row = Row::new(alloc);
    let mut again = Row::new(alloc);
    let mut entries = Vec::new(alloc);
    rows.seek(0, JOBS, &row, Direction::Forward)?;
    // A disk that lies could keep a cursor going, so the loop counts.
    'rows: for _ in 0..u64::MAX {
        if !rows.next(0, &mut row)? {
            return Err(StoreError::NotAnAgenda);
        }
        match read(alloc, &row)? {
            Said::Job(entry) => {
                if !is_row_of(&row, &mut again, &entry)? {
                    return Err(StoreError::NotAnAgenda);
                }
                entries.push(entry)?;
            }
            Said::Next(id) => {
                if !is_row_of_next(&row, &mut again, id)? {
                    return Err(StoreError::NotAnAgenda);
                }
                if rows.next(0, &mut row)? {
                    return Err(StoreError::NotAnAgenda);
                }
                return Ok((entries, id));
            }
            Said::Nothing => return Err(StoreError::NotAnAgenda),
        }
    }
    Err(StoreError::NotAnAgenda)
}

// Returns whether a row is that of this job. It spells the job into `again`.
fn is_row_of(row: &Row, again: &mut Row, entry: &Entry) -> Result<bool, AllocError>
    ensures { IfOk result (λ is. IsTrue is → row.now ≡ entry_row entry.now) }
{
    let greatest = entry.id.max(entry.turn).max(entry.attempts);
    if greatest > MAX_NUMBER || entry.deadline > MAX_DEADLINE {
        return Ok(false);
    }
    spell_job(
        again,
        entry.id,
        entry.deadline,
        entry.turn,
        entry.attempts,
        &entry.bytes,
    )?;
    Ok(row.is_same(again))
}

// Returns whether a row is that of this next number. It spells that into `again`.
fn is_row_of_next(row: &Row, again: &mut Row, id: u64) -> Result<bool, AllocError>
    ensures { IfOk result (λ is. IsTrue is → row.now ≡ next_row id) }
{
    if id > MAX_NUMBER {
        return Ok(false);
    }
    spell_next(again, id)?;
    Ok(row.is_same(again))
}
