//! The files of the earlier format: a log of records, each a change of the jobs.

use crate::failure::Failure;
use agenda_store::StoreError;
use job_table::{MAX_DEADLINE, MAX_NUMBER, put_job, put_next};
use sqlite_trees::store::Store as Rows;
use sqlite_value::row::Row;
use std::alloc::{AllocError, Global};
use std::collections::BTreeMap;
use thiserror::Error;

/// The first bytes of a file: a name, a line feed and the version.
const HEADER: &[u8] = b"reclog\n\x01";

/// The byte in front of a record that counts.
const OPEN: u8 = 1;

/// Why a file isn't read.
#[derive(Debug, Clone, Copy, PartialEq, Eq, Drop, Error)]
pub enum OldFault {
    #[error("no file of the earlier format")]
    NoLog,
    #[error("damaged behind record {0}")]
    Damaged(usize),
    #[error("job {0} has a number or a deadline above 9223372036854775806")]
    TooLarge(u64),
    #[error("out of memory")]
    Memory,
}

impl From<AllocError> for OldFault {
    fn from(_: AllocError) -> OldFault {
        OldFault::Memory
    }
}

/// The jobs of a file, and the number of the next one.
#[derive(Drop)]
pub struct OldJobs {
    jobs: BTreeMap<u64, OldJob>,
    next: u64,
    changes: u64,
}

// A job: its deadline, which of the changes gave it that, and its bytes.
#[derive(Drop)]
struct OldJob {
    deadline: u64,
    change: u64,
    bytes: Vec<u8>,
}

impl OldJobs {
    /// Reads a file: its records in order, up to the first that doesn't count.
    pub fn read(alloc: Global, file: &[u8]) -> Result<OldJobs, OldFault> {
        let Some(mut rest) = file.strip_prefix(HEADER) else {
            return Err(OldFault::NoLog);
        };
        let mut jobs = OldJobs {
            jobs: BTreeMap::new(alloc),
            next: 1,
            changes: 0,
        };
        for records in 0..usize::MAX {
            let [OPEN, behind_gate @ ..] = rest else {
                break;
            };
            if behind_gate.is_empty() {
                break;
            }
            let Some((record, behind)) = split_record(behind_gate) else {
                return Err(OldFault::Damaged(records));
            };
            if jobs.replay(alloc, record)?.is_none() {
                return Err(OldFault::Damaged(records));
            }
            rest = behind;
        }
        Ok(jobs)
    }

    // Makes the change that a record spells, or returns `None` if it spells none.
    fn replay(&mut self, alloc: Global, record: &[u8]) -> Result<Option<()>, OldFault> {
        let Some((kind, rest)) = record.split_first() else {
            return Ok(None);
        };
        self.changes = self.changes.saturating_add(1);
        let Some((number, bytes)) = split_number(rest) else {
            return Ok(None);
        };
        match *kind {
            1 => {
                let id = self.next;
                self.next = self.next.saturating_add(1);
                self.put(id, number, Vec::from_slice(alloc, bytes)?)?;
            }
            2 => {
                let _ = self.jobs.remove(&number);
            }
            3 => {
                let Some((deadline, _)) = split_number(bytes) else {
                    return Ok(None);
                };
                if let Some(job) = self.jobs.get_mut(&number) {
                    job.deadline = deadline;
                    job.change = self.changes;
                }
            }
            4 => self.next = number,
            5 => {
                let Some((deadline, bytes)) = split_number(bytes) else {
                    return Ok(None);
                };
                self.put(number, deadline, Vec::from_slice(alloc, bytes)?)?;
            }
            _ => return Ok(None),
        }
        Ok(Some(()))
    }

    fn put(&mut self, id: u64, deadline: u64, bytes: Vec<u8>) -> Result<(), OldFault> {
        let change = self.changes;
        let job = OldJob {
            deadline,
            change,
            bytes,
        };
        match self.jobs.insert(id, job) {
            Ok(_) => Ok(()),
            Err(_) => Err(OldFault::Memory),
        }
    }

    /// Puts the jobs into the rows of an agenda that has none, and commits them all at once.
    pub fn fill<S: Rows>(&self, alloc: Global, rows: &mut S) -> Result<(), Failure> {
        let mut row = Row::new(alloc);
        for (id, job) in self.jobs.iter() {
            let (id, deadline, turn) = (*id, job.deadline, job.change);
            if deadline > MAX_DEADLINE || id > MAX_NUMBER || turn > MAX_NUMBER {
                return Err(Failure::Old(OldFault::TooLarge(id)));
            }
            put_job(rows, &mut row, id, deadline, turn, 0, &job.bytes)?;
        }
        if self.next > MAX_NUMBER {
            return Err(Failure::Old(OldFault::TooLarge(self.next)));
        }
        put_next(rows, &mut row, self.next)?;
        match rows.commit() {
            Ok(()) => Ok(()),
            Err(error) => Err(Failure::from(StoreError::Rows(error))),
        }
    }
}

// Splits a record, which has its length and its checksum in front, from what follows it.
fn split_record(bytes: &[u8]) -> Option<(&[u8], &[u8])> {
    let [a, b, c, d, e, f, g, h, rest @ ..] = bytes else {
        return None;
    };
    let len = u32::from_be_bytes([*a, *b, *c, *d]) as usize;
    if rest.len() < len {
        return None;
    }
    let (record, behind) = rest.split_at(len);
    if checksum_of(record) != u32::from_be_bytes([*e, *f, *g, *h]) {
        return None;
    }
    Some((record, behind))
}

// Returns the FNV-1a checksum.
fn checksum_of(bytes: &[u8]) -> u32 {
    let mut sum: u32 = 0x811c_9dc5;
    for byte in bytes {
        sum = (sum ^ u32::from(*byte)).wrapping_mul(0x0100_0193);
    }
    sum
}

// Returns the number in front, and the bytes behind it.
fn split_number(bytes: &[u8]) -> Option<(u64, &[u8])> {
    let [a, b, c, d, e, f, g, h, rest @ ..] = bytes else {
        return None;
    };
    let number = u64::from_be_bytes([*a, *b, *c, *d, *e, *f, *g, *h]);
    Some((number, rest))
}
