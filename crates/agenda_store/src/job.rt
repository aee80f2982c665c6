//! `Job` and `JobRef`: a job as it is handed out, and as it is lent.

/// The number of a job. Numbers count up from 1, and none is given twice.
#[derive(Clone, Copy, Debug, PartialEq, Eq, PartialOrd, Ord)]
pub struct JobId(pub u64);

/// A job that was taken off or claimed.
#[derive(Drop)]
pub struct Job {
    pub id: JobId,
    pub deadline: u64,
    /// How often the job was claimed.
    pub attempts: u64,
    pub bytes: Vec<u8>,
}

/// A job of a store, whose bytes are lent.
#[derive(Clone, Copy)]
pub struct JobRef<'a> {
    pub id: JobId,
    pub deadline: u64,
    /// How often the job was claimed.
    pub attempts: u64,
    pub bytes: &'a [u8],
}
