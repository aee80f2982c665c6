//! Why a call was refused.
use thiserror::Error;

/// Why [`insert_unique`](crate::SortedArena::insert_unique) inserted nothing.
#[derive(Debug, Clone, Copy, PartialEq, Eq, Drop, Error)]
pub enum UniqueInsertionError<P> {
    /// An entry has an equal key: the first that has one is at this pointer.
    #[error("an entry has an equal key")]
    EqualKey(P),
    /// The arena is full, and its capacity is at the limit.
    #[error("no room within the maximum capacity")]
    BeyondMaxCapacity,
    /// The arena is full, and growing failed.
    #[error("out of memory")]
    AllocError,
}

/// Why [`rekey_unique`](crate::SortedArena::rekey_unique) changed nothing.
#[derive(Debug, Clone, Copy, PartialEq, Eq, Drop, Error)]
pub enum RekeyUniqueError<P> {
    /// The pointer is stale.
    #[error("the pointer names no entry")]
    Stale,
    /// Another entry has an equal key: the first that has one is at this pointer.
    #[error("another entry has an equal key")]
    EqualKey(P),
}

/// Why pairs that were to be in order were not all inserted.
#[derive(Debug, Clone, Copy, PartialEq, Eq, Drop, Error)]
pub enum SortedError {
    /// The pair at this index has a smaller key than the one before it.
    #[error("the pair at index {0} is out of order")]
    OutOfOrder(usize),
    /// The arena is full, and its capacity is at the limit.
    #[error("no room within the maximum capacity")]
    BeyondMaxCapacity,
    /// The arena is full, and growing failed.
    #[error("out of memory")]
    AllocError,
}
