//! The errors of calls that need room.
use thiserror::Error;

/// Why a change of the capacity failed. The arena is unchanged.
#[derive(Debug, Clone, Copy, PartialEq, Eq, Drop, Error)]
pub enum ReallocationError {
    /// The requested capacity is beyond the maximum, or beyond the greatest index of an entry.
    #[error("the capacity would go beyond its maximum")]
    BeyondMaxCapacity,
    /// Memory was refused.
    #[error("out of memory")]
    AllocError,
}

/// Why an insertion failed. The arena is unchanged, and the item is dropped.
#[derive(Debug, Clone, Copy, PartialEq, Eq, Drop, Error)]
pub enum InsertionError {
    /// No slot is vacant, and the call doesn't grow.
    #[error("no room within the capacity")]
    NotWithinCapacity,
    /// No slot is vacant, and the capacity is at its limit.
    #[error("no room within the maximum capacity")]
    BeyondMaxCapacity,
    /// No slot is vacant, and growing failed.
    #[error("out of memory")]
    AllocError,
}

/// The requested maximum is below the capacity. The arena is unchanged.
#[derive(Debug, Clone, Copy, PartialEq, Eq, Drop, Error)]
#[error("the maximum is below the capacity")]
pub struct MaxCapacityReductionError;
