//! The errors of insertions into an ordered arena.
use arena_base::InsertionError;
use thiserror::Error;

/// Why an insertion failed. The arena is unchanged, and an item that was passed is dropped.
#[derive(Debug, Clone, Copy, PartialEq, Eq, Drop, Error)]
pub enum OrdInsertionError {
    /// The requested place doesn't exist: the arena should be empty and isn't, or there is no entry at the index.
    #[error("the place of the insertion isn't there")]
    FailedOrdRequirement,
    /// No slot is vacant, and the call doesn't grow.
    #[error("no room within the capacity")]
    NotWithinCapacity,
    /// No slot is vacant, and the capacity is at its maximum.
    #[error("no room within the maximum capacity")]
    BeyondMaxCapacity,
    /// No slot is vacant, and growing failed.
    #[error("out of memory")]
    AllocError,
}

impl From<InsertionError> for OrdInsertionError {
    ghost use Rattle.std.specs.Prelude.{◌≡◌};
    ghost use Rattle.triple_ord.specs.Refusal.{refusal_of};

    ghost from_gives = { λ refusal result. result ≡ refusal_of refusal };

    fn from(refusal: InsertionError) -> Self {
        match refusal {
            InsertionError::NotWithinCapacity => OrdInsertionError::NotWithinCapacity,
            InsertionError::BeyondMaxCapacity => OrdInsertionError::BeyondMaxCapacity,
            InsertionError::AllocError => OrdInsertionError::AllocError,
        }
    }
}
