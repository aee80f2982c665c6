//! Why a picture can't be drawn.
use std::alloc::{AllocError, AllocFailed};
use thiserror::Error;

/// Why a picture can't be drawn.
#[derive(Clone, Copy, Debug, PartialEq, Eq, Drop, Error)]
pub enum PictureError {
    /// The picture would have too many entries, or be too wide.
    #[error("the picture is too large")]
    TooLarge,
    /// Memory is refused.
    #[error("out of memory")]
    AllocError,
}

impl From<AllocError> for PictureError {
    ghost use Rattle.std.specs.Prelude.{◌≡◌};
    ghost use Rattle.tree_picture.specs.declared.error.PictureError.TheVariants.{AllocError};

    ghost from_gives = { λ _ e. e ≡ AllocError };

    fn from(_refused: AllocError) -> PictureError {
        PictureError::AllocError
    }
}

impl<T: Drop> From<AllocFailed<T>> for PictureError {
    ghost use Rattle.std.specs.Prelude.{◌≡◌};
    ghost use Rattle.tree_picture.specs.declared.error.PictureError.TheVariants.{AllocError};

    ghost from_gives = { λ _ e. e ≡ AllocError };

    fn from(_refused: AllocFailed<T>) -> PictureError {
        PictureError::AllocError
    }
}
