//! `OptInx`: an optional index in the space of an index.
ghost use Rattle.std.specs.Prelude.{◌≡◌, None};
ghost use Rattle.std.specs.Option.{option_map};
ghost use Rattle.arena_base.specs.Pointer.{named_of};

use crate::ptr::{BasePtr, BasePtrInx};
use std::fmt;
use std::marker::Model;

/// An index or none, in the space of an index. An `Option` would take twice as much.
///
/// Index 0 names no entry, so it represents none.
#[derive(Clone, Drop)]
pub struct OptInx<P: BasePtr> {
    inx: P::Inx,
}

impl<P: BasePtr> Model for OptInx<P> {
    ghost use Rattle.std.specs.Prelude.{ℕ, Option};
    ghost use Rattle.arena_base.specs.Pointer.{index_number};

    ghost Value = { Option ℕ };

    ghost view = { λ i. index_number (P.Inx.number i.inx) };
}

impl<P: BasePtr> OptInx<P> {
    /// Creates an optional index. Index 0 becomes none.
    pub fn new(inx: Option<P::Inx>) -> Self
        ensures { result ≡ named_of (option_map P.Inx.number inx) }
    {
        OptInx {
            inx: inx.unwrap_or(P::Inx::zero()),
        }
    }

    /// Creates an optional index that is none.
    pub fn none() -> Self
        ensures { result ≡ None }
    {
        OptInx {
            inx: P::Inx::zero(),
        }
    }

    /// Returns the index, if any.
    pub fn get(&self) -> Option<P::Inx>
        ensures value { option_map P.Inx.number result ≡ self.now }
        ensures named { named_of self.now ≡ self.now }
    {
        if self.inx == P::Inx::zero() {
            None
        } else {
            Some(self.inx)
        }
    }
}

/// Prints an `Option` of the index's number.
impl<P: BasePtr> fmt::Debug for OptInx<P> {
    fn fmt<W: fmt::Write>(&self, f: &mut fmt::Formatter<W>) -> fmt::Result {
        self.get().and_then(P::Inx::try_into_usize).fmt(f)
    }
}
