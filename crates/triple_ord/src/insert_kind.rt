//! `OrdInsertKind`: how the place of an insertion is found.
ghost use Rattle.std.specs.Prelude.{◌≡◌};
ghost use Rattle.triple_ord.specs.Place.{kind_now};

use arena_base::BasePtr;
use std::cmp::Ordering;

/// How an insertion finds its place. In an arena without entries every kind but `Manual` inserts the item as the only entry.
#[derive(Debug, Clone, PartialEq, Eq, Drop)]
pub enum OrdInsertKind<P: BasePtr, K> {
    /// As the only entry. Fails if there are entries.
    Empty,
    /// By a key: if the search finds an entry with an equal key whose predecessor, if any, has a smaller one, its item is replaced.
    /// Otherwise a new entry goes into a gap that fits.
    Normal(K),
    /// By a key, always as a new entry. In its gap the entry before, if any, has a key at most this one, and the entry after, if any, a
    /// greater one. So if the keys are in order, entries with equal keys keep their insertion order.
    Nonhereditary(K),
    /// `Normal`, with a search that first makes at most `num` steps from the entry at the index `p_init`.
    Linear {
        /// The index of the entry where the steps start.
        p_init: P::Inx,
        /// The maximum number of steps.
        num: usize,
        /// The key.
        k: K,
    },
    /// `Nonhereditary`, with a search that first makes at most `num` steps from the entry at the index `p_init`.
    NonhereditaryLinear {
        /// The index of the entry where the steps start.
        p_init: P::Inx,
        /// The maximum number of steps.
        num: usize,
        /// The key.
        k: K,
    },
    /// Beside the entry at an index, whatever its key: `Less` inserts a new entry directly before it, `Greater` directly after it, and
    /// `Equal` replaces its item. Fails if there is no entry at the index.
    Manual {
        /// The index of the entry.
        p_target: P::Inx,
        /// The side of that entry, or the entry itself.
        direction: Ordering,
    },
}

impl<P: BasePtr, K> OrdInsertKind<P, K> {
    /// Returns the same kind with a reference to its key.
    pub fn as_ref(&self) -> OrdInsertKind<P, &K>
        ensures { kind_now result ≡ self.now }
    {
        match self {
            OrdInsertKind::Empty => OrdInsertKind::Empty,
            OrdInsertKind::Normal(k) => OrdInsertKind::Normal(k),
            OrdInsertKind::Nonhereditary(k) => OrdInsertKind::Nonhereditary(k),
            OrdInsertKind::Linear { p_init, num, k } => OrdInsertKind::Linear {
                p_init: *p_init,
                num: *num,
                k,
            },
            OrdInsertKind::NonhereditaryLinear { p_init, num, k } => {
                OrdInsertKind::NonhereditaryLinear {
                    p_init: *p_init,
                    num: *num,
                    k,
                }
            }
            OrdInsertKind::Manual {
                p_target,
                direction,
            } => OrdInsertKind::Manual {
                p_target: *p_target,
                direction: *direction,
            },
        }
    }
}
