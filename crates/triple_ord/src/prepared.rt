//! The place of an insertion, before and after its pointer is known.
ghost use Rattle.std.specs.Prelude.{◌≡◌};
ghost use Rattle.triple_ord.specs.Prepared.{order_on, place_at, side_by};

use crate::entry_kind::OrdEntryKind;
use crate::visits::Visits;
use ord_tree::Side;
use std::cmp::Ordering;

/// Where an insertion puts its item.
#[derive(Clone, Copy)]
pub(crate) enum InsertPlace<P> {
    /// As a new entry: directly on a side of the entry of a pointer, or as the only one.
    New(Option<(P, Side)>),
    /// In place of the item that the pointer finds.
    Replacing(P),
}

/// What an entry of an insertion holds, apart from its arena.
#[derive(Clone, Copy)]
pub(crate) struct Prepared<P> {
    /// The pointer, and whether the entry is new.
    pub shown: OrdEntryKind<P>,
    /// Where a new entry goes: directly on a side of the entry of a pointer, or as the only one.
    pub at: Option<(P, Side)>,
    /// The number of entries that the search for the place visited.
    pub visits: Visits,
}

/// Returns the side of an entry on which something of this order to the entry stands; `None` for `Equal`.
pub(crate) fn side_by(order: Ordering) -> Option<Side>
    ensures { result ≡ side_by order }
{
    match order {
        Ordering::Less => Some(Side::Lesser),
        Ordering::Equal => None,
        Ordering::Greater => Some(Side::Greater),
    }
}

/// Returns the order to an entry of what stands on that side of it.
pub(crate) fn order_on(side: Side) -> Ordering
    ensures { result ≡ order_on side }
{
    match side {
        Side::Lesser => Ordering::Less,
        Side::Greater => Ordering::Greater,
    }
}

/// Returns the place of this order to the entry of a pointer: beside it, or that of its item.
pub(crate) fn place_at<P: Copy>(at: (P, Ordering)) -> InsertPlace<P>
    ensures { result ≡ place_at at }
{
    match side_by(at.1) {
        Some(side) => InsertPlace::New(Some((at.0, side))),
        None => InsertPlace::Replacing(at.0),
    }
}
