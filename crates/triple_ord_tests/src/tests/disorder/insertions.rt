//! The allowed effects of an insertion of each kind.
use super::Row;
use super::places::{gap_at, is_changed, place_of};
use std::cmp::Ordering;
use triple_ord::{BasePtr, OrdEntryKind, OrdInsertKind, OrdInsertionError, P0};

/// A kind of insertion, by a key or beside an index.
type Kind<'k> = OrdInsertKind<P0, &'k u64>;

/// Maximum numbers of steps along the list before a search.
const STEPS: [usize; 4] = [0, 1, 2, usize::MAX];

/// The sides of an entry, and the entry itself.
const DIRECTIONS: [Ordering; 3] = [Ordering::Less, Ordering::Equal, Ordering::Greater];

/// The kind with each number: those by a key, with a hint or without, those beside an index, and the one for an empty arena.
pub(super) fn kind_numbered(number: u32, k: &u64) -> Kind<'_> {
    let i = number % 8;
    let num = STEPS[number as usize / 8 % 4];
    match number / 8 {
        0..=3 => OrdInsertKind::Linear { p_init: i, num, k },
        4..=7 => OrdInsertKind::NonhereditaryLinear { p_init: i, num, k },
        8..=10 => OrdInsertKind::Manual {
            p_target: i,
            direction: DIRECTIONS[number as usize / 8 % 3],
        },
        _ => match i {
            0 => OrdInsertKind::Normal(k),
            1 => OrdInsertKind::Nonhereditary(k),
            _ => OrdInsertKind::Empty,
        },
    }
}

/// Whether an insertion beside the entry at `target`, if any, may have its entry at `place`, replacing an item or not.
fn may_go_beside(target: Option<usize>, direction: Ordering, place: usize, is_over: bool) -> bool {
    let Some(target) = target else {
        return false;
    };
    match direction {
        Ordering::Less => !is_over && place == target,
        Ordering::Equal => is_over && place == target,
        Ordering::Greater => !is_over && place == target.saturating_add(1),
    }
}

/// Whether a kind may have its entry at this position, replacing an item or not.
fn may_go(old: &[Row], kind: Kind, k: u64, place: usize, is_over: bool) -> bool {
    let (least, next) = gap_at(old, place);
    match kind {
        OrdInsertKind::Normal(_) | OrdInsertKind::Linear { .. } => {
            least <= k && if is_over { k == next } else { k < next }
        }
        OrdInsertKind::Nonhereditary(_) | OrdInsertKind::NonhereditaryLinear { .. } => {
            least <= k.saturating_add(1) && k < next && !is_over
        }
        OrdInsertKind::Manual {
            p_target,
            direction,
        } => may_go_beside(
            place_of(old, P0::_from_raw(p_target, 2)),
            direction,
            place,
            is_over,
        ),
        OrdInsertKind::Empty => old.is_empty() && !is_over,
    }
}

/// Whether a kind may fail.
fn may_refuse(old: &[Row], kind: Kind) -> bool {
    match kind {
        OrdInsertKind::Manual { p_target, .. } => {
            place_of(old, P0::_from_raw(p_target, 2)).is_none()
        }
        OrdInsertKind::Empty => !old.is_empty(),
        _ => false,
    }
}

/// Whether the item of an entry is the inserted one.
fn is_item(row: Option<&Row>) -> bool {
    matches!(
        row,
        Some(Row {
            key: 9,
            value: 99,
            ..
        })
    )
}

/// Whether the entries are right after an insertion of this entry, replacing an item or not.
fn is_put(old: &[Row], new: &[Row], kind: Kind, k: u64, p: P0, is_over: bool) -> bool {
    match place_of(new, p) {
        Some(place) => {
            may_go(old, kind, k, place, is_over)
                && is_changed(old, new, place, is_over as usize, 1)
                && is_item(new.get(place))
                && (!is_over || place_of(old, p) == Some(place))
        }
        None => false,
    }
}

/// Whether the entries match the result of an insertion, or are unchanged if the kind fails.
pub(super) fn is_inserted(
    old: &[Row],
    new: &[Row],
    number: u32,
    k: u64,
    answer: Option<Result<OrdEntryKind<P0>, OrdInsertionError>>,
) -> bool {
    let kind = kind_numbered(number, &k);
    match answer {
        Some(Ok(OrdEntryKind::New(p))) => is_put(old, new, kind, k, p, false),
        Some(Ok(OrdEntryKind::Replacing(p))) => is_put(old, new, kind, k, p, true),
        Some(Err(OrdInsertionError::FailedOrdRequirement)) => may_refuse(old, kind) && new == old,
        _ => false,
    }
}
