//! The allowed effects of searches and insertions, given only the entries in order.
use super::Row;
use std::cmp::Ordering;
use triple_ord::P0;

/// The gap before a position, by its keys: the least key above that of the entry before it, and the key of the entry after it, which is
/// the one at this position. They are 0 and `u64::MAX` if there is no entry.
pub(super) fn gap_at(rows: &[Row], place: usize) -> (u64, u64) {
    let least = match rows.get(place.wrapping_sub(1)) {
        Some(row) => row.key.saturating_add(1),
        None => 0,
    };
    let next = match rows.get(place) {
        Some(row) => row.key,
        None => u64::MAX,
    };
    (least, next)
}

/// Whether a search for a key with c visits may stop at the gap before a position: the entry before it, if any, has a smaller key, the
/// one after it, if any, a greater one, and at most c entries are beside it.
fn may_stop(rows: &[Row], place: usize, k: u64, c: u128) -> bool {
    let (least, next) = gap_at(rows, place);
    let neighbours = (place > 0) as u128 + (place < rows.len()) as u128;
    least <= k && k < next && neighbours <= c
}

/// The position of the entry that a pointer names.
pub(super) fn place_of(rows: &[Row], p: P0) -> Option<usize> {
    for place in 0..rows.len() {
        if rows[place].p == p {
            return Some(place);
        }
    }
    None
}

/// Whether a search for a similar key with c visits may have this result: an entry with an equal key whose predecessor, if any, has a
/// smaller one, or an entry beside a gap where it may stop.
pub(super) fn may_be_similar(
    rows: &[Row],
    k: u64,
    similar: Option<(P0, Ordering)>,
    c: u128,
) -> bool {
    let Some((p, order)) = similar else {
        return rows.is_empty();
    };
    let Some(place) = place_of(rows, p) else {
        return false;
    };
    match order {
        Ordering::Less => may_stop(rows, place, k, c),
        Ordering::Equal => {
            let (least, key) = gap_at(rows, place);
            least <= k && k == key && c > 0
        }
        Ordering::Greater => may_stop(rows, place.saturating_add(1), k, c),
    }
}

/// The entry found with an equal key.
pub(super) fn equal_of(similar: Option<(P0, Ordering)>) -> Option<P0> {
    match similar {
        Some((p, Ordering::Equal)) => Some(p),
        _ => None,
    }
}

/// Whether at this position `taken` entries were removed and `put` inserted, and nothing else changed.
pub(super) fn is_changed(old: &[Row], new: &[Row], place: usize, taken: usize, put: usize) -> bool {
    old.get(..place) == new.get(..place)
        && old.get(place.saturating_add(taken)..) == new.get(place.saturating_add(put)..)
}
