//! Searches by key, from the root and from every hint.
use super::places::{equal_of, may_be_similar};
use super::{Numbers, Row};
use std::cmp::Ordering;
use triple_ord::{BasePtr, P0};

/// The maximum number of visits among n entries after only insertions: c with `fib(c+2) <= n+1`.
const TIGHT: [u128; 8] = [0, 1, 2, 2, 3, 3, 3, 4];

/// Maximum numbers of steps along the list before a search.
const STEPS: [usize; 5] = [0, 1, 2, 3, usize::MAX];

/// The result of a search for a similar key, its visits, and whether the search without the count has the same result.
type Similar = (Option<(P0, Ordering)>, u128, bool);

/// The same for a search for an equal key.
type Equal = (Option<P0>, u128, bool);

/// The search for a similar key.
fn similar(a: &Numbers, k: u64) -> Similar {
    let (found, visits) = a.find_similar_key_counted(&k);
    (found, visits.count(), a.find_similar_key(&k) == found)
}

/// The search for an equal key.
fn equal(a: &Numbers, k: u64) -> Equal {
    let (found, visits) = a.find_key_counted(&k);
    (found, visits.count(), a.find_key(&k) == found)
}

/// The search for a similar key from a hint.
fn similar_from(a: &Numbers, hint: P0, num: usize, k: u64) -> Similar {
    let (found, visits) = a.find_similar_key_linear_counted(hint.inx(), num, &k);
    let again = a.find_similar_key_linear(hint.inx(), num, &k);
    (found, visits.count(), again == found)
}

/// The search for an equal key from a hint.
fn equal_from(a: &Numbers, hint: P0, num: usize, k: u64) -> Equal {
    let (found, visits) = a.find_key_linear_counted(hint, num, &k);
    (
        found,
        visits.count(),
        a.find_key_linear(hint, num, &k) == found,
    )
}

/// Whether a search for a similar key has an allowed result, after at most `most` visits.
fn is_right(rows: &[Row], k: u64, answer: Similar, most: u128) -> bool {
    let (entry, c, is_same) = answer;
    is_same && c <= most && may_be_similar(rows, k, entry, c)
}

/// The searches for a key from the root. Both take the same path.
fn hold_from_root(a: &Numbers, rows: &[Row], k: u64) -> bool {
    let (entry, c, _) = similar(a, k);
    let (found, found_c, is_same) = equal(a, k);
    let is_equal = found == equal_of(entry);
    is_equal && is_same && found_c == c && is_right(rows, k, similar(a, k), TIGHT[rows.len() % 8])
}

/// The searches for a key from a hint. A search for an equal key makes a whole search after the steps.
fn hold_from(a: &Numbers, rows: &[Row], hint: P0, num: usize, k: u64) -> bool {
    let most = TIGHT[rows.len() % 8].saturating_add(num.min(rows.len()) as u128);
    let (found, c, is_same) = equal_from(a, hint, num, k);
    let (whole, whole_c, _) = equal(a, k);
    let is_whole = found == whole;
    is_whole
        && is_same
        && whole_c <= c
        && c <= most
        && is_right(rows, k, similar_from(a, hint, num, k), most)
}

/// All searches for a key, with hints that name an entry and hints that don't.
fn hold_for(a: &Numbers, rows: &[Row], k: u64) -> bool {
    for number in 0u32..80 {
        let generation = if number < 40 { 2 } else { 9 };
        let hint = P0::_from_raw(number % 8, generation);
        if !hold_from(a, rows, hint, STEPS[number as usize / 8 % 5], k) {
            return false;
        }
    }
    hold_from_root(a, rows, k)
}

/// All searches for each key, and for keys beyond them.
pub(super) fn hold(a: &Numbers, rows: &[Row]) -> bool {
    for k in 0..=(rows.len() as u64).saturating_add(1) {
        if !hold_for(a, rows, k) {
            return false;
        }
    }
    true
}
