//! The index of a key in a row.
ghost use Rattle.std.specs.Prelude.{◌≡◌, ◌+◌, ◌*◌, ◌-◌, ◌^◌, ◌≤◌, ◌<◌, ℕ, Bool, true, false, length, if◌then◌else◌};
ghost use Rattle.std.specs.List.Sorted.{IsPartitionPoint};
ghost use Rattle.leaf_row.specs.Before.{is_passed, IsWithinHalvings};

use crate::ROW;

/// Returns the number of keys of a row that are less than `k`, or at most `k`, and the number of keys that it compared.
///
/// A row with more than 15 keys takes five comparisons, each without a branch that depends on a key.
#[inline(always)]
pub(crate) fn count_before<K: Ord>(keys: &[K], k: &K, with_equals: bool) -> (usize, usize)
    requires { length keys.now ≤ 31 }
    ensures within { result.0 ≤ length keys.now }
    ensures place { (q : ℕ) → q ≤ length keys.now
        → IsPartitionPoint (λ y. is_passed with_equals (K.cmp k.now y) ≡ true)
        (λ y. is_passed with_equals (K.cmp k.now y) ≡ false) keys.now q → result.0 ≡ q }
    ensures visits { IsWithinHalvings (length keys.now) result.1 }
{
    let n = keys.len();
    if n > ROW / 2 {
        count_within(keys, ROW + 1, k, with_equals)
    } else {
        count_within(keys, n + 1, k, with_equals)
    }
}

// The same for an index below `span`. An index past the last key is read as the last key.
#[inline(always)]
fn count_within<K: Ord>(keys: &[K], span: usize, k: &K, with_equals: bool) -> (usize, usize)
    requires within { length keys.now < span }
    requires few { span ≤ 32 }
    requires some { 1 < span → 0 < length keys.now }
    ensures within { result.0 ≤ length keys.now }
    ensures place { (q : ℕ) → q ≤ length keys.now
        → IsPartitionPoint (λ y. is_passed with_equals (K.cmp k.now y) ≡ true)
        (λ y. is_passed with_equals (K.cmp k.now y) ≡ false) keys.now q → result.0 ≡ q }
    ensures visits { IsWithinHalvings (span - 1) result.1 }
{
    let n = keys.len();
    let mut base = 0usize;
    let mut size = span;
    let mut visits = 0usize;
    while size > 1 {
        let half = size / 2;
        let mid = base + half;
        let at = if mid <= n { mid } else { n };
        let is_behind = is_before(&keys[at - 1], k, with_equals);
        base = if mid <= n && is_behind { mid } else { base };
        size -= half;
        visits += 1;
    }
    (base, visits)
}

/// Returns whether a key is less than `k`, or at most `k` if `with_equals`.
#[inline(always)]
pub fn is_before<K: Ord>(key: &K, k: &K, with_equals: bool) -> bool
    ensures { result ≡ is_passed with_equals (K.cmp k.now key.now) }
{
    let order = k.cmp(key);
    if with_equals {
        order.is_ge()
    } else {
        order.is_gt()
    }
}
