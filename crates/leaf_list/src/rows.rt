//! Entries that go from one row to another.
ghost use Rattle.std.specs.Prelude.{◌≡◌, ◌≢◌, ◌+◌, ◌≤◌, ◌<◌, ◌++◌, ℕ, [], length, take, drop, slice_index_or};

use leaf_row::Row;
use std::alloc::Allocator;
use triple_ord::BasePtrInx;

/// Moves the entries of row `i` from an index on to row `j`, which is empty.
pub(crate) fn move_tail<K, I: BasePtrInx, A: Allocator>(
    rows: &mut [Row<K, I, A>],
    i: usize,
    at: usize,
    j: usize,
)
    requires from { i < length rows.old }
    requires to { j < length rows.old }
    requires other { i ≢ j }
    requires within { at ≤ length (slice_index_or rows.old i []) }
    requires empty { slice_index_or rows.old j [] ≡ [] }
    ensures len { length rows.new ≡ length rows.old }
    ensures left { slice_index_or rows.new i [] ≡ take at (slice_index_or rows.old i []) }
    ensures moved { slice_index_or rows.new j [] ≡ drop at (slice_index_or rows.old i []) }
    ensures others { (k : ℕ) → k ≢ i → k ≢ j
        → slice_index_or rows.new k [] ≡ slice_index_or rows.old k [] }
{
    if i < j {
        let (front, back) = rows.split_at_mut(j);
        front[i].move_tail(at, &mut back[0]);
    } else {
        let (front, back) = rows.split_at_mut(i);
        back[0].move_tail(at, &mut front[j]);
    }
}

/// Moves all entries of row `i` behind those of row `j`, which has room for them.
pub(crate) fn move_all<K, I: BasePtrInx, A: Allocator>(
    rows: &mut [Row<K, I, A>],
    i: usize,
    j: usize,
)
    requires from { i < length rows.old }
    requires to { j < length rows.old }
    requires other { i ≢ j }
    requires room { length (slice_index_or rows.old i []) + length (slice_index_or rows.old j []) ≤ 31 }
    ensures len { length rows.new ≡ length rows.old }
    ensures left { slice_index_or rows.new i [] ≡ [] }
    ensures moved { slice_index_or rows.new j []
        ≡ slice_index_or rows.old j [] ++ slice_index_or rows.old i [] }
    ensures others { (k : ℕ) → k ≢ i → k ≢ j
        → slice_index_or rows.new k [] ≡ slice_index_or rows.old k [] }
{
    if i < j {
        let (front, back) = rows.split_at_mut(j);
        front[i].move_all(&mut back[0]);
    } else {
        let (front, back) = rows.split_at_mut(i);
        back[0].move_all(&mut front[j]);
    }
}
