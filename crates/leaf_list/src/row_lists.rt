//! Rows that are made, emptied, cloned and dropped.
ghost use Rattle.std.specs.Prelude.{◌≡◌, ◌≤◌, ◌<◌, ℕ, [], length, take, IfOk, IsErr, OnOk, slice_index_or, EachIndex};

use leaf_row::Row;
use std::alloc::{AllocError, Allocator};
use triple_ord::BasePtrInx;

/// Adds rows without entries until there are `n`. On `Err` memory was refused, and some may have been added.
pub(crate) fn add_rows<K, I: BasePtrInx, A: Allocator + Copy>(
    rows: &mut Vec<Row<K, I, A>, A>,
    n: usize,
) -> Result<(), AllocError>
    ensures kept { (i : ℕ) → slice_index_or rows.new.items i [] ≡ slice_index_or rows.old.items i [] }
    ensures longer { length rows.old.items ≤ length rows.new.items }
    ensures enough { OnOk result (n ≤ length rows.new.items) }
    ensures fails { IsErr result → length rows.old.items < n }
{
    let have = rows.len();
    if n <= have {
        return Ok(());
    }
    rows.reserve(n - have)?;
    let alloc = *rows.allocator();
    while rows.len() < n {
        let row = Row::new(alloc)?;
        rows.push_reserved(row);
    }
    Ok(())
}

/// Drops rows without entries from the end until at most `n` rows are left.
pub(crate) fn drop_rows<K, I: BasePtrInx, A: Allocator>(rows: &mut Vec<Row<K, I, A>, A>, n: usize)
    requires { (i : ℕ) → n ≤ i → slice_index_or rows.old.items i [] ≡ [] }
    ensures { rows.new.items ≡ take n rows.old.items }
{
    while rows.len() > n {
        rows.take_last().destroy_empty();
    }
}

/// Drops the entries of all rows.
pub(crate) fn clear_rows<K: Drop, I: BasePtrInx, A: Allocator>(rows: &mut [Row<K, I, A>])
    ensures empty { (i : ℕ) → slice_index_or rows.new i [] ≡ [] }
    ensures len { length rows.new ≡ length rows.old }
{
    for row in rows.iter_mut() {
        row.clear();
    }
}

/// Returns clones of the first `n` rows. A clone of a key has to equal the key.
pub(crate) fn clone_rows<K: Clone + Drop, I: BasePtrInx, A: Allocator + Copy>(
    rows: &[Row<K, I, A>],
    n: usize,
    alloc: A,
) -> Result<Vec<Row<K, I, A>, A>, AllocError>
    requires clones { (x y : K) → K.is_clone x y → y ≡ x }
    requires within { n ≤ length rows.now }
    ensures { IfOk result (λ clones. clones.items ≡ take n rows.now) }
{
    let mut clones = Vec::with_capacity(alloc, n)?;
    for i in 0..n {
        let row = rows[i].clone_in(alloc)?;
        clones.push_reserved(row);
    }
    Ok(clones)
}
