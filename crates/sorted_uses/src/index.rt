//! An index: the ids of records by their names, in the order of the names.

ghost use Rattle.std.specs.Prelude.{◌≡◌, ◌≢◌, ◌+◌, ◌^◌, ◌<◌, ◌≤◌, ◌++◌, Some, None, IfOk, OnOk, IfSome, IfNone, OnErr, IsSomeAnd, map, length, count_by};
ghost use Rattle.std.specs.Ordering.{is_eq};
ghost use Rattle.std.specs.declared.ops.Bound.TheVariants.{Included, Excluded, Unbounded};
ghost use Rattle.sorted_arena.specs.Range.{entries_between, entries_outside};
ghost use Rattle.std.specs.List.{All};
ghost use Rattle.std.specs.Prelude.{String, string_bytes, string_cmp};
ghost use Rattle.std.specs.declared.cmp.Ordering.TheVariants.{Equal, Greater};
ghost use Rattle.sorted_arena.specs.Sorted.{get, count, key_of, value_of, pair_of, Updates};

use sorted_arena::{P0, ReallocationError, SortedArena};
use std::alloc::{AllocError, Global};

/// Ids by names.
pub type Index = SortedArena<String, u64>;

/// Adds a record. Where memory is refused the name comes back.
pub fn add(index: &mut Index, name: String, id: u64) -> Result<P0, (String, ReallocationError)>
    ensures added { IfOk result (λ p. Updates index.old index.new p (Some (name, id))) }
    ensures back { OnErr result (index.new ≡ index.old) }
{
    match index.insert(name, id) {
        Ok(p) => Ok(p),
        Err(((name, _), refusal)) => Err((name, refusal)),
    }
}

/// The id of the first record of a name.
pub fn first_of(index: &Index, name: &String) -> Option<P0>
    ensures finds { IfSome result (λ p. IsSomeAnd (get index.now p)
        (λ x. string_cmp name.now x.0 ≡ Equal)) }
    ensures none { IfNone result
        (All (λ e. string_cmp name.now (key_of e) ≢ Equal) index.now.entries) }
{
    index.find(name)
}

/// The first record of a name that is given as a text.
pub fn first_named(index: &Index, name: &str) -> Option<P0>
    ensures finds { (k : String Global) → string_bytes k ≡ name.now
        → IfSome result (λ p. IsSomeAnd (get index.now p) (λ x. string_cmp k x.0 ≡ Equal)) }
    ensures none { (k : String Global) → string_bytes k ≡ name.now
        → IfNone result (All (λ e. string_cmp k (key_of e) ≢ Equal) index.now.entries) }
{
    index.find_str(name)
}

/// The id of the first record of a name.
pub fn id_of(index: &Index, name: &String) -> Option<u64>
    ensures none { IfNone result
        (All (λ e. string_cmp name.now (key_of e) ≢ Equal) index.now.entries) }
{
    let p = index.find(name)?;
    let (_, id) = index.get(p)?;
    Some(*id)
}

/// The first record whose name is this one or comes behind it.
pub fn from_name(index: &Index, name: &String) -> Option<P0>
    ensures finds { IfSome result (λ p. IsSomeAnd (get index.now p)
        (λ x. string_cmp name.now x.0 ≢ Greater)) }
    ensures none { IfNone result
        (All (λ e. string_cmp name.now (key_of e) ≡ Greater) index.now.entries) }
{
    index.lower_bound(name)
}

/// Returns the ids of all records from one name until before another, in order. O(log n + their number).
pub fn ids_between(
    alloc: Global,
    index: &Index,
    from: &String,
    until: &String,
) -> Result<Vec<u64>, AllocError>
    ensures { IfOk result (λ ids. ids.items ≡ map value_of
        (entries_between string_cmp (Included from.now) (Excluded until.now) index.now.entries)) }
{
    index.range(from..until).values().copied().collect(alloc)
}

/// Returns how many records have this name.
pub fn records_of(index: &Index, name: &String) -> usize
    ensures { result ≡ count_by (λ e. is_eq (string_cmp name.now (key_of e))) index.now.entries }
{
    index.count_of(name)
}

/// Removes all records from one name until before another, and returns how many there were.
pub fn drop_between(index: &mut Index, from: &String, until: &String) -> usize
    ensures dropped { result ≡ length
        (entries_between string_cmp (Included from.now) (Excluded until.now) index.old.entries) }
    ensures left { index.new.entries
        ≡ entries_outside string_cmp (Included from.now) (Excluded until.now) index.old.entries }
{
    index.remove_range(from..until)
}

/// Moves all records from one name until before another to the end of a list. If memory is refused to the list, nothing changes.
pub fn take_between(
    index: &mut Index,
    from: &String,
    until: &String,
    taken: &mut Vec<(String, u64)>,
) -> Result<(), AllocError>
    ensures taken { OnOk result (taken.new.items ≡ taken.old.items ++ map pair_of
        (entries_between string_cmp (Included from.now) (Excluded until.now) index.old.entries)) }
    ensures refused { OnErr result (index.new ≡ index.old) }
{
    index.drain_range(from..until, taken)
}

/// Moves the records from one name on into an index of their own. If memory is refused, nothing changes.
pub fn split_at(index: &mut Index, from: &String) -> Result<Index, AllocError>
    ensures moved { IfOk result (λ moved. map pair_of moved.entries
        ≡ map pair_of (entries_between string_cmp (Included from.now) Unbounded index.old.entries)) }
    ensures left { OnOk result (index.new.entries
        ≡ entries_between string_cmp Unbounded (Excluded from.now) index.old.entries) }
    ensures refused { OnErr result (index.new ≡ index.old) }
{
    index.split_off(from)
}

/// Returns how many records were looked at to find a name.
pub fn visits_for(index: &Index, name: &String) -> u128
    ensures few { 0 < count index.now → 2 ^ (result + 1) ≤ (count index.now + 1) ^ 2 }
    ensures none { count index.now ≡ 0 → result ≡ 0 }
{
    let (_, visits) = index.find_counted(name);
    visits.count()
}
