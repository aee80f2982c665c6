//! Runs of entries: pairs that come in, and entries that go out.

ghost use Rattle.std.specs.Prelude.{◌≡◌, ◌+◌, ◌-◌, ◌<◌, ◌≤◌, length, slice_set, drop, reverse, false, None, IsSome, Err, IfOk, IsOk, OnOk, OnErr};
ghost use Rattle.std.specs.List.{zip};
ghost use Rattle.std.specs.Option.{option_map, option_map_or};
ghost use Rattle.std.specs.Ordering.{int_cmp, is_gt};
ghost use Rattle.sorted_arena.specs.Chain.{first_pointer, from_index};
ghost use Rattle.sorted_arena.specs.Sorted.{count, entries_until, generation_after, get, last_item};
ghost use Rattle.arena_c.specs.Shown.{greatest_generation, most_entries};
ghost use Rattle.arena_c.specs.Batch.{fall_behind, first_fall, with_pointers, AppendsPairs, ExtendsAtOnce, Fills};

use crate::content::Content;
use crate::entry::{Entry, Pointer};
use sorted_arena::{P0, ReallocationError};
use std::alloc::{AllocError, Global};

// Whether a key is smaller than the one before it, if there is one.
fn is_fall(before: Option<i64>, key: i64) -> bool
    ensures { result ≡ option_map_or (λ b. is_gt (int_cmp b key)) before false }
{
    match before {
        Some(b) => b.cmp(&key).is_gt(),
        None => false,
    }
}

/// The index of the first key that is smaller than the one before it; `before` stands before the first.
pub fn first_fall(before: Option<i64>, keys: &[i64]) -> Option<usize>
    ensures { result ≡ first_fall before keys.now 0 }
{
    let mut before = before;
    for (i, key) in keys.iter().enumerate() {
        if is_fall(before, *key) {
            return Some(i);
        }
        before = Some(*key);
    }
    None
}

// The pairs of two arrays of one length.
fn zipped(alloc: Global, keys: &[i64], values: &[u64]) -> Result<Vec<(i64, u64)>, AllocError>
    requires { length keys.now ≡ length values.now }
    ensures pairs { IfOk result (λ v. v.items ≡ zip keys.now values.now) }
    ensures none { length keys.now ≡ 0 → IsOk result }
{
    let mut pairs = Vec::with_capacity(alloc, keys.len())?;
    for (i, key) in keys.iter().enumerate() {
        pairs.push((*key, values[i]))?;
    }
    Ok(pairs)
}

// Writes an item of an array, if it has room for it.
fn put_at(pointers: &mut [Pointer], place: usize, p: Pointer)
    ensures inside { place < length pointers.old
        → pointers.new ≡ slice_set pointers.old place p }
    ensures outside { length pointers.old ≤ place → pointers.new ≡ pointers.old }
{
    if place < pointers.len() {
        pointers[place] = p;
    }
}

impl Content {
    /// The last key.
    pub fn last_key(&self) -> Option<i64>
        ensures { result ≡ option_map (λ pair. pair.0) (last_item self.now.entries) }
    {
        let last = self.pairs.last()?;
        self.pairs.key(last).copied()
    }

    /// Inserts pairs in order behind all entries, for which there is room.
    fn append(&mut self, keys: &[i64], values: &[u64])
        requires order { fall_behind self.old keys.now ≡ None }
        requires lengths { length keys.now ≡ length values.now }
        requires room { count self.old + length keys.now ≤ self.old.capacity }
        ensures { AppendsPairs keys.now values.now self.old self.new }
    {
        // For the prover: the keys are in order.
        let _ = self.pairs.len();
        for (i, key) in keys.iter().enumerate() {
            match self.pairs.insert(*key, values[i]) {
                Ok(_) => {}
                // there is room
                Err(_) => unreachable!(),
            }
        }
    }

    /// Makes room, and inserts pairs in order behind all entries. On `Err` nothing changes.
    pub fn extend(&mut self, keys: &[i64], values: &[u64]) -> Result<(), ReallocationError>
        requires order { fall_behind self.old keys.now ≡ None }
        requires lengths { length keys.now ≡ length values.now }
        ensures appends { OnOk result (AppendsPairs keys.now values.now self.old self.new) }
        ensures generation { self.new.generation ≡ self.old.generation }
        ensures full { result ≡ Err ReallocationError.BeyondMaxCapacity
            → most_entries < count self.old + length keys.now }
        ensures memory { result ≡ Err ReallocationError.AllocError
            → self.old.capacity < count self.old + length keys.now }
        ensures err { OnErr result (self.new ≡ self.old) }
    {
        self.pairs.reserve(keys.len())?;
        self.append(keys, values);
        Ok(())
    }

    /// Makes room, inserts pairs in order behind all entries, at once if they are as many as the entries, and writes their pointers into an
    /// array, as far as it has room. On `Err` nothing changes.
    pub fn extend_sorted(
        &mut self,
        alloc: Global,
        keys: &[i64],
        values: &[u64],
        pointers: &mut [Pointer],
    ) -> Result<(), ReallocationError>
        requires order { fall_behind self.old keys.now ≡ None }
        requires lengths { length keys.now ≡ length values.now }
        ensures extends { OnOk result (ExtendsAtOnce (zip keys.now values.now)
            self.old self.new pointers.old pointers.new) }
        ensures full { result ≡ Err ReallocationError.BeyondMaxCapacity
            → most_entries < count self.old + length keys.now }
        ensures memory { result ≡ Err ReallocationError.AllocError → 0 < length keys.now }
        ensures err { OnErr result (self.new ≡ self.old) }
        ensures kept { OnErr result (pointers.new ≡ pointers.old) }
    {
        // For the prover: the arena is sound.
        let _ = self.pairs.len();
        let Ok(pairs) = zipped(alloc, keys, values) else {
            return Err(ReallocationError::AllocError);
        };
        self.pairs.reserve(keys.len())?;
        match self.pairs.extend_sorted(pairs) {
            Ok(()) => {}
            // they are in order, and there is room
            Err(_) => unreachable!(),
        }
        self.write_last(keys.len(), pointers);
        Ok(())
    }

    /// Writes the pointers of the last `n` entries into an array, in order, as far as it has room.
    fn write_last(&self, n: usize, pointers: &mut [Pointer])
        requires { n ≤ count self.now }
        ensures { pointers.new ≡ with_pointers
            (drop (count self.now - n) self.now.entries) pointers.old }
    {
        let mut range = self.pairs.iter();
        for i in 0..n {
            let place = n - 1 - i;
            match range.next_back() {
                Some(shown) => put_at(pointers, place, Pointer::of(shown.0)),
                None => return,
            }
        }
    }

    /// Fills an array with the entries from the one at `first` on. Returns how many they are, and the pointer of the one behind them.
    pub fn fill(&self, first: P0, entries: &mut [Entry]) -> (usize, Option<P0>)
        requires { IsSome (get self.now first) }
        ensures filled { Fills (from_index self.now.entries first.0) entries.old entries.new result.0 }
        ensures rest { result.1
            ≡ first_pointer (drop result.0 (from_index self.now.entries first.0)) }
    {
        let Some(mut range) = self.pairs.iter_from(first) else {
            return (0, None);
        };
        for i in 0..entries.len() {
            match range.next() {
                Some(shown) => entries[i] = Entry::of(shown),
                None => return (i, None),
            }
        }
        let rest = match range.next() {
            Some((p, _, _)) => Some(p),
            None => None,
        };
        (entries.len(), rest)
    }

    /// Fills an array with the entries from the one at `first` on, backwards. Returns how many they are, and the pointer of the one before
    /// them.
    pub fn fill_back(&self, first: P0, entries: &mut [Entry]) -> (usize, Option<P0>)
        requires { IsSome (get self.now first) }
        ensures filled { Fills (from_index (reverse self.now.entries) first.0) entries.old entries.new result.0 }
        ensures rest { result.1
            ≡ first_pointer (drop result.0 (from_index (reverse self.now.entries) first.0)) }
    {
        // For the prover: the arena is sound.
        let _ = self.pairs.len();
        let mut next = Some(first);
        for i in 0..entries.len() {
            match self.entry_found(next) {
                Some(entry) => {
                    entries[i] = entry;
                    next = self.pairs.prev(entry.pointer.p0());
                }
                None => return (i, None),
            }
        }
        (entries.len(), next)
    }

    /// Removes entries whose key is at most `until`, and fills an array with them. Returns how many they are.
    pub fn pop_until(&mut self, until: i64, entries: &mut [Entry]) -> usize
        ensures filled { Fills (entries_until int_cmp until self.old.entries)
            entries.old entries.new result }
        ensures left { self.new.entries ≡ drop result self.old.entries }
        ensures generation { self.new.generation
            ≡ generation_after greatest_generation result self.old.generation }
        ensures capacity { self.new.capacity ≡ self.old.capacity }
    {
        for i in 0..entries.len() {
            let first = self.entry_found(self.pairs.first());
            match (first, self.pairs.pop_first_until(&until)) {
                (Some(entry), Some(_)) => entries[i] = entry,
                _ => return i,
            }
        }
        entries.len()
    }
}
