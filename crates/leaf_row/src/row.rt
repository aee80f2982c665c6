//! `Row`: up to 31 entries in order.
ghost use Rattle.std.specs.Prelude.{◌≡◌, ◌+◌, ◌-◌, ◌≤◌, ◌<◌, ℕ, List, [], ◌∷◌, ◌++◌, map, true, false, length, take, drop, reverse, IfOk, slice_get, slice_set, Some};
ghost use Rattle.std.specs.List.{insert, remove, Sorted.IsPartitionPoint};
ghost use Rattle.leaf_row.specs.{Before.is_passed, Before.IsWithinHalvings, Named.IsNamed};

use crate::keys::put_key;
use crate::names::{place, shift_in, shift_out, turn_front};
use crate::search::count_before;
use crate::{ROW, STRIDE};
use arena_base::BasePtrInx;
use std::alloc::{AllocError, Allocator};
use std::marker::Model;

/// Up to 31 entries in order. An entry is a key and a name, which is the index of a slot.
///
/// `new` and `clone_in` allocate all that a row ever needs; no other call allocates. In contracts a row is the list of its entries.
#[derive(Drop)]
pub struct Row<K, I: BasePtrInx, A: Allocator> {
    keys: Vec<K, A>,
    // Longer than a row, so that every shift moves `ROW` names and needs no loop.
    names: Vec<I, A>,
}

impl<K, I: BasePtrInx, A: Allocator> Model for Row<K, I, A> {
    ghost use Rattle.std.specs.Prelude.{◌≡◌, ◌≤◌, List, length, vec_capacity};
    ghost use Rattle.std.specs.List.{zip};
    ghost use Rattle.leaf_row.specs.Padding.{IsPadded};

    ghost Value = { List (K × I) };

    ghost view = { λ r. zip r.keys.items r.names.items };

    ghost invariant = { λ r. (length r.keys.items ≤ 31) × (31 ≤ vec_capacity r.keys)
        × (length r.names.items ≡ 64) × IsPadded I.number r.keys.items r.names.items };
}

impl<K, I: BasePtrInx, A: Allocator> Row<K, I, A> {
    /// Creates an empty row, with room for all that it can hold. Fails if allocation fails.
    pub fn new(alloc: A) -> Result<Self, AllocError>
    where
        A: Copy,
        ensures { IfOk result (λ row. row ≡ []) }
    {
        let keys = Vec::with_capacity(alloc, ROW)?;
        let mut names = Vec::new(alloc);
        if names.resize(STRIDE, I::zero()).is_err() {
            keys.destroy_empty();
            return Err(AllocError);
        }
        Ok(Row { keys, names })
    }

    /// Deallocates an empty row.
    pub fn destroy_empty(self)
        requires { self ≡ [] }
    {
        self.keys.destroy_empty();
    }

    /// Drops all entries.
    pub fn clear(&mut self)
    where
        K: Drop,
        ensures { self.new ≡ [] }
    {
        // For the prover: there are few.
        let _ = self.len();
        while self.len() > 0 {
            let _ = self.pop();
        }
    }

    /// Returns a clone of this row on an allocator. A clone of a key has to equal the key.
    ///
    /// # Errors
    ///
    /// Allocating the row or cloning a key failed.
    pub fn clone_in(&self, alloc: A) -> Result<Self, AllocError>
    where
        K: Clone + Drop,
        A: Copy,
        requires { (x y : K) → K.is_clone x y → y ≡ x }
        ensures { IfOk result (λ row. row ≡ self.now) }
    {
        let mut row = Row::new(alloc)?;
        let n = self.len();
        for i in 0..n {
            row.push(self.keys[i].clone()?, self.names[i]);
        }
        Ok(row)
    }

    /// Returns the number of entries.
    #[inline(always)]
    pub fn len(&self) -> usize
        ensures value { result ≡ length self.now }
        ensures few { length self.now ≤ 31 }
    {
        self.keys.len()
    }

    /// Inserts an entry at an index. O(1): at most 31 keys and always 31 names are moved.
    #[inline(always)]
    pub fn put(&mut self, at: usize, k: K, name: I)
        requires within { at ≤ length self.old }
        requires room { length self.old < 31 }
        ensures { self.new ≡ insert self.old at (k, name) }
    {
        put_key(&mut self.keys, at, k);
        shift_in(self.names.as_mut_slice(), at, name);
    }

    /// Removes and returns the entry at an index. O(1).
    #[inline(always)]
    pub fn take(&mut self, at: usize) -> (K, I)
        requires { at < length self.old }
        ensures entry { slice_get self.old at ≡ Some result }
        ensures rest { self.new ≡ remove self.old at }
    {
        let k = self.keys.remove(at);
        let name = shift_out(self.names.as_mut_slice(), at);
        (k, name)
    }

    /// Appends an entry. O(1).
    #[inline(always)]
    pub fn push(&mut self, k: K, name: I)
        requires { length self.old < 31 }
        ensures { self.new ≡ self.old ++ (k, name) ∷ [] }
    {
        let n = self.keys.len();
        self.keys.push_reserved(k);
        self.names[n] = name;
    }

    /// Removes and returns the last entry. O(1).
    #[inline(always)]
    pub fn pop(&mut self) -> (K, I)
        requires { 0 < length self.old }
        ensures { self.old ≡ self.new ++ result ∷ [] }
    {
        let k = self.keys.take_last();
        let n = self.keys.len();
        let name = self.names[n];
        self.names[n] = self.names[STRIDE - 1];
        (k, name)
    }

    /// Moves the entries from an index on to an empty row.
    pub fn move_tail(&mut self, at: usize, to: &mut Self)
        requires within { at ≤ length self.old }
        requires empty { to.old ≡ [] }
        ensures left { self.new ≡ take at self.old }
        ensures moved { to.new ≡ drop at self.old }
    {
        // For the prover: there are few.
        let _ = self.len();
        while self.len() > at {
            let (k, name) = self.pop();
            to.push(k, name);
        }
        to.reverse();
    }

    /// Appends all entries to another row, which has room for them, and leaves this row empty.
    pub fn move_all(&mut self, to: &mut Self)
        requires { length self.old + length to.old ≤ 31 }
        ensures left { self.new ≡ [] }
        ensures moved { to.new ≡ to.old ++ self.old }
    {
        self.reverse();
        // For the prover: there are few.
        let _ = self.len();
        while self.len() > 0 {
            let (k, name) = self.pop();
            to.push(k, name);
        }
    }

    // Reverses the order of the entries.
    fn reverse(&mut self)
        ensures { self.new ≡ reverse self.old }
    {
        let n = self.keys.len();
        self.keys.as_mut_slice().reverse();
        turn_front(self.names.as_mut_slice(), n);
    }

    /// Returns the keys.
    #[inline(always)]
    pub fn keys(&self) -> &[K]
        ensures { result.now ≡ map (λ e. e.0) self.now }
    {
        self.keys.as_slice()
    }

    /// Returns the names, followed by others that mean nothing, `ROW` in all.
    #[inline(always)]
    pub fn names(&self) -> &[I]
        ensures { take (length self.now) result.now ≡ map (λ e. e.1) self.now }
    {
        &self.names.as_slice()[..ROW]
    }

    /// Replaces the name of the entry at an index.
    #[inline(always)]
    pub fn set_name(&mut self, at: usize, name: I)
        requires { at < length self.old }
        ensures keys { map (λ e. e.0) self.new ≡ map (λ e. e.0) self.old }
        ensures names { map (λ e. e.1) self.new ≡ slice_set (map (λ e. e.1) self.old) at name }
    {
        self.names[at] = name;
    }

    /// Returns one more than the index of the entry with a name; 0 if no entry has it. At most one entry may have it.
    #[inline(always)]
    pub fn place(&self, name: I) -> usize
        requires named { 0 < I.number name }
        requires once { (i j : ℕ) → IsNamed I.number self.now i (I.number name)
            → IsNamed I.number self.now j (I.number name) → i ≡ j }
        ensures within { result ≤ length self.now }
        ensures found { 0 < result → IsNamed I.number self.now (result - 1) (I.number name) }
        ensures none { result ≡ 0 → (i : ℕ) → IsNamed I.number self.now i (I.number name) → ⊥ }
    {
        place(&self.names.as_slice()[..ROW], name)
    }

    /// Returns the number of keys that are less than `k`, or at most `k` if `with_equals`, and the number of keys that it compared: of n keys
    /// at most as many as n has binary digits.
    ///
    /// If the keys are not in order, the first number is any index of the row, or its length.
    #[inline(always)]
    pub fn count_before(&self, k: &K, with_equals: bool) -> (usize, usize)
    where
        K: Ord,
        ensures within { result.0 ≤ length self.now }
        ensures place { (q : ℕ) → q ≤ length self.now
            → IsPartitionPoint (λ e. is_passed with_equals (K.cmp k.now e.0) ≡ true)
            (λ e. is_passed with_equals (K.cmp k.now e.0) ≡ false) self.now q → result.0 ≡ q }
        ensures visits { IsWithinHalvings (length self.now) result.1 }
    {
        count_before(self.keys.as_slice(), k, with_equals)
    }
}
