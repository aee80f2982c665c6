//! Insertions.

ghost use Rattle.std.specs.Prelude.{◌≡◌, ◌↔◌, ◌+◌, Some, None, Err, IfOk, OnOk, IfErr, OnErr};
ghost use Rattle.std.specs.Option.{option_map};
ghost use Rattle.std.specs.Ordering.{is_eq};
ghost use Rattle.sorted_arena.specs.Sorted.{count, first_where, key_of, with_entry, IsAbsent, IsFree, IsSound, Updates, InsertsOrReplaces};
ghost use Rattle.sorted_arena.specs.Unique.{pointer_in_way};

use super::SortedArena;
use crate::error::UniqueInsertionError;
use crate::pairs::is_last_in;
use listing::insert_behind;
use std::alloc::Allocator;
use triple_ord::{BasePtr, ReallocationError};

impl<K: Ord + Drop, V: Drop, P: BasePtr, A: Allocator> SortedArena<K, V, P, A> {
    /// Inserts an entry after every entry with a key ≤ `k`, and returns its pointer. If it is full, the arena grows.
    ///
    /// ```
    /// let grace = users.insert(120, "Grace").map_err(|refused| refused.1)?;
    /// users.insert(100, "Ada").map_err(|refused| refused.1)?;
    /// users.insert(100, "Alan").map_err(|refused| refused.1)?;
    /// assert_eq!(rt; users.get(grace), Some((&120, &"Grace")));
    /// assert!(rt; users.values().eq(&["Ada", "Alan", "Grace"]));
    /// ```
    ///
    /// # Errors
    ///
    /// The pair comes back, and the arena is unchanged.
    /// - `BeyondMaxCapacity`: there are as many entries as pointers have indexes.
    /// - `AllocError`: growing failed.
    ///
    /// # Complexity
    ///
    /// O(log n), and one comparison if no key is greater than `k`; plus O(n) when the arena grows (amortized O(1)).
    pub fn insert(&mut self, k: K, v: V) -> Result<P, ((K, V), ReallocationError)>
        ensures ok { IfOk result
            (λ p. self.new ≡ with_entry K.cmp P.Inx.most self.old (P.numbers p) (k, v)) }
        ensures free { IfOk result (λ p. IsFree self.old (P.numbers p)) }
        ensures updates { IfOk result
            (λ p. Updates self.old self.new (P.numbers p) (Some (k, v))) }
        ensures count { OnOk result (count self.new ≡ count self.old + 1) }
        ensures back { IfErr result (λ e. e.0 ≡ (k, v)) }
        ensures err { OnErr result (self.new ≡ self.old) }
        ensures sound { IsSound K.cmp P.Inx.most self.new }
        ensures full { (result ≡ Err ((k, v), ReallocationError.BeyondMaxCapacity))
            ↔ (count self.old ≡ P.Inx.most) }
        ensures memory { result ≡ Err ((k, v), ReallocationError.AllocError)
            → count self.old ≡ self.old.capacity }
    {
        let p = insert_behind(&mut self.pairs, k, v)?;
        self.is_compact = self.is_compact && is_last_in(&self.pairs, p);
        Ok(p)
    }

    /// Replaces the value of the first entry whose key equals `k`, and returns its pointer and the old value. The entry keeps its key.
    /// If no entry has this key, inserts one, as [`insert`](Self::insert) does, and returns its pointer and `None`. O(log n).
    ///
    /// ```
    /// let (tea, before) = stock.replace("tea", 7).map_err(|refused| refused.1)?;
    /// assert_eq!(rt; before, None);
    /// assert_eq!(rt; stock.replace("tea", 8).map_err(|refused| refused.1)?, (tea, Some(7)));
    /// ```
    ///
    /// # Errors
    ///
    /// Those of `insert`, if no entry has this key: the pair comes back, and the arena is unchanged.
    pub fn replace(&mut self, k: K, v: V) -> Result<(P, Option<V>), ((K, V), ReallocationError)>
        ensures ok { IfOk result
            (λ a. InsertsOrReplaces K.cmp P.Inx.most self.old (P.numbers a.0) k v a.1 self.new) }
        ensures back { IfErr result (λ e. e.0 ≡ (k, v)) }
        ensures absent { OnErr result (IsAbsent K.cmp self.old k) }
        ensures full { (result ≡ Err ((k, v), ReallocationError.BeyondMaxCapacity))
            ↔ ((first_where (λ e. is_eq (K.cmp k (key_of e))) self.old.entries ≡ None)
            × (count self.old ≡ P.Inx.most)) }
        ensures memory { result ≡ Err ((k, v), ReallocationError.AllocError)
            → count self.old ≡ self.old.capacity }
        ensures err { OnErr result (self.new ≡ self.old) }
    {
        let at = self.find(&k);
        match at {
            Some(p) => {
                let before = self.set_value(p, v);
                Ok((p, before))
            }
            None => match self.insert(k, v) {
                Ok(p) => Ok((p, None)),
                Err(refused) => Err(refused),
            },
        }
    }

    /// Inserts an entry, as [`insert`](Self::insert) does, unless one has an equal key. O(log n).
    ///
    /// ```
    /// let ada = names.insert(7, "Ada").map_err(|refused| refused.1)?;
    /// assert_eq!(rt; names.insert_unique(7, "Alan"), Err(((7, "Alan"), UniqueInsertionError::EqualKey(ada))));
    /// ```
    ///
    /// # Errors
    ///
    /// The pair comes back, and the arena is unchanged.
    /// - `EqualKey(p)`: an entry has an equal key, the first of them at `p`.
    /// - `BeyondMaxCapacity`, `AllocError`: as `insert`.
    pub fn insert_unique(&mut self, k: K, v: V) -> Result<P, ((K, V), UniqueInsertionError<P>)>
        ensures ok { IfOk result
            (λ p. self.new ≡ with_entry K.cmp P.Inx.most self.old (P.numbers p) (k, v)) }
        ensures free { IfOk result (λ p. IsFree self.old (P.numbers p)) }
        ensures updates { IfOk result
            (λ p. Updates self.old self.new (P.numbers p) (Some (k, v))) }
        ensures count { OnOk result (count self.new ≡ count self.old + 1) }
        ensures back { IfErr result (λ e. e.0 ≡ (k, v)) }
        ensures err { OnErr result (self.new ≡ self.old) }
        ensures sound { IsSound K.cmp P.Inx.most self.new }
        ensures absent { OnOk result (IsAbsent K.cmp self.old k) }
        ensures equal { option_map P.numbers (pointer_in_way result)
            ≡ first_where (λ e. is_eq (K.cmp k (key_of e))) self.old.entries }
        ensures full { (result ≡ Err ((k, v), UniqueInsertionError.BeyondMaxCapacity))
            ↔ ((first_where (λ e. is_eq (K.cmp k (key_of e))) self.old.entries ≡ None)
            × (count self.old ≡ P.Inx.most)) }
        ensures memory { result ≡ Err ((k, v), UniqueInsertionError.AllocError)
            → count self.old ≡ self.old.capacity }
    {
        let at = self.find(&k);
        match at {
            Some(p) => Err(((k, v), UniqueInsertionError::EqualKey(p))),
            None => match self.insert(k, v) {
                Ok(p) => Ok(p),
                Err((pair, ReallocationError::BeyondMaxCapacity)) => {
                    Err((pair, UniqueInsertionError::BeyondMaxCapacity))
                }
                Err((pair, ReallocationError::AllocError)) => {
                    Err((pair, UniqueInsertionError::AllocError))
                }
            },
        }
    }
}
