//! Entries that are found by a key, or inserted.

ghost use Rattle.std.specs.Prelude.{◌≡◌, ◌↔◌, None, Err, IfOk, IfErr, OnErr};
ghost use Rattle.std.specs.Ordering.{is_eq};
ghost use Rattle.sorted_arena.specs.Given.{FindsOrInserts};
ghost use Rattle.sorted_arena.specs.Sorted.{count, first_where, key_of, IsAbsent, IsSound};

use super::SortedArena;
use std::alloc::Allocator;
use triple_ord::{BasePtr, ReallocationError};

impl<K: Ord + Drop, V: Drop, P: BasePtr, A: Allocator> SortedArena<K, V, P, A> {
    /// Returns the pointer of the first entry whose key equals `k`, and `v`, which isn't used then. If no entry has this key, inserts one, as
    /// [`insert`](Self::insert) does, and returns its pointer and `None`. O(log n).
    ///
    /// ```
    /// let (tea, back) = stock.find_or_insert("tea", 7).map_err(|refused| refused.1)?;
    /// assert_eq!(rt; back, None);
    /// assert_eq!(rt; stock.find_or_insert("tea", 8).map_err(|refused| refused.1)?, (tea, Some(8)));
    /// assert_eq!(rt; stock.get(tea), Some((&"tea", &7)));
    /// ```
    ///
    /// # Errors
    ///
    /// Those of `insert`, if no entry has this key: the pair comes back, and the arena is unchanged.
    pub fn find_or_insert(
        &mut self,
        k: K,
        v: V,
    ) -> Result<(P, Option<V>), ((K, V), ReallocationError)>
        ensures ok { IfOk result
            (λ a. FindsOrInserts K.cmp P.Inx.most self.old (P.numbers a.0) k v a.1 self.new) }
        ensures back { IfErr result (λ e. e.0 ≡ (k, v)) }
        ensures absent { OnErr result (IsAbsent K.cmp self.old k) }
        ensures full { (result ≡ Err ((k, v), ReallocationError.BeyondMaxCapacity))
            ↔ ((first_where (λ e. is_eq (K.cmp k (key_of e))) self.old.entries ≡ None)
            × (count self.old ≡ P.Inx.most)) }
        ensures memory { result ≡ Err ((k, v), ReallocationError.AllocError)
            → count self.old ≡ self.old.capacity }
        ensures err { OnErr result (self.new ≡ self.old) }
        ensures sound { IsSound K.cmp P.Inx.most self.old }
    {
        let at = self.find(&k);
        match at {
            Some(p) => Ok((p, Some(v))),
            None => match self.insert(k, v) {
                Ok(p) => Ok((p, None)),
                Err(refused) => Err(refused),
            },
        }
    }
}
