//! Entries that get another key. They keep their pointers.

ghost use Rattle.std.specs.Prelude.{◌≡◌, ◌↔◌, Err, Some, None, IfOk, OnOk, IfErr, OnErr, IfSome, IsSome};
ghost use Rattle.std.specs.Option.{option_map};
ghost use Rattle.sorted_arena.specs.Sorted.{get, count, with_key, IsSound, Updates};
ghost use Rattle.sorted_arena.specs.Unique.{first_other, other_in_way};

use super::SortedArena;
use crate::error::RekeyUniqueError;
use crate::range::are_same;
use std::alloc::Allocator;
use triple_ord::BasePtr;

impl<K: Ord, V, P: BasePtr, A: Allocator> SortedArena<K, V, P, A> {
    /// Gives the entry at `p` the key `k`, moves it to the place of that key, and returns the old key. Pointer and value stay.
    ///
    /// The entry goes behind all others whose key is at most `k`, as a new one does. O(log n), and no memory.
    ///
    /// ```
    /// let ada = users.insert(100, "Ada").map_err(|refused| refused.1)?;
    /// users.insert(120, "Grace").map_err(|refused| refused.1)?;
    /// assert_eq!(rt; users.rekey(ada, 140), Ok(100));
    /// assert_eq!(rt; users.last(), Some(ada));
    /// ```
    ///
    /// # Errors
    ///
    /// If `p` is stale, `k` comes back and nothing changes.
    pub fn rekey(&mut self, p: P, k: K) -> Result<K, K>
        ensures after { self.new ≡ with_key K.cmp self.old (P.numbers p) k }
        ensures updates { Updates self.old self.new (P.numbers p)
            (option_map (λ e. (k, e.1)) (get self.old (P.numbers p))) }
        ensures count { count self.new ≡ count self.old }
        ensures before { IfOk result (λ before.
            option_map (λ e. e.0) (get self.old (P.numbers p)) ≡ Some before) }
        ensures sound { IsSound K.cmp P.Inx.most self.old }
        ensures stale { OnErr result (get self.old (P.numbers p) ≡ None) }
        ensures back { IfErr result (λ back. back ≡ k) }
    {
        let rekeyed = self.pairs.rekey_pair(p, k);
        self.is_compact = self.is_compact && rekeyed.is_err();
        // For the prover: the arena is sound.
        let _ = self.len();
        rekeyed
    }

    /// Gives the entry at `p` the key `k`, as [`rekey`](Self::rekey) does, unless another entry has an equal key. O(log n).
    ///
    /// ```
    /// let ada = names.insert(7, "Ada").map_err(|refused| refused.1)?;
    /// let alan = names.insert(8, "Alan").map_err(|refused| refused.1)?;
    /// assert_eq!(rt; names.rekey_unique(ada, 8), Err((8, RekeyUniqueError::EqualKey(alan))));
    /// assert_eq!(rt; names.rekey_unique(ada, 9), Ok(7));
    /// ```
    ///
    /// # Errors
    ///
    /// `k` comes back, and nothing changes.
    /// - `Stale`: `p` names no entry.
    /// - `EqualKey(q)`: another entry has an equal key, the first of them at `q`.
    #[tactic(auto, using(listing::proofs::CallerLemmas::words))]
    pub fn rekey_unique(&mut self, p: P, k: K) -> Result<K, (K, RekeyUniqueError<P>)>
        ensures ok { OnOk result (self.new ≡ with_key K.cmp self.old (P.numbers p) k) }
        ensures before { IfOk result (λ before.
            option_map (λ e. e.0) (get self.old (P.numbers p)) ≡ Some before) }
        ensures err { OnErr result (self.new ≡ self.old) }
        ensures sound { IsSound K.cmp P.Inx.most self.old }
        ensures alone { OnOk result
            (first_other K.cmp (P.numbers p) k self.old.entries ≡ None) }
        ensures equal { IfSome (other_in_way result) (λ q.
            Some (P.numbers q) ≡ first_other K.cmp (P.numbers p) k self.old.entries) }
        ensures stale { (result ≡ Err (k, RekeyUniqueError.Stale))
            ↔ (get self.old (P.numbers p) ≡ None) }
        ensures back { IfErr result (λ e. e.0 ≡ k) }
    {
        // For the prover: the arena is sound.
        let _ = self.len();
        if !self.contains(p) {
            return Err((k, RekeyUniqueError::Stale));
        }
        if let Some(other) = self.other_equal(p, &k) {
            return Err((k, RekeyUniqueError::EqualKey(other)));
        }
        match self.rekey(p, k) {
            Ok(before) => Ok(before),
            Err(k) => Err((k, RekeyUniqueError::Stale)),
        }
    }

    // The pointer of the first entry whose key equals `k`, but for the entry at `p`.
    fn other_equal(&self, p: P, k: &K) -> Option<P>
        requires { IsSome (get self.now (P.numbers p)) }
        ensures { option_map P.numbers result
            ≡ first_other K.cmp (P.numbers p) k.now self.now.entries }
    {
        let first = self.find(k)?;
        if !are_same::<P>(Some(first.inx()), Some(p.inx())) {
            return Some(first);
        }
        let next = self.next(p)?;
        if k.cmp(self.key(next)?).is_eq() {
            Some(next)
        } else {
            None
        }
    }
}
