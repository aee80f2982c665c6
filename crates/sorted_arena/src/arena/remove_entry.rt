//! Removals that also return the pointer that the entry had. None of them takes memory.

ghost use Rattle.std.specs.Prelude.{◌≡◌, ◌≢◌, Some, None, IfSome, IfNone, OnSome};
ghost use Rattle.std.specs.List.{All};
ghost use Rattle.std.specs.Option.{option_map};
ghost use Rattle.std.specs.Ordering.{is_eq};
ghost use Rattle.std.specs.declared.cmp.Ordering.TheVariants.{Greater};
ghost use Rattle.listing.specs.Gap.{first_of, last_of};
ghost use Rattle.sorted_arena.specs.Given.{given_entry};
ghost use Rattle.sorted_arena.specs.Sorted.{get, first_where, key_of, without_first, without_last, without_where, IsAbsent, IsSound, Updates};

use super::SortedArena;
use std::alloc::Allocator;
use triple_ord::BasePtr;

impl<K: Ord, V, P: BasePtr, A: Allocator> SortedArena<K, V, P, A> {
    /// Removes the first entry, as [`pop_first`](Self::pop_first) does, and returns the pointer that it had, its key and its value, in
    /// O(log n). `None` if there is none.
    ///
    /// ```
    /// let ada = users.insert(100, "Ada").map_err(|refused| refused.1)?;
    /// assert_eq!(rt; users.pop_first_entry(), Some((ada, 100, "Ada")));
    /// assert!(rt; !users.contains(ada));
    /// ```
    pub fn pop_first_entry(&mut self) -> Option<(P, K, V)>
        ensures value { option_map (given_entry P.numbers) result ≡ first_of self.old.entries }
        ensures after { self.new ≡ without_first P.Gen.greatest self.old }
        ensures named { IfSome result
            (λ x. get self.old (P.numbers x.0) ≡ Some (x.1, x.2)) }
        ensures updates { IfSome result
            (λ x. Updates self.old self.new (P.numbers x.0) None) }
        ensures sound { IsSound K.cmp P.Inx.most self.old }
    {
        let first = self.first()?;
        let (k, v) = self.remove(first)?;
        Some((first, k, v))
    }

    /// Removes the last entry, as [`pop_last`](Self::pop_last) does, and returns the pointer that it had, its key and its value, in O(log n).
    /// `None` if there is none.
    pub fn pop_last_entry(&mut self) -> Option<(P, K, V)>
        ensures value { option_map (given_entry P.numbers) result
            ≡ last_of None self.old.entries }
        ensures after { self.new ≡ without_last P.Gen.greatest self.old }
        ensures named { IfSome result
            (λ x. get self.old (P.numbers x.0) ≡ Some (x.1, x.2)) }
        ensures updates { IfSome result
            (λ x. Updates self.old self.new (P.numbers x.0) None) }
        ensures sound { IsSound K.cmp P.Inx.most self.old }
    {
        let last = self.last()?;
        let (k, v) = self.remove(last)?;
        Some((last, k, v))
    }

    /// Removes the first entry if its key is at most `until`, as [`pop_first_until`](Self::pop_first_until) does, and returns the pointer
    /// that it had, its key and its value, in O(log n).
    ///
    /// If all keys are greater, returns `None` and nothing changes.
    pub fn pop_first_entry_until(&mut self, until: &K) -> Option<(P, K, V)>
        ensures value { IfSome result
            (λ x. first_of self.old.entries ≡ Some (given_entry P.numbers x)) }
        ensures reached { IfSome result (λ x. K.cmp x.1 until.now ≢ Greater) }
        ensures gone { OnSome result (self.new ≡ without_first P.Gen.greatest self.old) }
        ensures named { IfSome result
            (λ x. get self.old (P.numbers x.0) ≡ Some (x.1, x.2)) }
        ensures updates { IfSome result
            (λ x. Updates self.old self.new (P.numbers x.0) None) }
        ensures none { IfNone result (self.new ≡ self.old) }
        ensures sound { IsSound K.cmp P.Inx.most self.old }
        ensures left { IfNone result
            (All (λ e. K.cmp (key_of e) until.now ≡ Greater) self.new.entries) }
    {
        let first = self.first()?;
        let (k, v) = self.pop_first_until(until)?;
        Some((first, k, v))
    }

    /// Removes the first entry whose key equals `k`, as [`remove_key`](Self::remove_key) does, and returns the pointer that it had, its key
    /// and its value, in O(log n). `None` exactly if no entry has this key; nothing changes then.
    pub fn remove_key_entry(&mut self, k: &K) -> Option<(P, K, V)>
        ensures found { option_map (λ x. P.numbers x.0) result
            ≡ first_where (λ e. is_eq (K.cmp k.now (key_of e))) self.old.entries }
        ensures named { IfSome result
            (λ x. get self.old (P.numbers x.0) ≡ Some (x.1, x.2)) }
        ensures absent { IfNone result (IsAbsent K.cmp self.old k.now) }
        ensures after { self.new
            ≡ without_where P.Gen.greatest self.old (λ e. is_eq (K.cmp k.now (key_of e))) }
        ensures updates { IfSome result
            (λ x. Updates self.old self.new (P.numbers x.0) None) }
        ensures none { IfNone result (self.new ≡ self.old) }
        ensures sound { IsSound K.cmp P.Inx.most self.old }
    {
        let p = self.find(k)?;
        let (key, value) = self.remove(p)?;
        Some((p, key, value))
    }
}
