//! Removals. None of them takes memory.

ghost use Rattle.std.specs.Prelude.{◌≡◌, ◌≢◌, ◌+◌, is_some, Some, None, OnOk, IfSome, IfNone, OnSome};
ghost use Rattle.std.specs.List.{All};
ghost use Rattle.std.specs.Option.{option_and_then};
ghost use Rattle.std.specs.Ordering.{is_eq, is_gt};
ghost use Rattle.std.specs.declared.cmp.Ordering.TheVariants.{Greater};
ghost use Rattle.sorted_arena.specs.Sorted.{get, count, first_where, key_of, first_item, last_item};
ghost use Rattle.sorted_arena.specs.Sorted.{first_item_until, entries_until, IsAbsent, IsSound, Updates};
ghost use Rattle.sorted_arena.specs.Sorted.{without_entry, without_first, without_last, without_where, with_passing};
ghost use Rattle.sorted_arena.specs.Answer.{AnswersAt};
ghost use Rattle.sorted_arena.specs.Change.{DrainsInto};

use super::SortedArena;
use crate::pairs::is_last_in;
use std::alloc::{AllocError, Allocator};
use std::ops::Bound;
use triple_ord::BasePtr;

impl<K: Ord, V, P: BasePtr, A: Allocator> SortedArena<K, V, P, A> {
    /// Removes the entry at `p` and returns its key and value, in O(log n). If `p` is stale, returns `None` and nothing changes.
    ///
    /// ```
    /// let ada = users.insert(100, "Ada").map_err(|refused| refused.1)?;
    /// assert_eq!(rt; users.remove(ada), Some((100, "Ada")));
    /// users.insert(100, "Alan").map_err(|refused| refused.1)?;
    /// assert_eq!(rt; users.remove(ada), None);
    /// ```
    pub fn remove(&mut self, p: P) -> Option<(K, V)>
        ensures value { result ≡ get self.old (P.numbers p) }
        ensures after { self.new ≡ without_entry P.Gen.greatest self.old (P.numbers p) }
        ensures updates { Updates self.old self.new (P.numbers p) None }
        ensures count { OnSome result (count self.old ≡ count self.new + 1) }
        ensures none { IfNone result (self.new ≡ self.old) }
        ensures sound { IsSound K.cmp P.Inx.most self.old }
    {
        let pairs = self.pairs();
        let stays_compact = self.is_compact && is_last_in(pairs, p);
        let pair = self.pairs.remove(p).allow()?;
        self.is_compact = stays_compact;
        Some(pair.into_k_v())
    }

    /// Removes the first entry whose key equals `k` and returns its key and value, in O(log n). `None` exactly if no entry has this
    /// key; nothing changes then.
    ///
    /// ```
    /// users.insert(100, "Ada").map_err(|refused| refused.1)?;
    /// users.insert(100, "Alan").map_err(|refused| refused.1)?;
    /// assert_eq!(rt; users.remove_key(&100), Some((100, "Ada")));
    /// assert_eq!(rt; users.remove_key(&120), None);
    /// ```
    pub fn remove_key(&mut self, k: &K) -> Option<(K, V)>
        ensures value { result ≡ option_and_then (get self.old)
            (first_where (λ e. is_eq (K.cmp k.now (key_of e))) self.old.entries) }
        ensures absent { IfNone result (IsAbsent K.cmp self.old k.now) }
        ensures after { self.new
            ≡ without_where P.Gen.greatest self.old (λ e. is_eq (K.cmp k.now (key_of e))) }
        ensures count { OnSome result (count self.old ≡ count self.new + 1) }
        ensures none { IfNone result (self.new ≡ self.old) }
        ensures sound { IsSound K.cmp P.Inx.most self.old }
    {
        let p = self.find(k)?;
        self.remove(p)
    }

    /// Removes the first entry, which has the smallest key, and returns its key and value, in O(log n). `None` if there is none.
    ///
    /// ```
    /// users.insert(120, "Grace").map_err(|refused| refused.1)?;
    /// users.insert(100, "Ada").map_err(|refused| refused.1)?;
    /// assert_eq!(rt; users.pop_first(), Some((100, "Ada")));
    /// ```
    pub fn pop_first(&mut self) -> Option<(K, V)>
        ensures value { result ≡ first_item self.old.entries }
        ensures after { self.new ≡ without_first P.Gen.greatest self.old }
        ensures sound { IsSound K.cmp P.Inx.most self.old }
    {
        let first = self.first()?;
        self.remove(first)
    }

    /// Removes the last entry, which has the greatest key, and returns its key and value, in O(log n). `None` if there is none.
    pub fn pop_last(&mut self) -> Option<(K, V)>
        ensures value { result ≡ last_item self.old.entries }
        ensures after { self.new ≡ without_last P.Gen.greatest self.old }
        ensures sound { IsSound K.cmp P.Inx.most self.old }
    {
        let last = self.last()?;
        self.remove(last)
    }

    /// Removes the first entry if its key is at most `until`, and returns its key and value, in O(log n).
    ///
    /// If all keys are greater, returns `None` and nothing changes.
    ///
    /// ```
    /// users.insert(100, "Ada").map_err(|refused| refused.1)?;
    /// users.insert(120, "Grace").map_err(|refused| refused.1)?;
    /// assert_eq!(rt; users.pop_first_until(&110), Some((100, "Ada")));
    /// assert_eq!(rt; users.pop_first_until(&110), None);
    /// ```
    pub fn pop_first_until(&mut self, until: &K) -> Option<(K, V)>
        ensures value { result ≡ first_item_until K.cmp until.now self.old.entries }
        ensures reached { IfSome result (λ e. K.cmp e.0 until.now ≢ Greater) }
        ensures gone { OnSome result (self.new ≡ without_first P.Gen.greatest self.old) }
        ensures none { IfNone result (self.new ≡ self.old) }
        ensures sound { IsSound K.cmp P.Inx.most self.old }
        ensures left { IfNone result
            (All (λ e. K.cmp (key_of e) until.now ≡ Greater) self.new.entries) }
    {
        let first = self.first()?;
        let (k, _) = self.get(first)?;
        if k.cmp(until).is_gt() {
            return None;
        }
        self.remove(first)
    }

    /// Removes the first entry if `f` answers `true` for its key and its value, and returns these, in O(log n).
    ///
    /// If there is none, or `f` answers `false`, returns `None` and nothing changes.
    pub fn pop_first_if<F: FnOnce(&K, &V) -> bool>(&mut self, f: F) -> Option<(K, V)>
        requires { F.IsAlwaysCallable f }
        ensures value { IfSome result (λ x. first_item self.old.entries ≡ Some x) }
        ensures asked { IfSome (first_item self.old.entries)
            (λ x. AnswersAt F.FnOnce f x.0 x.1 (is_some result)) }
        ensures gone { OnSome result (self.new ≡ without_first P.Gen.greatest self.old) }
        ensures none { IfNone result (self.new ≡ self.old) }
        ensures sound { IsSound K.cmp P.Inx.most self.old }
    {
        let first = self.first()?;
        let (k, v) = self.get(first)?;
        if !f(k, v) {
            return None;
        }
        self.remove(first)
    }

    /// Moves all entries whose key is at most `until` to the end of a vector, in order. O(log n) for each.
    ///
    /// ```
    /// let mut users: SortedArena<u64, &str> = SortedArena::new(rt.alloc());
    /// users.insert(100, "Ada").map_err(|refused| refused.1)?;
    /// users.insert(110, "Alan").map_err(|refused| refused.1)?;
    /// users.insert(120, "Grace").map_err(|refused| refused.1)?;
    /// let mut ended = Vec::new(rt.alloc());
    /// users.pop_until(&110, &mut ended)?;
    /// assert!(rt; ended.iter().eq(&[(100, "Ada"), (110, "Alan")]));
    /// ```
    ///
    /// # Errors
    ///
    /// If the vector is refused memory, nothing changes.
    pub fn pop_until<'k, B: Allocator>(
        &mut self,
        until: &'k K,
        popped: &mut Vec<(K, V), B>,
    ) -> Result<(), AllocError>
    where
        K: Drop,
        V: Drop,
        ensures drains { DrainsInto P.Gen.greatest self.old
            (entries_until K.cmp until.now self.old.entries)
            (λ e. is_gt (K.cmp (key_of e) until.now))
            popped.old popped.new result self.new }
        ensures left { OnOk result
            (All (λ e. K.cmp (key_of e) until.now ≡ Greater) self.new.entries) }
    {
        let from: Bound<&'k K> = Bound::Unbounded;
        self.drain_between(from, Bound::Included(until), popped)
    }

    /// Removes and drops all entries whose key is at most `until`, and returns how many there were. O(log n) for each.
    pub fn remove_until<'k>(&mut self, until: &'k K) -> usize
    where
        K: Drop,
        V: Drop,
        ensures after { self.new
            ≡ with_passing P.Gen.greatest self.old (λ e. is_gt (K.cmp (key_of e) until.now)) }
        ensures count { count self.new + result ≡ count self.old }
        ensures sound { IsSound K.cmp P.Inx.most self.old }
        ensures left { All (λ e. K.cmp (key_of e) until.now ≡ Greater) self.new.entries }
    {
        let from: Bound<&'k K> = Bound::Unbounded;
        self.remove_between(from, Bound::Included(until))
    }
}
