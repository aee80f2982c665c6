//! Entries by a text, where the keys are strings.

ghost use Rattle.std.specs.Prelude.{◌≡◌, String, string_bytes, string_cmp, is_some, count_by, IfNone};
ghost use Rattle.std.specs.Option.{option_and_then};
ghost use Rattle.std.specs.Ordering.{is_eq};
ghost use Rattle.sorted_arena.specs.Find.{FindsFirstEqual, FindsLowerBound};
ghost use Rattle.sorted_arena.specs.Sorted.{get, first_where, key_of, without_where};

use super::SortedArena;
use std::alloc::Allocator;
use triple_ord::BasePtr;

impl<V, P: BasePtr, A: Allocator, S: Allocator> SortedArena<String<S>, V, P, A> {
    /// Returns the pointer of the first entry whose key is this text, as [`find`](Self::find) of an equal `String` does, in O(log n). `None`
    /// if there is none. Takes no memory.
    ///
    /// ```
    /// let name = String::from_str(rt.alloc(), "Ada")?;
    /// let ada = ids.insert(name, 7).map_err(|refused| refused.1)?;
    /// assert_eq!(rt; ids.find_str("Ada"), Some(ada));
    /// assert_eq!(rt; ids.find_str("Alan"), None);
    /// ```
    pub fn find_str(&self, text: &str) -> Option<P>
        ensures { (k : String S) → string_bytes k ≡ text.now
            → FindsFirstEqual string_cmp P.Inx.most P.numbers self.now k result }
    {
        self.find_by(|key| key.as_str().cmp(text))
    }

    /// Returns whether a key is this text, in O(log n).
    pub fn contains_str(&self, text: &str) -> bool
        ensures { (k : String S) → string_bytes k ≡ text.now → result
            ≡ is_some (first_where (λ e. is_eq (string_cmp k (key_of e))) self.now.entries) }
    {
        self.find_str(text).is_some()
    }

    /// Returns the pointer of the first entry whose key is at least this text, as [`lower_bound`](Self::lower_bound) of an equal `String`
    /// does, in O(log n). `None` if all keys are less. Takes no memory.
    pub fn lower_bound_str(&self, text: &str) -> Option<P>
        ensures { (k : String S) → string_bytes k ≡ text.now
            → FindsLowerBound string_cmp P.Inx.most P.numbers self.now k result }
    {
        self.lower_bound_by(|key| key.as_str().cmp(text))
    }

    /// Returns how many entries have a key that is this text, as [`count_of`](Self::count_of) of an equal `String` does, in
    /// O(log n + their number). Takes no memory.
    pub fn count_of_str(&self, text: &str) -> usize
        ensures { (k : String S) → string_bytes k ≡ text.now → result
            ≡ count_by (λ e. is_eq (string_cmp k (key_of e))) self.now.entries }
    {
        let Some(p) = self.find_str(text) else {
            return 0;
        };
        match self.key(p) {
            Some(k) => self.count_of(k),
            None => 0,
        }
    }

    /// Removes the first entry whose key is this text, as [`remove_key`](Self::remove_key) of an equal `String` does, and returns its key
    /// and value, in O(log n). `None` if there is none; nothing changes then. Takes no memory.
    ///
    /// ```
    /// let name = String::from_str(rt.alloc(), "Ada")?;
    /// ids.insert(name, 7).map_err(|refused| refused.1)?;
    /// assert_eq!(rt; ids.count_of_str("Ada"), 1);
    /// assert_eq!(rt; ids.remove_str("Ada").map(|(_, id)| id), Some(7));
    /// assert_eq!(rt; ids.count_of_str("Ada"), 0);
    /// ```
    pub fn remove_str(&mut self, text: &str) -> Option<(String<S>, V)>
        ensures value { (k : String S) → string_bytes k ≡ text.now
            → result ≡ option_and_then (get self.old)
            (first_where (λ e. is_eq (string_cmp k (key_of e))) self.old.entries) }
        ensures after { (k : String S) → string_bytes k ≡ text.now
            → self.new ≡ without_where P.Gen.greatest self.old
            (λ e. is_eq (string_cmp k (key_of e))) }
        ensures none { IfNone result (self.new ≡ self.old) }
    {
        let p = self.find_str(text)?;
        self.remove(p)
    }
}
