//! Entries that are kept by a test that is shown their pointers too.

ghost use Rattle.std.specs.Prelude.{◌≡◌, ◌≤◌, Some};
ghost use Rattle.std.specs.Option.{option_map};
ghost use Rattle.std.specs.List.Retain.{IsFiltered};
ghost use Rattle.sorted_arena.specs.Answer.{AnswersForEntry};
ghost use Rattle.sorted_arena.specs.Taking.{IsCutAt, AsksFor};
ghost use Rattle.sorted_arena.specs.Sorted.{count, with_rest, IsSound};

use super::SortedArena;
use std::alloc::Allocator;
use triple_ord::BasePtr;

impl<K: Ord + Drop, V: Drop, P: BasePtr, A: Allocator> SortedArena<K, V, P, A> {
    /// Asks `f` once for each entry, in order, and removes the entries for which it answers `false`, as [`retain`](Self::retain) does. `f`
    /// is also given the entry's pointer, so that it can tell which pointers end.
    ///
    /// O(n) calls, and O(log n) for each entry that is removed.
    ///
    /// ```
    /// let ada = scores.insert("Ada", 3).map_err(|refused| refused.1)?;
    /// let alan = scores.insert("Alan", 0).map_err(|refused| refused.1)?;
    /// scores.retain_entries(|p, _, score| p == ada || *score > 0);
    /// assert!(rt; scores.contains(ada));
    /// assert!(rt; !scores.contains(alan));
    /// ```
    pub fn retain_entries<F: FnMut(P, &K, &V) -> bool>(&mut self, mut f: F)
        requires { F.IsAlwaysCallable f }
        ensures filtered { IsFiltered (AnswersForEntry P.numbers F.FnMut) f self.old.entries self.new.entries }
        ensures after { self.new ≡ with_rest P.Gen.greatest self.old self.new.entries }
        ensures count { count self.new ≤ count self.old }
        ensures sound { IsSound K.cmp P.Inx.most self.new }
    {
        let mut next = self.first();
        while let Some(p) = next {
            next = self.ask_entry(p, &mut f);
        }
    }

    // Asks for the entry at `p`, removes it if the answer is `false`, and returns the pointer of its successor.
    fn ask_entry<F: FnMut(P, &K, &V) -> bool>(&mut self, p: P, f: &mut F) -> Option<P>
        requires named { IsCutAt self.old.entries (Some (P.numbers p)) }
        requires callable { F.IsAlwaysCallable f.old }
        ensures asks { (at : IsCutAt self.old.entries (Some (P.numbers p)))
            → AsksFor (AnswersForEntry P.numbers F.FnMut) P.Gen.greatest self.old (Some (P.numbers p)) at f.old
            f.new self.new (option_map P.numbers result) }
        ensures still_callable { F.IsAlwaysCallable f.new }
        ensures sound { IsSound K.cmp P.Inx.most self.new }
    {
        let next = self.next(p);
        let (k, v) = self.get(p).unwrap();
        if f(p, k, v) {
            return next;
        }
        let _ = self.remove(p);
        next
    }
}
