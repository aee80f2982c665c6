//! Entries that are kept by a test.

ghost use Rattle.std.specs.Prelude.{◌≡◌, ◌≤◌, Some};
ghost use Rattle.std.specs.Option.{option_map};
ghost use Rattle.std.specs.List.Retain.{IsFiltered};
ghost use Rattle.sorted_arena.specs.Answer.{AnswersFor};
ghost use Rattle.sorted_arena.specs.Taking.{IsCutAt, AsksFor};
ghost use Rattle.sorted_arena.specs.Sorted.{count, with_rest, IsSound};

use super::SortedArena;
use std::alloc::Allocator;
use triple_ord::BasePtr;

impl<K: Ord + Drop, V: Drop, P: BasePtr, A: Allocator> SortedArena<K, V, P, A> {
    /// Asks `f` once for each entry, in order, and removes the entries for which it answers `false`. The others keep their pointers.
    ///
    /// O(n) calls, and O(log n) for each entry that is removed.
    ///
    /// ```
    /// scores.insert("Ada", 3).map_err(|refused| refused.1)?;
    /// scores.insert("Alan", 0).map_err(|refused| refused.1)?;
    /// scores.retain(|_, score| *score > 0);
    /// assert!(rt; scores.keys().eq(&["Ada"]));
    /// ```
    pub fn retain<F: FnMut(&K, &V) -> bool>(&mut self, mut f: F)
        requires { F.IsAlwaysCallable f }
        ensures filtered { IsFiltered (AnswersFor F.FnMut) f self.old.entries self.new.entries }
        ensures after { self.new ≡ with_rest P.Gen.greatest self.old self.new.entries }
        ensures count { count self.new ≤ count self.old }
        ensures sound { IsSound K.cmp P.Inx.most self.new }
    {
        let mut next = self.first();
        while let Some(p) = next {
            next = self.ask(p, &mut f);
        }
    }

    // Asks for the entry at `p`, removes it if the answer is `false`, and returns the pointer of its successor.
    fn ask<F: FnMut(&K, &V) -> bool>(&mut self, p: P, f: &mut F) -> Option<P>
        requires named { IsCutAt self.old.entries (Some (P.numbers p)) }
        requires callable { F.IsAlwaysCallable f.old }
        ensures asks { (at : IsCutAt self.old.entries (Some (P.numbers p)))
            → AsksFor (AnswersFor F.FnMut) P.Gen.greatest self.old (Some (P.numbers p)) at f.old
            f.new self.new (option_map P.numbers result) }
        ensures still_callable { F.IsAlwaysCallable f.new }
        ensures sound { IsSound K.cmp P.Inx.most self.new }
    {
        let next = self.next(p);
        let (k, v) = self.get(p).unwrap();
        if f(k, v) {
            return next;
        }
        let _ = self.remove(p);
        next
    }
}
