//! Looking up entries by pointer and by index.
ghost use Rattle.std.specs.Prelude.{◌≡◌, Some, IsSome, is_some};
ghost use Rattle.std.specs.Option.{option_copied, option_map};
ghost use Rattle.triple_ord.specs.Arena.{item_of, entry_at, Reads};

use super::SimpleOrdArena;
use arena_base::BasePtr;
use std::alloc::Allocator;
use std::ops::Index;

impl<P: BasePtr, T, A: Allocator> SimpleOrdArena<P, T, A> {
    /// Returns whether the pointer names an entry. O(1).
    pub fn contains(&self, p: P) -> bool
        ensures { Reads P.Inx.most P.Gen.greatest self.now
            (result ≡ is_some (item_of self.now (P.numbers p))) }
    {
        self.chain().contains(p)
    }

    /// Returns whether there is an entry at the index. O(1).
    pub fn contains_inx(&self, i: P::Inx) -> bool
        ensures { result ≡ is_some (entry_at self.now (P.Inx.number i)) }
    {
        self.tree.contains_inx(i)
    }

    /// Returns the item that the pointer names. O(1).
    pub fn get(&self, p: P) -> Option<&T>
        ensures { Reads P.Inx.most P.Gen.greatest self.now
            (option_copied result ≡ item_of self.now (P.numbers p)) }
    {
        let node = self.chain().get(p)?;
        Some(&node.t)
    }

    /// Returns the generation and the item of the entry at the index. O(1).
    pub fn get_inx(&self, i: P::Inx) -> Option<(P::Gen, &T)>
        ensures { Reads P.Inx.most P.Gen.greatest self.now
            (option_map (λ e. (P.Gen.number e.0, e.1.now)) result
            ≡ entry_at self.now (P.Inx.number i)) }
    {
        let entry = self.chain().get_inx(i)?;
        let node = entry.1;
        Some((entry.0, &node.t))
    }
}

impl<P: BasePtr, T, A: Allocator> Index<P> for SimpleOrdArena<P, T, A> {
    type Output = T;

    ghost can_index = { λ a p. IsSome (item_of a (P.numbers p)) };

    ghost index_gives = { λ a p item. item_of a (P.numbers p) ≡ Some item };

    fn index(&self, p: P) -> &T {
        self.get(p).unwrap()
    }
}
