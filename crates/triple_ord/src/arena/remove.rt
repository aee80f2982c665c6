//! Removing entries and invalidating pointers. None of these calls takes memory.
ghost use Rattle.std.specs.Prelude.{◌≡◌, None, IfSome, is_some};
ghost use Rattle.std.specs.Option.{option_map};
ghost use Rattle.ord_tree.specs.Generation.{overflows_after};
ghost use Rattle.ord_tree.specs.Invalidation.{valid_value, has_overflowed, is_overflow, IsRemoval, IsRenewal};
ghost use Rattle.ord_tree.specs.Chain.{removed, renewed, cleared};
ghost use Rattle.ord_tree.specs.Shape.{missing};
ghost use Rattle.triple_ord.specs.Arena.{item_of, entry_at, count, Updates, Renews, FindsNothing, TakesEntry};

use super::SimpleOrdArena;
use arena_base::{BasePtr, InvalidationOption, InvalidationResult};
use std::alloc::Allocator;

impl<P: BasePtr, T, A: Allocator> SimpleOrdArena<P, T, A> {
    /// Removes the entry that the pointer names, returns its item, and raises the generation.
    ///
    /// The next insertion takes its slot. Every other entry keeps its pointer, its item and its place in the order. Returns `InvalidPtr`
    /// if the pointer names no entry; the arena is unchanged then.
    ///
    /// ```
    /// let (two, _) = pairs.insert(OrdPair::new(2, "two"))?;
    /// assert_eq!(rt; pairs.remove(two).allow(), Some(OrdPair::new(2, "two")));
    /// assert_eq!(rt; pairs.remove(two).allow(), None);
    /// assert!(rt; !pairs.contains(two));
    /// ```
    ///
    /// # Complexity
    ///
    /// O(log n): O(1) for the list, plus the repair of the ranks. Compares no keys. At most nine nodes get a new parent in the tree. The
    /// amortized number of rank changes is at most 9.
    pub fn remove(&mut self, p: P) -> InvalidationResult<T>
        ensures removal { IsRemoval P.Gen.greatest self.old.list.generation result
            (valid_value result) (item_of self.old (P.numbers p))
            (self.new.list ≡ removed P.Gen.greatest self.old.list (P.numbers p).0)
            (self.new ≡ self.old) }
        ensures updates { Updates self.old self.new (P.numbers p) None }
        ensures takes { TakesEntry P.Inx.most P.Gen.greatest (valid_value result)
            self.old self.new }
    {
        if !self.contains(p) {
            return InvalidationResult::InvalidPtr;
        }
        item_taken::<P, T>(self.tree.remove_entry(p.inx()).valid())
    }

    /// Removes the entry at the index, as `remove` does, and returns its generation and its item.
    ///
    /// Returns `InvalidPtr` if there is no entry at the index; the arena is unchanged then.
    pub fn remove_inx(&mut self, i: P::Inx) -> InvalidationResult<(P::Gen, T)>
        ensures removal { IsRemoval P.Gen.greatest self.old.list.generation result
            (option_map (λ e. (P.Gen.number e.0, e.1)) (valid_value result))
            (entry_at self.old (P.Inx.number i))
            (self.new.list ≡ removed P.Gen.greatest self.old.list (P.Inx.number i))
            (self.new ≡ self.old) }
        ensures updates { IfSome (valid_value result)
            (λ e. Updates self.old self.new (P.Inx.number i, P.Gen.number e.0) None) }
        ensures takes { TakesEntry P.Inx.most P.Gen.greatest (valid_value result)
            self.old self.new }
    {
        // For the prover: the list is sound.
        prove!(self.len() <= usize::MAX);
        self.tree.remove_inx(i)
    }

    /// Ends the pointer and gives its entry a new one, with the same index and the raised generation. The item and the place stay.
    ///
    /// Returns `InvalidPtr` if the pointer names no entry; the arena is unchanged then. O(1).
    pub fn invalidate(&mut self, p: P) -> InvalidationResult<P>
        ensures renewal { IsRenewal P.numbers P.Gen.greatest self.old.list.generation result
            (P.numbers p).0 (is_some (item_of self.old (P.numbers p)))
            (self.new ≡ record self.old {
              list = renewed P.Gen.greatest self.old.list (P.numbers p).0;
            }) (self.new ≡ self.old) }
        ensures renews { IfSome (valid_value result)
            (λ q. Renews self.old self.new (P.numbers p) (P.numbers q)) }
        ensures count { count self.new ≡ count self.old }
    {
        self.tree.invalidate(p)
    }

    /// Drops all entries and raises the generation, once even if there were none. The capacity stays, and the free list is ascending, as
    /// if no slot had been used. O(capacity).
    pub fn clear(&mut self) -> InvalidationOption<()>
    where
        T: Drop,
        ensures found { FindsNothing self.new }
        ensures count { count self.new ≡ 0 }
        ensures after { self.new
            ≡ record { list = cleared P.Gen.greatest self.old.list; shape = missing } }
        ensures overflow { is_overflow result
            ≡ overflows_after P.Gen.greatest self.old.list.generation }
    {
        self.tree.clear()
    }
}

// The tree's result, without the generation.
fn item_taken<P: BasePtr, T>(taken: InvalidationResult<(P::Gen, T)>) -> InvalidationResult<T>
    ensures value { valid_value result ≡ option_map (λ e. e.1) (valid_value taken) }
    ensures overflow { has_overflowed result ≡ has_overflowed taken }
{
    taken.map(|entry| entry.1)
}
