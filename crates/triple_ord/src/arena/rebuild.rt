//! Moving all entries to the least indexes, or over from another arena. Afterwards the tree is rebuilt: no search visits more entries
//! than their number has binary digits.
ghost use Rattle.std.specs.Prelude.{◌≡◌, OnOk, map};
ghost use Rattle.ord_tree.specs.ArenaCompression.{compressed_generation};
ghost use Rattle.ord_tree.specs.Generation.{IsLawfulGeneration};
ghost use Rattle.ord_tree.specs.Chain.{chain_limit, IsSound};
ghost use Rattle.ord_tree.specs.ChainCompression.{canonical, relocated, IsCompression, IsTransfer};
ghost use Rattle.ord_tree.specs.Room.{Reallocates};
ghost use Rattle.ord_tree.specs.Tree.{TransfersTree};
ghost use Rattle.triple_ord.specs.Arena.{items, count, IsNumbered, FindsNothing};
ghost use Rattle.triple_ord.specs.Renumbering.{Renumbers};
ghost use Rattle.triple_ord.specs.Order.{KeepsKeys};

use super::SimpleOrdArena;
use crate::item::SimpleOrdItem;
use arena_base::{BasePtr, InvalidationOption, ReallocationError};
use std::alloc::Allocator;

impl<P: BasePtr, T, A: Allocator> SimpleOrdArena<P, T, A> {
    /// Moves all entries to the indexes from 1, in index order, gives them one new generation, and rebuilds the tree. The list keeps its
    /// order.
    ///
    /// Calls `f` for each entry, by rising index, with its old pointer, its item and its new pointer; `f` returns the entry's new item.
    /// If it changes a key, the arena may be out of order. The new generation is the first if `reset` is true, else the next one; it
    /// becomes the arena's. The result says whether it overflowed. The capacity stays, and the free list is ascending, as if no slot had
    /// been used.
    ///
    /// O(capacity). Takes no memory.
    pub fn compress_with<F: FnMut(P, T, P) -> T + Drop>(
        &mut self,
        reset: bool,
        f: F,
    ) -> InvalidationOption<()>
        requires { F.IsAlwaysCallable f }
        ensures renumbers { Renumbers P.Gen.greatest reset self.old result self.new
            (λ g. IsCompression P.numbers F.step g f self.old.list self.new.list) }
        ensures sound { IsSound P.Inx.most P.Gen.greatest self.old.list }
    {
        // For the prover: the list is sound.
        let _ = self.len();
        self.tree.compress_with(reset, f)
    }

    /// Moves all entries to the indexes from 1 as `compress_with` does; each keeps its item.
    pub fn compress(&mut self, reset: bool) -> InvalidationOption<()>
        ensures items { items self.new ≡ items self.old }
        ensures renumbers { Renumbers P.Gen.greatest reset self.old result self.new
            (λ g. self.new.list ≡ relocated self.old.list g) }
    {
        self.tree.compress(reset)
    }

    /// Moves the entries to the indexes from 1, in list order, gives them one generation as `compress_with` does, and rebuilds the tree.
    ///
    /// The capacity stays, and the free list is ascending, as if no slot had been used. O(capacity). Takes no memory.
    ///
    /// ```
    /// let (two, _) = pairs.insert(OrdPair::new(2, "two"))?;
    /// pairs.insert(OrdPair::new(1, "one"))?;
    /// pairs.compress_canonical(false).allow();
    /// assert!(rt; !pairs.contains(two));
    /// assert_eq!(rt; pairs.find_key(&2), pairs.last());
    /// ```
    pub fn compress_canonical(&mut self, reset: bool) -> InvalidationOption<()>
        ensures items { items self.new ≡ items self.old }
        ensures found { IsNumbered self.new
            (compressed_generation P.Gen.greatest reset self.old.list.generation) (items self.old) }
        ensures renumbers { Renumbers P.Gen.greatest reset self.old result self.new
            (λ g. self.new.list ≡ canonical self.old.list g) }
    {
        self.tree.compress_canonical(reset)
    }

    /// Moves all entries of `source`, in order, into this arena, to the indexes from 1 and with the generation `new_generation`, which
    /// becomes the arena's. This arena's own entries are dropped, and the tree is rebuilt. The capacity grows to the number of new
    /// entries if it is less.
    ///
    /// Calls `f` for each entry with its old pointer, its item, marked if the removal overflowed the source's generation, and its new
    /// pointer; `f` returns the new entry's item. Each removal raises the source's generation. The source keeps its capacity. O(n +
    /// capacity) for n entries in all.
    ///
    /// # Errors
    ///
    /// Both arenas are unchanged, and `f` isn't called.
    /// - `BeyondMaxCapacity`: the source has more entries than this arena's limit.
    /// - `AllocError`: growing failed.
    pub fn transfer_canonical_reallocating<
        Q: BasePtr,
        U,
        B: Allocator,
        F: FnMut(Q, InvalidationOption<U>, P) -> T + Drop,
    >(
        &mut self,
        new_generation: P::Gen,
        source: &mut SimpleOrdArena<Q, U, B>,
        f: F,
    ) -> Result<(), ReallocationError>
    where
        T: Drop,
        requires lawful { IsLawfulGeneration P.Gen.greatest (P.Gen.number new_generation) }
        requires callable { F.IsAlwaysCallable f }
        ensures found { OnOk result
            (IsNumbered self.new (P.Gen.number new_generation) (items self.new)) }
        ensures count { OnOk result (count self.new ≡ count source.old) }
        ensures emptied { OnOk result (FindsNothing source.new) }
        ensures transfers { Reallocates (chain_limit P.Inx.most self.old.list)
            self.old.list.capacity (count source.old) result
            (TransfersTree source.new self.new (IsTransfer Q.numbers P.numbers Q.Gen.greatest F.step
            (P.Gen.number new_generation) f
            source.old.list source.new.list self.old.list self.new.list))
            ((self.new ≡ self.old) × (source.new ≡ source.old)) }
    {
        self.tree
            .transfer_canonical_reallocating(new_generation, &mut source.tree, f)?;
        Ok(())
    }
}

impl<P: BasePtr, T: SimpleOrdItem, A: Allocator> SimpleOrdArena<P, T, A> {
    /// `compress_with`, if each call of `f` keeps the key of its item. So the keys stay in place.
    pub fn compress_keeping_keys<F: FnMut(P, T, P) -> T + Drop>(
        &mut self,
        reset: bool,
        f: F,
    ) -> InvalidationOption<()>
        requires callable { F.IsAlwaysCallable f }
        requires keeps { KeepsKeys T.key_of F.step }
        ensures keys { map T.key_of (items self.new) ≡ map T.key_of (items self.old) }
        ensures renumbers { Renumbers P.Gen.greatest reset self.old result self.new
            (λ g. IsCompression P.numbers F.step g f self.old.list self.new.list) }
    {
        self.compress_with(reset, f)
    }
}
