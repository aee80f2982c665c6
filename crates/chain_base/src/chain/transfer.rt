//! Transfers: all entries move into another chain.
ghost use Rattle.std.specs.Prelude.{◌≡◌, ◌<◌, ◌≤◌, List, [], ◌∷◌, ◌++◌, length, max};
ghost use Rattle.std.specs.Option.{option_map};
ghost use Rattle.arena_base.specs.Generation.{IsLawfulGeneration};
ghost use Rattle.arena_base.specs.Invalidation.{valid_value, has_overflowed};
ghost use Rattle.arena_base.specs.Room.{Reallocates};
ghost use Rattle.chain_base.specs.Chain.{Chain, chain_limit};
ghost use Rattle.chain_base.specs.Compression.{IsTransfer};
ghost use Rattle.chain_base.specs.Transfer.{filled_with, last_index_of, place_behind, TakesFirst, HasTaken};

use super::ChainArena;
use super::insert::LinkInsertKind;
use crate::link::LinkNoGen;
use crate::map_taken::MapTaken;
use arena_base::{BasePtr, Calls, InvalidationOption, InvalidationResult, ReallocationError};
use std::alloc::Allocator;

impl<P: BasePtr, T, A: Allocator> ChainArena<P, T, A> {
    /// Moves all entries of `source`, in order, into this chain, whose own entries are dropped. They get the indexes from 1 on and the
    /// generation `new_generation`, which becomes the chain's. If the capacity is less than their number, it grows to that first.
    ///
    /// `f` is called for each entry with its old pointer, the result of its removal with its item, and its new pointer. It returns the
    /// new entry's item. Each removal raises the source's generation once. The source keeps its capacity. Both free lists are ascending
    /// then, as if no slot had been used.
    ///
    /// # Errors
    ///
    /// Both chains are unchanged, and `f` isn't called.
    /// - `BeyondMaxCapacity`: the source has more entries than this chain's limit.
    /// - `AllocError`: growing failed.
    pub fn transfer_canonical_reallocating<
        Q: BasePtr,
        U,
        B: Allocator,
        F: FnMut(Q, InvalidationOption<U>, P) -> T + Drop,
    >(
        &mut self,
        new_generation: P::Gen,
        source: &mut ChainArena<Q, U, B>,
        f: F,
    ) -> Result<(), ReallocationError>
    where
        T: Drop,
        requires lawful { IsLawfulGeneration P.Gen.greatest (P.Gen.number new_generation) }
        requires callable { F.IsAlwaysCallable f }
        ensures { Reallocates (chain_limit P.Inx.most self.old) self.old.capacity
            (length source.old.entries) result
            (IsTransfer Q.numbers P.numbers Q.Gen.greatest F.step
            (P.Gen.number new_generation) f source.old source.new self.old self.new)
            ((self.new ≡ self.old) × (source.new ≡ source.old)) }
    {
        self.transfer_by(new_generation, source, Calls { f })
    }

    /// Moves all entries, as `transfer_canonical_reallocating` does, with `map` in place of the closure.
    pub fn transfer_by<Q: BasePtr, U, B: Allocator, M: MapTaken<Q, U, P, T> + Drop>(
        &mut self,
        new_generation: P::Gen,
        source: &mut ChainArena<Q, U, B>,
        map: M,
    ) -> Result<(), ReallocationError>
    where
        T: Drop,
        requires lawful { IsLawfulGeneration P.Gen.greatest (P.Gen.number new_generation) }
        requires callable { M.callable map }
        ensures { Reallocates (chain_limit P.Inx.most self.old) self.old.capacity
            (length source.old.entries) result
            (IsTransfer Q.numbers P.numbers Q.Gen.greatest M.step
            (P.Gen.number new_generation) map source.old source.new self.old self.new)
            ((self.new ≡ self.old) × (source.new ≡ source.old)) }
    {
        raise_capacity(self, source.len())?;
        let _ = self.clear();
        self.set_generation(new_generation);
        take_all(self, source, map);
        source.reallocate_min_capacity(source.capacity()).unwrap();
        Ok(())
    }
}

// Raises the capacity to `n` if it is less.
fn raise_capacity<P: BasePtr, T, A: Allocator>(
    chain: &mut ChainArena<P, T, A>,
    n: usize,
) -> Result<(), ReallocationError>
    ensures { Reallocates (chain_limit P.Inx.most chain.old) chain.old.capacity n result
        ((chain.new.capacity ≡ max chain.old.capacity n) × (chain.new.maximum ≡ chain.old.maximum))
        (chain.new ≡ chain.old) }
{
    prove!(chain.len() <= chain.capacity());
    if n <= chain.capacity() {
        return Ok(());
    }
    chain.reallocate_min_capacity(n)
}

// Moves all entries of the source into an empty chain.
fn take_all<
    P: BasePtr,
    T: Drop,
    A: Allocator,
    Q: BasePtr,
    U,
    B: Allocator,
    M: MapTaken<Q, U, P, T> + Drop,
>(chain: &mut ChainArena<P, T, A>, source: &mut ChainArena<Q, U, B>, mut map: M)
    requires callable { M.callable map }
    requires empty { chain.old ≡ filled_with chain.old [] }
    requires room { length source.old.entries ≤ chain.old.capacity }
    ensures taken { (n : M) × HasTaken Q.numbers P.numbers Q.Gen.greatest M.step map
        source.old source.new chain.old chain.new n }
    ensures all { source.new.entries ≡ [] }
{
    let mut last = None;
    for _ in 0..source.len() {
        let (from, taken) = take_first(source);
        let to = chain.arena().next_insertion_ptr().unwrap();
        let item = map.map_taken(from, taken, to);
        put_last(chain, last, item);
        last = Some(to.inx());
    }
}

// Removes the first entry.
fn take_first<Q: BasePtr, U, B: Allocator>(
    source: &mut ChainArena<Q, U, B>,
) -> (Q, InvalidationOption<U>)
    requires { 0 < length source.old.entries }
    ensures { TakesFirst Q.numbers Q.Gen.greatest source.old source.new result.0 result.1 }
{
    let from = source.first().unwrap();
    let taken = item_taken(source.remove_inx_link_no_gen(from.inx()));
    (from, taken.unwrap())
}

// The result of a removal, with the item alone.
fn item_taken<Q: BasePtr, U>(
    taken: InvalidationResult<(Q::Gen, LinkNoGen<Q, U>)>,
) -> InvalidationResult<U>
    ensures value { valid_value result ≡ option_map (λ e. e.1.item) (valid_value taken) }
    ensures overflow { has_overflowed result ≡ has_overflowed taken }
{
    taken.map(|(_, link)| link.t)
}

// Inserts an item behind the last of the entries at the indexes from 1 on.
fn put_last<P: BasePtr, T: Drop, A: Allocator>(
    chain: &mut ChainArena<P, T, A>,
    last: Option<P::Inx>,
    item: T,
)
    requires { (c : Chain T) × (items : List T)
        × (chain.old ≡ filled_with c items) × (length items < c.capacity)
        × (option_map P.Inx.number last ≡ last_index_of (length items)) }
    ensures { (c : Chain T) (items : List T)
        → chain.old ≡ filled_with c items → length items < c.capacity
        → option_map P.Inx.number last ≡ last_index_of (length items)
        → chain.new ≡ filled_with c (items ++ item ∷ []) }
{
    chain
        .insert_within_capacity(kind_behind(last), item)
        .unwrap();
}

// The place behind the last entry, or the only place if there is none.
fn kind_behind<P: BasePtr>(last: Option<P::Inx>) -> LinkInsertKind<P>
    ensures { result ≡ place_behind last }
{
    match last {
        None => LinkInsertKind::Disconnected,
        Some(i) => LinkInsertKind::NextToInx(i),
    }
}
