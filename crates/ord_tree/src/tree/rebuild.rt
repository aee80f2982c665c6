//! Moving all entries, and rebuilding the tree over the list.

ghost use Rattle.std.specs.Prelude.{◌≡◌, length};
ghost use Rattle.std.specs.Option.{option_map};
ghost use Rattle.chain_base.specs.Generation.{IsLawfulGeneration};
ghost use Rattle.chain_base.specs.Chain.{chain_limit};
ghost use Rattle.chain_base.specs.Compression.{canonical, relocated, IsCompression, IsTransfer};
ghost use Rattle.chain_base.specs.Room.{Reallocates};
ghost use Rattle.ord_tree.specs.Tree.{Compresses, TransfersTree};
ghost use Rattle.ord_tree.specs.Layout.{RebuildsChain};

use super::OrdTree;
use crate::node::SimpleOrdArenaNode;
use crate::node_inx::NodeInx;
use crate::rebuild::rebuild;
use arena_base::{BasePtr, Calls, InvalidationOption, MapEntry, ReallocationError};
use chain_base::{ChainArena, MapTaken};
use std::alloc::Allocator;

impl<P: BasePtr, T, A: Allocator> OrdTree<P, T, A> {
    /// Moves all entries to the indexes from 1, in index order, gives them one new generation, and rebuilds the tree. The list keeps its
    /// order.
    ///
    /// Calls `f` for each entry, by rising index, with its old pointer, its item and its new pointer; `f` returns the entry's new item.
    /// The new generation is the first if `reset` is true, else the next one; it becomes the arena's. The result says whether it
    /// overflowed. The capacity stays, and the free list is ascending, as if no slot had been used.
    ///
    /// O(capacity). Takes no memory.
    pub fn compress_with<F: FnMut(P, T, P) -> T + Drop>(
        &mut self,
        reset: bool,
        f: F,
    ) -> InvalidationOption<()>
        requires { F.IsAlwaysCallable f }
        ensures { Compresses P.Gen.greatest reset self.old self.new result
            (λ g. IsCompression P.numbers F.step g f self.old.list self.new.list) }
    {
        let map = MapNode { map: Calls { f } };
        let overflow = self.chain.compress_by(reset, map);
        rebuild_over(&mut self.chain, &mut self.root);
        overflow
    }

    /// Moves all entries to the indexes from 1 on as `compress_with` does, each with the item that it has.
    pub fn compress(&mut self, reset: bool) -> InvalidationOption<()>
        ensures { Compresses P.Gen.greatest reset self.old self.new result
            (λ g. self.new.list ≡ relocated self.old.list g) }
    {
        let overflow = self.chain.compress(reset);
        rebuild_over(&mut self.chain, &mut self.root);
        overflow
    }

    /// Moves the entries to the indexes from 1, in list order, gives them one generation as `compress_with` does, and rebuilds the tree.
    ///
    /// The capacity stays, and the free list is ascending, as if no slot had been used. O(capacity). Takes no memory.
    pub fn compress_canonical(&mut self, reset: bool) -> InvalidationOption<()>
        ensures { Compresses P.Gen.greatest reset self.old self.new result
            (λ g. self.new.list ≡ canonical self.old.list g) }
    {
        let overflow = self.chain.compress_canonical(reset);
        rebuild_over(&mut self.chain, &mut self.root);
        overflow
    }

    /// Moves all entries of `source`, in order, into this tree, to the indexes from 1 and with the generation `new_generation`, which
    /// becomes the tree's. This tree's own entries are dropped. Its capacity grows to the number of new entries if it is less.
    ///
    /// Calls `f` for each entry with its old pointer, its item, marked if the removal overflowed the source's generation, and its new
    /// pointer; `f` returns the new entry's item. Each removal raises the source's generation. The source keeps its capacity.
    ///
    /// # Errors
    ///
    /// Both trees are unchanged, and `f` isn't called.
    /// - `BeyondMaxCapacity`: the source has more entries than this tree's limit.
    /// - `AllocError`: growing failed.
    pub fn transfer_canonical_reallocating<
        Q: BasePtr,
        U,
        B: Allocator,
        F: FnMut(Q, InvalidationOption<U>, P) -> T + Drop,
    >(
        &mut self,
        new_generation: P::Gen,
        source: &mut OrdTree<Q, U, B>,
        f: F,
    ) -> Result<(), ReallocationError>
    where
        T: Drop,
        requires lawful { IsLawfulGeneration P.Gen.greatest (P.Gen.number new_generation) }
        requires callable { F.IsAlwaysCallable f }
        ensures { Reallocates (chain_limit P.Inx.most self.old.list) self.old.list.capacity
            (length source.old.list.entries) result
            (TransfersTree source.new self.new (IsTransfer Q.numbers P.numbers Q.Gen.greatest F.step
            (P.Gen.number new_generation) f
            source.old.list source.new.list self.old.list self.new.list))
            ((self.new ≡ self.old) × (source.new ≡ source.old)) }
    {
        let map = MapNode { map: Calls { f } };
        self.chain
            .transfer_by(new_generation, &mut source.chain, map)?;
        source.root = None;
        rebuild_over(&mut self.chain, &mut self.root);
        Ok(())
    }
}

/// Maps the item of a node. The new node has no links until the tree is rebuilt.
#[doc(hidden)]
#[derive(Drop)]
pub struct MapNode<M> {
    map: M,
}

impl<P: BasePtr, T, M: MapEntry<P, T>> MapEntry<P, SimpleOrdArenaNode<P, T>> for MapNode<M> {
    ghost callable = { λ m. M.callable m.map };

    ghost step = { λ m old node new answer n. M.step m.map old node.t new answer.t n.map };

    fn map_entry(
        &mut self,
        old: P,
        node: SimpleOrdArenaNode<P, T>,
        new: P,
    ) -> SimpleOrdArenaNode<P, T> {
        SimpleOrdArenaNode::leaf(None, self.map.map_entry(old, node.t, new))
    }
}

impl<Q: BasePtr, U, P: BasePtr, T, M: MapTaken<Q, U, P, T>> MapTaken<
    Q,
    SimpleOrdArenaNode<Q, U>,
    P,
    SimpleOrdArenaNode<P, T>,
> for MapNode<M> {
    ghost use Rattle.ord_tree.specs.MapNode.{MapsTaken};

    ghost callable = { λ m. M.callable m.map };

    ghost step = { λ m old taken new answer n. MapsTaken M.step m.map old taken new answer n.map };

    fn map_taken(
        &mut self,
        old: Q,
        taken: InvalidationOption<SimpleOrdArenaNode<Q, U>>,
        new: P,
    ) -> SimpleOrdArenaNode<P, T>
        requires { M.callable self.old.map }
        ensures step { MapsTaken M.step self.old.map old taken new result self.new.map }
        ensures callable { M.callable self.new.map }
    {
        let plain = taken.map(|node| node.t);
        SimpleOrdArenaNode::leaf(None, self.map.map_taken(old, plain, new))
    }
}

// Rebuilds the tree over a chain, whatever its nodes' links are.
pub(super) fn rebuild_over<P: BasePtr, T, A: Allocator>(
    chain: &mut ChainArena<P, SimpleOrdArenaNode<P, T>, A>,
    root: &mut Option<NodeInx<P::Inx>>,
)
    ensures { RebuildsChain chain.old chain.new (option_map P.Inx.number root.new) }
{
    let len = chain.len();
    *root = rebuild(chain, len);
}
