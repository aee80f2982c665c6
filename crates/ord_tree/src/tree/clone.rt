//! Cloning another tree: its pointers, its order and its shape.

ghost use Rattle.std.specs.Prelude.{◌≡◌};
ghost use Rattle.chain_base.specs.Chain.{chain_limit, greatest_index};
ghost use Rattle.chain_base.specs.Clone.{IsClone as IsClonedList};
ghost use Rattle.chain_base.specs.ArenaClone.{IsShown};
ghost use Rattle.chain_base.specs.Room.{Reallocates, ClonesBy, ClonesOrFails};
ghost use Rattle.ord_tree.specs.Clone.{IsClone, IsRefusedClone, ShowsItem};
ghost use Rattle.ord_tree.specs.Tree.{IsSoundTree};

use super::OrdTree;
use crate::node::SimpleOrdArenaNode;
use arena_base::{BasePtr, Calls, CloneEntry, ReallocationError, TryCalls};
use chain_base::{ChainArena, LinkNoGen};
use std::alloc::{AllocError, Allocator};

impl<P: BasePtr, T: Drop, A: Allocator> OrdTree<P, T, A> {
    /// Makes this tree a clone of `source` with items made by `map`. It gets the source's pointers, order, shape and generation; its own
    /// entries are dropped.
    ///
    /// Calls `map` for each source entry, by rising index, with its pointer and a reference to its item. If the capacity is less than the
    /// source's greatest index, it first grows to that index. The maximum stays, and the free list is ascending, as if no slot had been
    /// used.
    ///
    /// # Errors
    ///
    /// - `BeyondMaxCapacity`: the source's greatest index is beyond this tree's limit. The tree is unchanged, and `map` isn't called.
    /// - `AllocError`: growing failed, with the same effect; or `map` failed, which ends the calls. In the latter case the tree is empty,
    ///   with the source's generation and the capacity of a clone.
    ///
    /// # Complexity
    ///
    /// One pass over the slots of both trees.
    pub fn try_clone_from_with<
        U,
        B: Allocator + Copy,
        F: FnMut(P, &U) -> Result<T, AllocError> + Drop,
    >(&mut self, source: &OrdTree<P, U, B>, map: F) -> Result<(), ReallocationError>
        requires { F.IsAlwaysCallable map }
        ensures { ClonesOrFails (chain_limit P.Inx.most self.old.list) self.old.list.capacity
            (greatest_index source.now.list.entries) result
            ((last : F) × IsClone P.numbers (IsShown F.step) map source.now self.old self.new last)
            (self.new ≡ self.old)
            ((last : F)
            × IsRefusedClone P.numbers (IsShown F.step) map source.now self.old self.new last) }
    {
        let mut calls = TryCalls { f: map };
        self.clone_by(source, &mut calls)
    }

    /// Makes this tree a clone of `source` as `try_clone_from_with` does, with `map` in place of the closure.
    ///
    /// `map` is left in the state after its last call, for the last entry or the one at which it failed. It is unchanged if growing
    /// failed or the index is beyond the limit.
    pub fn clone_by<U, B: Allocator + Copy, M: CloneEntry<P, U, T>>(
        &mut self,
        source: &OrdTree<P, U, B>,
        map: &mut M,
    ) -> Result<(), ReallocationError>
        requires { M.callable map.old }
        ensures { ClonesBy (chain_limit P.Inx.most self.old.list) self.old.list.capacity
            (greatest_index source.now.list.entries) result (M.callable map.new)
            (IsSoundTree source.now)
            (IsClone P.numbers M.step map.old source.now self.old self.new map.new)
            ((self.new ≡ self.old) × (map.new ≡ map.old))
            (IsRefusedClone P.numbers M.step map.old source.now self.old self.new map.new) }
    {
        let mut node = CloneNode { map };
        let cloned = self.chain.clone_by(&source.chain, &mut node);
        match cloned {
            Ok(()) => self.root = source.root,
            // `map` failed, or nothing changed.
            Err(_) => if self.chain.is_empty() {
                self.root = None;
            },
        }
        cloned
    }
}

impl<P: BasePtr, T, A: Allocator + Copy> OrdTree<P, T, A> {
    /// Makes `chain` a clone of the list with items made by `map`. It gets the tree's pointers, order and generation; its own entries are
    /// dropped.
    ///
    /// Calls `map` for each entry, by rising index, with its pointer and a reference to its item. If the chain's capacity is less than
    /// the tree's greatest index, it first grows to that index. The chain's maximum stays, and its free list is ascending, as if no slot
    /// had been used.
    ///
    /// # Errors
    ///
    /// The chain is unchanged, and `map` isn't called.
    /// - `BeyondMaxCapacity`: the tree's greatest index is beyond the chain's limit.
    /// - `AllocError`: growing failed.
    ///
    /// # Complexity
    ///
    /// One pass over the slots of both.
    pub fn clone_to_chain_arena<U: Drop, B: Allocator, F: FnMut(P, &T) -> U + Drop>(
        &self,
        chain: &mut ChainArena<P, U, B>,
        map: F,
    ) -> Result<(), ReallocationError>
        requires { F.IsAlwaysCallable map }
        ensures { Reallocates (chain_limit P.Inx.most chain.old) chain.old.capacity
            (greatest_index self.now.list.entries) result
            ((last : F) × IsClonedList P.numbers (ShowsItem F.step) map
            self.now.list chain.old chain.new last) (chain.new ≡ chain.old) }
    {
        let mut shown = ShowItem {
            map: Calls { f: map },
        };
        chain.clone_by(&self.chain, &mut shown)
    }
}

/// Adapts a maker of items to the nodes of a tree: it is shown only their items.
#[doc(hidden)]
#[derive(Drop)]
pub struct ShowItem<M> {
    map: M,
}

impl<P: BasePtr, T, U, M: CloneEntry<P, T, U>> CloneEntry<
    P,
    LinkNoGen<P, SimpleOrdArenaNode<P, T>>,
    U,
> for ShowItem<M> {
    ghost callable = { λ m. M.callable m.map };

    ghost step = { λ m p link answer n. M.step m.map p link.item.t answer n.map };

    fn clone_entry(
        &mut self,
        p: P,
        link: &LinkNoGen<P, SimpleOrdArenaNode<P, T>>,
    ) -> Result<U, AllocError> {
        let node = &link.t;
        self.map.clone_entry(p, &node.t)
    }
}

/// Makes the node of a clone, with the links and the rank of the source's node.
#[doc(hidden)]
#[derive(Drop)]
pub struct CloneNode<'a, M> {
    map: &'a mut M,
}

impl<'a, P: BasePtr, U, T, M: CloneEntry<P, U, T>> CloneEntry<
    P,
    LinkNoGen<P, SimpleOrdArenaNode<P, U>>,
    SimpleOrdArenaNode<P, T>,
> for CloneNode<'a, M> {
    ghost use Rattle.std.specs.Prelude.{◌≡◌, MatchResult, Err};
    ghost use Rattle.ord_tree.specs.CloneNode.{ClonesNode};

    ghost callable = { λ m. M.callable m.map.now };

    ghost step = { λ m p link answer n. (n.map.ghost_name ≡ m.map.ghost_name)
        × MatchResult answer
        (λ new. ClonesNode M.step m.map.now p link.item new n.map.now)
        (λ refusal. M.step m.map.now p link.item.t (Err refusal) n.map.now) };

    fn clone_entry(
        &mut self,
        p: P,
        link: &LinkNoGen<P, SimpleOrdArenaNode<P, U>>,
    ) -> Result<SimpleOrdArenaNode<P, T>, AllocError> {
        let node = &link.t;
        let t = self.map.clone_entry(p, &node.t)?;
        Ok(node.with_item(t))
    }
}
