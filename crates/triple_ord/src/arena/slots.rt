//! Walking through the entries in index order.
ghost use Rattle.std.specs.Prelude.{◌≡◌, ◌↔◌, IfSome, IsNone};
ghost use Rattle.ord_tree.specs.ArenaWalk.{GoesFrom, GoesOverAll, HasEnded};
ghost use Rattle.ord_tree.specs.Chain.{IsFirstIndex, IsLastIndex};
ghost use Rattle.triple_ord.specs.Arena.{count, Reads};
ghost use Rattle.triple_ord.specs.Content.{content_of};
ghost use Rattle.triple_ord.specs.SlotWalk.{SlotWalkSteps};

use super::SimpleOrdArena;
use arena_base::{Advancer, Arena, BasePtr, PtrAdvancer};
use chain_base::LinkNoGen;
use ord_tree::SimpleOrdArenaNode;
use std::alloc::Allocator;

impl<P: BasePtr, T, A: Allocator> SimpleOrdArena<P, T, A> {
    /// Returns the pointer of the entry with the least index. O(capacity).
    pub fn find_first_inx_ptr(&self) -> Option<P>
        ensures first { IfSome result
            (λ p. IsFirstIndex self.now.list.entries (P.numbers p).0 (P.numbers p).1) }
        ensures empty { Reads P.Inx.most P.Gen.greatest self.now
            (IsNone result ↔ (count self.now ≡ 0)) }
    {
        self.chain().find_first_inx_ptr()
    }

    /// Returns the pointer of the entry with the greatest index. O(capacity).
    pub fn find_last_inx_ptr(&self) -> Option<P>
        ensures last { IfSome result
            (λ p. IsLastIndex self.now.list.entries (P.numbers p).0 (P.numbers p).1) }
        ensures empty { Reads P.Inx.most P.Gen.greatest self.now
            (IsNone result ↔ (count self.now ≡ 0)) }
    {
        self.chain().find_last_inx_ptr()
    }

    /// Returns a walk over all pointers by rising index, whatever the list order. All steps together take O(capacity).
    pub fn advancer(&self) -> PtrAdvancer<P>
        ensures { GoesOverAll result (content_of self.now) }
    {
        PtrAdvancer::rising()
    }

    /// Returns a walk over the pointers from an index on, which comes first: up, or down if `rev` is true.
    pub fn advancer_inx(&self, i: P::Inx, rev: bool) -> PtrAdvancer<P>
        ensures { GoesFrom result (content_of self.now) (P.Inx.number i) rev }
    {
        PtrAdvancer::from_inx(i, rev)
    }
}

// The arena under the tree, whose slots hold the nodes.
type Nodes<P, T, A> = Arena<P, LinkNoGen<P, SimpleOrdArenaNode<P, T>>, A>;

impl<P: BasePtr, T, A: Allocator> Advancer<SimpleOrdArena<P, T, A>> for PtrAdvancer<P> {
    type Item = P;

    ghost advance_gives = { SlotWalkSteps P.numbers };

    ghost has_ended = { HasEnded };

    fn advance(&mut self, arena: &SimpleOrdArena<P, T, A>) -> Option<P> {
        // For the prover: the list and the slots are sound.
        let _ = arena.len();
        let nodes = arena.tree.arena();
        let _ = nodes.capacity();
        <PtrAdvancer<P> as Advancer<Nodes<P, T, A>>>::advance(self, nodes)
    }

    fn empty() -> PtrAdvancer<P> {
        <PtrAdvancer<P> as Advancer<Nodes<P, T, A>>>::empty()
    }
}
