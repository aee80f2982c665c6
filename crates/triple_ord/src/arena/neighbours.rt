//! The ends of the list, and the neighbours of an entry in the list and in the tree.
ghost use Rattle.std.specs.Prelude.{◌≡◌, ◌↔◌, IfSome, IsNone};
ghost use Rattle.std.specs.Option.{option_map};
ghost use Rattle.ord_tree.specs.Chain.{link_at, first_pointer, last_pointer, IsSound};
ghost use Rattle.ord_tree.specs.Tree.{IsSoundTree};
ghost use Rattle.triple_ord.specs.Arena.{count, Reads};
ghost use Rattle.triple_ord.specs.Node.{IsNodeIn};

use super::SimpleOrdArena;
use arena_base::BasePtr;
use chain_base::LinkNoGen;
use ord_tree::SimpleOrdArenaNode;
use std::alloc::Allocator;

impl<P: BasePtr, T, A: Allocator> SimpleOrdArena<P, T, A> {
    /// Returns the pointer of the first entry of the list. O(1).
    pub fn first(&self) -> Option<P>
        ensures { Reads P.Inx.most P.Gen.greatest self.now
            (option_map P.numbers result ≡ first_pointer self.now.list.entries) }
    {
        self.chain().first()
    }

    /// Returns the pointer of the last entry of the list. O(1).
    #[tactic(auto, using(crate::proofs::Bare::last_pointer_under, crate::proofs::Bare::none_under))]
    pub fn last(&self) -> Option<P>
        ensures pointer { option_map P.numbers result ≡ last_pointer self.now.list.entries }
        ensures empty { Reads P.Inx.most P.Gen.greatest self.now
            (IsNone result ↔ (count self.now ≡ 0)) }
    {
        self.chain().last()
    }

    /// Returns the generation, the item and the neighbours in the list of the entry at the index. O(1).
    pub fn get_inx_link_no_gen(&self, p: P::Inx) -> Option<(P::Gen, LinkNoGen<P, &T>)>
        ensures { Reads P.Inx.most P.Gen.greatest self.now
            (option_map
            (λ e. (
              P.Gen.number e.0,
              (record { item = e.1.item.now; prev = e.1.prev; next = e.1.next }),
            )) result
            ≡ link_at self.now.list.entries (P.Inx.number p)) }
    {
        let entry = self.get_inx_node(p)?;
        let link = entry.1;
        Some((entry.0, LinkNoGen::new(link.prev_next(), &link.t.t)))
    }

    /// Returns the generation and the node of the entry at the index: its item, its neighbours in the list, and its place in the tree.
    /// O(1).
    pub fn get_inx_node(
        &self,
        p: P::Inx,
    ) -> Option<(P::Gen, &LinkNoGen<P, SimpleOrdArenaNode<P, T>>)>
        ensures entry { option_map
            (λ e. (
              P.Gen.number e.0,
              (record { item = e.1.now.item.t; prev = e.1.now.prev; next = e.1.now.next }),
            ))
            result
            ≡ link_at self.now.list.entries (P.Inx.number p) }
        ensures node { IfSome result
            (λ e. IsNodeIn self.now.shape (P.Inx.number p) e.1.now.item.p_back
            e.1.now.item.p_tree0 e.1.now.item.p_tree1 e.1.now.item.rank) }
        ensures sound { IsSound P.Inx.most P.Gen.greatest self.now.list }
        ensures tree { IsSoundTree self.now }
    {
        // For the prover: the list and the shape are sound.
        let _ = self.len();
        self.tree.get_inx_node(p)
    }
}
