//! `Probe`: how a search sees an arena, one entry at a time, each counted.
ghost use Rattle.std.specs.Prelude.{◌≡◌, ◌<◌, ◌^◌, List, ◌∷◌, ◌++◌, Some, IsSome};
ghost use Rattle.std.specs.Option.{option_map, option_copied};
ghost use Rattle.ord_tree.specs.Chain.{Entry, entry_at, IsDistinct};
ghost use Rattle.ord_tree.specs.Shape.{root_of, height};
ghost use Rattle.ord_tree.specs.Tree.{IsSoundTree};
ghost use Rattle.triple_ord.specs.Around.{last_item};
ghost use Rattle.triple_ord.specs.Descent.{CanShow, IsLinkAt, IsNodeAt, IsSoundTree-prop, ShowsEntry};

use crate::visits::Visits;
use arena_base::BasePtr;
use chain_base::LinkNoGen;
use ord_tree::{OrdTree, SimpleOrdArenaNode};
use std::alloc::Allocator;

/// Shows the entries of a tree to a search. A search gets a probe and never the tree, so each entry that it sees is counted.
#[derive(Drop)]
pub(crate) struct Probe<'a, P: BasePtr, T, A: Allocator> {
    tree: &'a OrdTree<P, T, A>,
    visits: u128,
    ghost distinct: { IsDistinct tree.now.list.entries },
    ghost sound: { IsSoundTree tree.now } by { IsSoundTree-prop tree.now },
    ghost few: { height tree.now.shape < 2 ^ 64 },
}

impl<'a, P: BasePtr, T, A: Allocator> Probe<'a, P, T, A> {
    /// A probe that has shown nothing yet.
    pub fn new(tree: &'a OrdTree<P, T, A>) -> Self
        ensures tree { result.tree.now ≡ tree.now }
        ensures none { result.visits ≡ 0 }
    {
        // For the prover: the tree is sound.
        let _ = tree.len();
        Probe { tree, visits: 0 }
    }

    /// Returns the index at which a descent starts, or `None` if there are no entries.
    pub fn root(&self) -> Option<P::Inx>
        ensures root { option_map P.Inx.number result ≡ root_of self.now.tree.now.shape }
        ensures sound { IsSoundTree self.now.tree.now }
        ensures few { height self.now.tree.now.shape < 2 ^ 64 }
    {
        self.tree.root()
    }

    /// Returns the number of entries shown.
    pub fn visits(&self) -> Visits
        ensures { result ≡ self.now.visits }
    {
        Visits::new(self.visits)
    }

    /// Shows the entry at the index: its generation, and its node with the item and the roots of its sides.
    pub fn show(&mut self, i: P::Inx) -> (P::Gen, &'a SimpleOrdArenaNode<P, T>)
        requires { CanShow self.old.tree.now self.old.visits (P.Inx.number i) }
        ensures { ShowsEntry self.old.tree.now self.new.tree.now self.old.visits self.new.visits
            (IsNodeAt self.old.tree.now (P.Inx.number i) (P.Gen.number result.0)
            result.1.now.t result.1.now.p_tree0 result.1.now.p_tree1) }
    {
        let (generation, link) = self.show_link(i);
        (generation, &link.t)
    }

    /// Shows the entry at the index: its generation, and its node with its neighbours in the list.
    pub fn show_link(&mut self, i: P::Inx) -> (P::Gen, &'a LinkNoGen<P, SimpleOrdArenaNode<P, T>>)
        requires { CanShow self.old.tree.now self.old.visits (P.Inx.number i) }
        ensures { ShowsEntry self.old.tree.now self.new.tree.now self.old.visits self.new.visits
            (IsLinkAt self.old.tree.now (P.Inx.number i) (P.Gen.number result.0)
            result.1.now.item.t result.1.now.item.p_tree0 result.1.now.item.p_tree1
            result.1.now.prev result.1.now.next) }
    {
        self.visits += 1;
        self.look(i)
    }

    /// Shows the item of the predecessor, if any, of the entry at the index, in place of its own. Counts one entry. Of the entry itself
    /// it returns the generation and the roots of its sides.
    pub fn show_previous(
        &mut self,
        i: P::Inx,
    ) -> (P::Gen, &'a SimpleOrdArenaNode<P, T>, Option<&'a T>)
        requires { CanShow self.old.tree.now self.old.visits (P.Inx.number i) }
        ensures shows { ShowsEntry self.old.tree.now self.new.tree.now
            self.old.visits self.new.visits
            (IsNodeAt self.old.tree.now (P.Inx.number i) (P.Gen.number result.0)
            result.1.now.t result.1.now.p_tree0 result.1.now.p_tree1) }
        ensures previous { (front back : List (Entry T)) (e : Entry T) → e.index ≡ P.Inx.number i
            → self.old.tree.now.list.entries ≡ front ++ e ∷ back
            → option_copied result.2 ≡ last_item front }
    {
        self.visits += 1;
        let (generation, link) = self.look(i);
        let previous = match link.prev() {
            Some(j) => Some(self.item_at(j)),
            None => None,
        };
        (generation, &link.t, previous)
    }

    // The item of the entry at the index, not yet counted.
    fn item_at(&self, i: P::Inx) -> &'a T
        requires { IsSome (entry_at self.now.tree.now.list.entries (P.Inx.number i)) }
        ensures { option_map (λ e. e.1) (entry_at self.now.tree.now.list.entries (P.Inx.number i))
            ≡ Some result.now }
    {
        let (_, link) = self.look(i);
        &link.t.t
    }

    // The entry at the index, not yet counted.
    fn look(&self, i: P::Inx) -> (P::Gen, &'a LinkNoGen<P, SimpleOrdArenaNode<P, T>>)
        requires { IsSome (entry_at self.now.tree.now.list.entries (P.Inx.number i)) }
        ensures { IsLinkAt self.now.tree.now (P.Inx.number i) (P.Gen.number result.0)
            result.1.now.item.t result.1.now.item.p_tree0 result.1.now.item.p_tree1
            result.1.now.prev result.1.now.next }
    {
        self.tree.entry(i)
    }
}
