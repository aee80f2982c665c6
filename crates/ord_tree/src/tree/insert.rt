//! Inserting entries.

ghost use Rattle.std.specs.Prelude.{◌≡◌, ◌<◌, ℕ, ◌+◌, List, Option, Some, option_map, IsSomeAnd, MatchOption, length};
ghost use Rattle.chain_base.specs.Chain.{IsDistinct, IsOccupied, chain_limit, with_room};
ghost use Rattle.chain_base.specs.Insert.{IsInsertion};
ghost use Rattle.chain_base.specs.Room.{FailsIfFull, FailsOnlyIfFull};
ghost use Rattle.ord_tree.specs.Shape.{Shape};
ghost use Rattle.ord_tree.specs.Node.{indexes, bare, slots_of};
ghost use Rattle.ord_tree.specs.Leaf.{neighbour_in, beside, IsNewLeaf};
ghost use Rattle.ord_tree.specs.Potential.{potential};
ghost use Rattle.ord_tree.specs.Promote.{IsRepaired};
ghost use Rattle.ord_tree.specs.Account.{IsSpelledWithin, rank_in};
ghost use Rattle.ord_tree.specs.Tree.{put_at, insert_at, CanPutAt, CanInsertAt, InsertsItem, IsGrown};
ghost use Rattle.ord_tree.specs.Layout.{IsLaidOut};
ghost use Rattle.ord_tree.specs.LeafBranch.{kind_at, sided, IsLeafBranch, IsLeafBranchAt};

use super::OrdTree;
use crate::leaf::add_leaf;
use crate::node::SimpleOrdArenaNode;
use crate::node_inx::{NodeInx, as_link, node_at};
use crate::nodes::Nodes;
use crate::tree_links::{Branch, Side};
use arena_base::{BasePtr, InsertionError};
use chain_base::{ChainArena, LinkInsertKind};
use std::alloc::Allocator;
use std::cmp::Ordering;

impl<P: BasePtr, T: Drop, A: Allocator> OrdTree<P, T, A> {
    /// Inserts an item directly before (`Less`) or after (`Greater`) the entry at an index, or as the only entry (`None`), and returns its
    /// pointer. The order is never `Equal`.
    ///
    /// It takes the slot freed last, or else the least one never used, and has the arena's generation. Takes no memory.
    ///
    /// # Errors
    ///
    /// The tree is unchanged and `t` is dropped.
    /// - `NotWithinCapacity`: no slot is vacant.
    #[inline(always)]
    pub fn insert_within_capacity(
        &mut self,
        at: Option<(P::Inx, Ordering)>,
        t: T,
    ) -> Result<P, InsertionError>
        requires { CanInsertAt P.Inx.number at self.old.list }
        ensures { InsertsItem P.numbers self.old.list self.old self.new
            (insert_at P.Inx.number at self.old.list.entries) t result
            (FailsIfFull (length self.old.list.entries) self.old.list.capacity result
            (self.new ≡ self.old)) }
    {
        if self.len() == self.chain.capacity() {
            return Err(InsertionError::NotWithinCapacity);
        }
        Ok(self.insert_reserved(at, t))
    }

    /// Inserts an item as `insert_within_capacity` does, growing first if no slot is vacant.
    ///
    /// Growing doubles the capacity, to at least 4 and at most the limit.
    ///
    /// # Errors
    ///
    /// The tree is unchanged and `t` is dropped.
    /// - `BeyondMaxCapacity`: no slot is vacant, and the capacity is at the limit.
    /// - `AllocError`: growing failed.
    pub fn insert_reallocating(
        &mut self,
        at: Option<(P::Inx, Ordering)>,
        t: T,
    ) -> Result<P, InsertionError>
        requires { CanInsertAt P.Inx.number at self.old.list }
        ensures { InsertsItem P.numbers (with_room P.Inx.most self.old.list) self.old self.new
            (insert_at P.Inx.number at self.old.list.entries) t result
            (FailsOnlyIfFull (length self.old.list.entries) self.old.list.capacity
            (chain_limit P.Inx.most self.old.list) result (self.new ≡ self.old)) }
    {
        self.make_room()?;
        Ok(self.insert_reserved(at, t))
    }
}

impl<P: BasePtr, T, A: Allocator> OrdTree<P, T, A> {
    /// Inserts an item as `insert_within_capacity` does, and returns its pointer. A slot must be vacant, so the call can't fail.
    #[inline(always)]
    pub fn insert_reserved(&mut self, at: Option<(P::Inx, Ordering)>, t: T) -> P
        requires place { CanInsertAt P.Inx.number at self.old.list }
        requires vacant { length self.old.list.entries < self.old.list.capacity }
        ensures inserted { IsInsertion self.old.list self.new.list
            (insert_at P.Inx.number at self.old.list.entries) t
            (P.numbers result).0 (P.numbers result).1 }
        ensures grown { IsGrown self.old.shape self.new.shape }
    {
        self.put_reserved(sided(at), t)
    }

    // Inserts an item directly on a side of the entry at an index, or as the only entry. A slot is vacant.
    #[inline(always)]
    fn put_reserved(&mut self, at: Option<(P::Inx, Side)>, t: T) -> P
        requires place { CanPutAt P.Inx.number at self.old.list }
        requires vacant { length self.old.list.entries < self.old.list.capacity }
        ensures inserted { IsInsertion self.old.list self.new.list
            (put_at P.Inx.number at self.old.list.entries) t
            (P.numbers result).0 (P.numbers result).1 }
        ensures grown { IsGrown self.old.shape self.new.shape }
    {
        let branch = branch_at(&self.chain, at);
        let node = SimpleOrdArenaNode::leaf(parent_in(branch), t);
        let p = self.chain.insert_reserved(kind_of(at), node);
        // For the prover: the list is sound.
        prove!(self.chain.len() <= self.chain.capacity());
        grow(
            &mut self.chain,
            &mut self.root,
            branch,
            NodeInx::new(p.inx()),
        );
        p
    }
}

// The place with its side; an order that isn't `Less` counts as `Greater`.
fn sided<I: Copy>(at: Option<(I, Ordering)>) -> Option<(I, Side)>
    ensures { result ≡ sided at }
{
    let (i, order) = at?;
    let side = match order {
        Ordering::Less => Side::Lesser,
        Ordering::Equal | Ordering::Greater => Side::Greater,
    };
    Some((i, side))
}

// The node of a branch.
fn parent_in<I: Copy>(branch: Option<Branch<I>>) -> Option<I>
    ensures { result ≡ option_map (λ p. p.parent) branch }
{
    Some(branch?.parent)
}

// The place in the chain that `at` names.
pub(super) fn kind_of<P: BasePtr>(at: Option<(P::Inx, Side)>) -> LinkInsertKind<P>
    ensures { result ≡ kind_at at }
{
    match at {
        None => LinkInsertKind::Disconnected,
        Some((i, Side::Lesser)) => LinkInsertKind::PrevToInx(i),
        Some((i, Side::Greater)) => LinkInsertKind::NextToInx(i),
    }
}

// The entry directly before or after an occupied index.
pub(super) fn neighbour<P: BasePtr, T, A: Allocator>(
    chain: &ChainArena<P, SimpleOrdArenaNode<P, T>, A>,
    i: NodeInx<P::Inx>,
    side: Side,
) -> Option<NodeInx<P::Inx>>
    requires { IsOccupied chain.now (P.Inx.number i) }
    ensures { option_map P.Inx.number result
        ≡ neighbour_in side (P.Inx.number i) (indexes chain.now.entries) }
{
    let link = chain.link(i.get());
    match side {
        Side::Lesser => as_link::<P>(link.prev()),
        Side::Greater => as_link::<P>(link.next()),
    }
}

// The branch for a new leaf on that side of an occupied index: that side itself if it is empty, else the facing side of the neighbour
// there, which is then empty.
fn branch_on<P: BasePtr, T, A: Allocator>(
    chain: &ChainArena<P, SimpleOrdArenaNode<P, T>, A>,
    i: NodeInx<P::Inx>,
    side: Side,
) -> Option<Branch<NodeInx<P::Inx>>>
    requires { IsOccupied chain.now (P.Inx.number i) }
    ensures { (root : Option ℕ) (s : Shape)
        → IsLaidOut chain.now root s → IsDistinct chain.now.entries
        → IsSomeAnd result (IsLeafBranch P.Inx.number (P.Inx.number i) side (slots_of chain.now)
        (indexes chain.now.entries)) }
{
    let links = chain.links(i);
    if links.child(side).is_none() {
        return Some(Branch { parent: i, side });
    }
    let Some(parent) = neighbour(chain, i, side) else {
        return None;
    };
    Some(Branch {
        parent,
        side: side.other(),
    })
}

// The branch for a new leaf before or after an entry, or none for the only entry.
fn branch_at<P: BasePtr, T, A: Allocator>(
    chain: &ChainArena<P, SimpleOrdArenaNode<P, T>, A>,
    at: Option<(P::Inx, Side)>,
) -> Option<Branch<NodeInx<P::Inx>>>
    requires { CanPutAt P.Inx.number at chain.now }
    ensures { (root : Option ℕ) (s : Shape)
        → IsLaidOut chain.now root s → IsDistinct chain.now.entries
        → IsLeafBranchAt P.Inx.number at (slots_of chain.now) (indexes chain.now.entries) result }
{
    match at {
        None => None,
        Some((i, side)) => branch_on(chain, node_at(chain, i), side),
    }
}

// Adds the new leaf x to the tree over a chain, on its branch or as the root.
#[inline(always)]
fn grow<P: BasePtr, T, A: Allocator>(
    chain: &mut ChainArena<P, SimpleOrdArenaNode<P, T>, A>,
    root: &mut Option<NodeInx<P::Inx>>,
    branch: Option<Branch<NodeInx<P::Inx>>>,
    x: NodeInx<P::Inx>,
)
    requires { MatchOption branch (Unit {0}) (λ p. (order : List ℕ) × (slack : ℕ)
        × IsNewLeaf (slots_of chain.old) (option_map P.Inx.number root.old) p.side
        (P.Inx.number p.parent) (P.Inx.number x) order slack) }
    ensures grown { MatchOption branch
        ((chain.new ≡ chain.old) × (root.new ≡ Some x))
        (λ p. (order : List ℕ) (slack : ℕ)
        → IsNewLeaf (slots_of chain.old) (option_map P.Inx.number root.old) p.side
        (P.Inx.number p.parent) (P.Inx.number x) order slack
        → IsRepaired (slots_of chain.old) (slots_of chain.new)
        (option_map P.Inx.number root.new)
        (beside p.side (P.Inx.number p.parent) (P.Inx.number x) order)
        slack) }
    ensures account { MatchOption branch (Unit {0})
        (λ p. (order : List ℕ) (slack : ℕ)
        (bud : IsNewLeaf (slots_of chain.old) (option_map P.Inx.number root.old) p.side
        (P.Inx.number p.parent) (P.Inx.number x) order slack)
        → IsSpelledWithin (rank_in bud.built.shape) (slots_of chain.new)
        (option_map P.Inx.number root.new)
        (beside p.side (P.Inx.number p.parent) (P.Inx.number x) order)
        (potential bud.built.shape + 4)) }
    ensures kept { bare chain.new ≡ bare chain.old }
{
    match branch {
        None => *root = Some(x),
        Some(branch) => add_leaf(chain, root, branch.side, branch.parent, x),
    }
}
