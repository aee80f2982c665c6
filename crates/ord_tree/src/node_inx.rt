//! `NodeInx`: the index of a node.

ghost use Rattle.std.specs.Prelude.{◌≡◌, ◌≢◌, option_map};
ghost use Rattle.chain_base.specs.Pointer.{named_of};
ghost use Rattle.chain_base.specs.Chain.{IsOccupied};

use arena_base::{BasePtr, BasePtrInx, OptInx};
use chain_base::ChainArena;
use std::alloc::{AllocError, Allocator};
use std::marker::Model;

/// The index of a node. It is never 0, which a node stores for an empty link.
#[derive(Debug)]
pub struct NodeInx<I: BasePtrInx> {
    inx: I,
}

impl<I: BasePtrInx> Model for NodeInx<I> {
    ghost use Rattle.std.specs.Prelude.{◌≢◌};

    ghost Value = { I };

    ghost view = { λ i. i.inx };

    ghost invariant = { λ i. I.number i.inx ≢ 0 };

    ghost inverse = { λ i. record { inx = i } };
}

impl<I: BasePtrInx> Clone for NodeInx<I> {
    fn clone(&self) -> Result<Self, AllocError> {
        Ok(*self)
    }
}

impl<I: BasePtrInx> Copy for NodeInx<I> {}

impl<I: BasePtrInx> NodeInx<I> {
    /// Creates the index of a node.
    pub fn new(inx: I) -> Self
        requires { I.number inx ≢ 0 }
        ensures { result ≡ inx }
    {
        NodeInx { inx }
    }

    /// Returns the index.
    pub fn get(self) -> I
        ensures value { result ≡ self }
        ensures named { I.number self ≢ 0 }
    {
        self.inx
    }
}

/// Returns the index of an entry as the index of its node.
pub fn node_at<P: BasePtr, T, A: Allocator>(
    chain: &ChainArena<P, T, A>,
    i: P::Inx,
) -> NodeInx<P::Inx>
    requires { IsOccupied chain.now (P.Inx.number i) }
    ensures { result ≡ i }
{
    // For the prover: the list is sound.
    prove!(chain.len() <= chain.capacity());
    NodeInx::new(i)
}

/// Converts a link to the form in which a node stores it.
pub fn kept<P: BasePtr>(link: Option<NodeInx<P::Inx>>) -> OptInx<P>
    ensures { result ≡ option_map P.Inx.number link }
{
    match link {
        Some(i) => OptInx::new(Some(i.get())),
        None => OptInx::none(),
    }
}

/// Returns the link that a node stores.
pub fn link_in<P: BasePtr>(kept: &OptInx<P>) -> Option<NodeInx<P::Inx>>
    ensures { option_map P.Inx.number result ≡ kept.now }
{
    as_link::<P>(kept.get())
}

/// Converts a link whose index isn't 0.
pub fn as_link<P: BasePtr>(link: Option<P::Inx>) -> Option<NodeInx<P::Inx>>
    requires { named_of (option_map P.Inx.number link) ≡ option_map P.Inx.number link }
    ensures { result ≡ link }
{
    Some(NodeInx::new(link?))
}
