//! The ends of a store of leaves, and the neighbours of a leaf.
ghost use Rattle.std.specs.Prelude.{◌≡◌, None};
ghost use Rattle.std.specs.Option.{option_map};
ghost use Rattle.leaf_list.specs.Parts.{first_number, last_number, number_after, number_before, HasLeaf};

use super::LeafStore;
use std::alloc::Allocator;
use triple_ord::BasePtr;

impl<K, P: BasePtr, A: Allocator> LeafStore<K, P, A> {
    /// Returns the number of the first leaf. O(1).
    pub(crate) fn first(&self) -> Option<P::Inx>
        ensures { option_map P.Inx.number result ≡ first_number self.now.leaves }
    {
        let Some(p) = self.index.first() else {
            return None;
        };
        Some(p.inx())
    }

    /// Returns the number of the last leaf. O(1).
    pub(crate) fn last(&self) -> Option<P::Inx>
        ensures { option_map P.Inx.number result ≡ last_number self.now.leaves }
    {
        let Some(p) = self.index.last() else {
            return None;
        };
        Some(p.inx())
    }

    /// Returns the number of the next leaf; `None` for the last. O(1).
    #[inline(always)]
    pub(crate) fn after(&self, leaf: P::Inx) -> Option<P::Inx>
        requires { HasLeaf self.now.leaves (P.Inx.number leaf) }
        ensures value { option_map P.Inx.number result
            ≡ number_after self.now.leaves (P.Inx.number leaf) }
    {
        self.index.get_inx_link_no_gen(leaf).unwrap().1.next()
    }

    /// Returns the number of the leaf before; `None` for the first. O(1).
    #[inline(always)]
    pub(crate) fn before(&self, leaf: P::Inx) -> Option<P::Inx>
        requires { HasLeaf self.now.leaves (P.Inx.number leaf) }
        ensures value { option_map P.Inx.number result
            ≡ number_before None self.now.leaves (P.Inx.number leaf) }
    {
        self.index.get_inx_link_no_gen(leaf).unwrap().1.prev()
    }
}
