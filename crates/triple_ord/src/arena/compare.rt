//! Comparing arenas by their items.
ghost use Rattle.std.specs.Prelude.{◌≡◌};
ghost use Rattle.std.specs.Cmp.Lexicographic.{slice_cmp, slice_partial_cmp, pointwise};
ghost use Rattle.triple_ord.specs.Arena.{items};

use super::SimpleOrdArena;
use arena_base::BasePtr;
use std::alloc::Allocator;
use std::cmp::Ordering;

impl<P: BasePtr, T, A: Allocator> SimpleOrdArena<P, T, A> {
    /// Returns whether both arenas have equal items in the same order.
    pub fn canonical_eq<Q: BasePtr, B: Allocator>(&self, other: &SimpleOrdArena<Q, T, B>) -> bool
    where
        T: PartialEq,
        ensures { result ≡ pointwise T.eq (items self.now) (items other.now) }
    {
        let mut theirs = other.iter_ordered();
        for mine in self.iter_ordered() {
            let Some(their) = theirs.next() else {
                return false;
            };
            if !mine.1.eq(their.1) {
                return false;
            }
        }
        theirs.next().is_none()
    }

    /// Returns the lexicographic order of the items, or `None` if the first two that differ have no order.
    pub fn canonical_partial_cmp<Q: BasePtr, B: Allocator>(
        &self,
        other: &SimpleOrdArena<Q, T, B>,
    ) -> Option<Ordering>
    where
        T: PartialOrd,
        ensures { result ≡ slice_partial_cmp T.partial_cmp (items self.now) (items other.now) }
    {
        let mut theirs = other.iter_ordered();
        for mine in self.iter_ordered() {
            let Some(their) = theirs.next() else {
                return Some(Ordering::Greater);
            };
            let Some(order) = mine.1.partial_cmp(their.1) else {
                return None;
            };
            if order.is_ne() {
                return Some(order);
            }
        }
        match theirs.next() {
            Some(_) => Some(Ordering::Less),
            None => Some(Ordering::Equal),
        }
    }

    /// Returns the lexicographic order of the items.
    pub fn canonical_cmp<Q: BasePtr, B: Allocator>(
        &self,
        other: &SimpleOrdArena<Q, T, B>,
    ) -> Ordering
    where
        T: Ord,
        ensures { result ≡ slice_cmp T.cmp (items self.now) (items other.now) }
    {
        let mut theirs = other.iter_ordered();
        for mine in self.iter_ordered() {
            let Some(their) = theirs.next() else {
                return Ordering::Greater;
            };
            let order = mine.1.cmp(their.1);
            if order.is_ne() {
                return order;
            }
        }
        match theirs.next() {
            Some(_) => Ordering::Less,
            None => Ordering::Equal,
        }
    }
}
