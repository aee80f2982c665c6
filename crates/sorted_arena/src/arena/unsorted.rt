//! Arenas of pairs in any order.

ghost use Rattle.std.specs.Prelude.{◌≡◌, ◌↔◌, ◌<◌, [], map, length, Some, IfOk, IfErr, IsOk};
ghost use Rattle.std.specs.List.Sorted.{IsPermutation, IsStableByKey};
ghost use Rattle.listing.specs.{Generation.first_generation};
ghost use Rattle.sorted_arena.specs.Change.{refusal_of};
ghost use Rattle.sorted_arena.specs.Sorted.{pair_of};

use super::SortedArena;
use std::alloc::Allocator;
use std::cmp::Ordering;
use triple_ord::{BasePtr, ReallocationError};

impl<K: Ord + Drop, V: Drop, P: BasePtr, A: Allocator> SortedArena<K, V, P, A> {
    /// Creates an arena of pairs in any order, with the capacity that they need. Pairs with equal keys keep their order. O(n log n).
    ///
    /// The vector is sorted, which takes memory for at most half as many pairs where there are more than 20; then the tree is built at once.
    ///
    /// ```
    /// let pairs = Vec::from_array(rt.alloc(), [(120, "Grace"), (100, "Ada")])?;
    /// let users: SortedArena<u64, &str> =
    ///     SortedArena::from_unsorted(rt.alloc(), pairs).map_err(|refused| refused.1)?;
    /// assert!(rt; users.values().eq(&["Ada", "Grace"]));
    /// ```
    ///
    /// # Errors
    ///
    /// The vector comes back as it was.
    /// - `BeyondMaxCapacity`: there are more pairs than pointers have indexes.
    /// - `AllocError`: there are pairs, and memory for the arena or for the sort is refused.
    pub fn from_unsorted<B: Allocator>(
        alloc: A,
        mut pairs: Vec<(K, V), B>,
    ) -> Result<Self, (Vec<(K, V), B>, ReallocationError)>
    where
        A: Copy,
        ensures permutation { IfOk result
            (λ a. IsPermutation pairs.items (map pair_of a.entries)) }
        ensures stable { IfOk result
            (λ a. IsStableByKey (λ x. x.0) K.cmp pairs.items (map pair_of a.entries)) }
        ensures generation { IfOk result (λ a. a.generation ≡ first_generation P.Gen.greatest) }
        ensures capacity { IfOk result (λ a. a.capacity ≡ length pairs.items) }
        ensures back { IfErr result (λ e. e.0.items ≡ pairs.items) }
        ensures full { (refusal_of result ≡ Some ReallocationError.BeyondMaxCapacity)
            ↔ (P.Inx.most < length pairs.items) }
        ensures none { pairs.items ≡ [] → IsOk result }
    {
        let mut arena = match SortedArena::with_room(alloc, pairs.len()) {
            Ok(arena) => arena,
            Err(refusal) => return Err((pairs, refusal)),
        };
        match pairs.sort_by(by_key) {
            Ok(()) => {
                arena.append_sorted(pairs);
                Ok(arena)
            }
            Err(_) => Err((pairs, ReallocationError::AllocError)),
        }
    }
}

// The order of two pairs by their keys.
fn by_key<K: Ord, V>(x: &(K, V), y: &(K, V)) -> Ordering
    ensures { result ≡ K.cmp x.now.0 y.now.0 }
{
    x.0.cmp(&y.0)
}
