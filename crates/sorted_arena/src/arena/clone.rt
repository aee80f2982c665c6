//! Clones of a sorted arena.

ghost use Rattle.std.specs.Prelude.{◌≡◌, IfOk, IsOk};
ghost use Rattle.listing.specs.Chain.{greatest_index};
ghost use Rattle.sorted_arena.specs.Sorted.{count};

use super::SortedArena;
use std::alloc::{AllocError, Allocator};
use triple_ord::BasePtr;

impl<K: Ord + Clone + Drop, V: Clone + Drop, P: BasePtr, A: Allocator + Copy> SortedArena<
    K,
    V,
    P,
    A,
> {
    /// Returns a clone of this arena on the same allocator: it has the same pointers, keys and values. Its capacity is the greatest index
    /// of an entry. A clone of a key has to equal the key, and that of a value the value. O(capacity).
    ///
    /// # Errors
    ///
    /// Memory for the entries, or for the clone of a key or of a value, is refused.
    pub fn clone(&self) -> Result<Self, AllocError>
        requires keys { (x y : K) → K.is_clone x y → y ≡ x }
        requires values { (x y : V) → V.is_clone x y → y ≡ x }
        ensures entries { IfOk result (λ a. a.entries ≡ self.now.entries) }
        ensures generation { IfOk result (λ a. a.generation ≡ self.now.generation) }
        ensures capacity { IfOk result (λ a. a.capacity ≡ greatest_index self.now.entries) }
        ensures none { count self.now ≡ 0 → IsOk result }
    {
        Ok(SortedArena {
            pairs: self.pairs.clone()?,
            alloc: self.alloc,
            is_compact: self.is_compact,
        })
    }
}
