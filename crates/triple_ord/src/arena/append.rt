//! Appending many items at once.
ghost use Rattle.triple_ord.specs.Append.{AppendsAll};

use super::SimpleOrdArena;
use crate::pair::OrdPair;
use arena_base::BasePtr;
use std::alloc::Allocator;

impl<P: BasePtr, T: Drop, A: Allocator> SimpleOrdArena<P, T, A> {
    /// Appends items behind the last entry, in their order, and builds the tree anew.
    ///
    /// Each item becomes a new entry, in the slot and with the generation that an insertion gives it. No key is compared: the arena is in
    /// order afterwards if it was, and the items are in order and none has a smaller key than the last entry.
    ///
    /// # Errors
    ///
    /// The arena is unchanged and the items come back: there are fewer vacant slots than items.
    ///
    /// # Complexity
    ///
    /// O(n + m) for n entries and m items, O(1) for none; no memory. For few items single insertions are cheaper.
    pub fn append_within_capacity<B: Allocator>(
        &mut self,
        added: Vec<T, B>,
    ) -> Result<(), Vec<T, B>>
        ensures { AppendsAll self.old added result self.new }
    {
        self.tree.append_within_capacity(added)
    }
}

impl<P: BasePtr, K: Drop, V: Drop, A: Allocator> SimpleOrdArena<P, OrdPair<K, V>, A> {
    /// Appends keys with their values, as [`append_within_capacity`](Self::append_within_capacity) does.
    ///
    /// ```
    /// pairs.reserve(2)?;
    /// let sorted = Vec::from_array(rt.alloc(), [(1, "one"), (2, "two")])?;
    /// assert!(rt; pairs.append_pairs_within_capacity(sorted).is_ok());
    /// assert_eq!(rt; pairs.first().and_then(|p| pairs.get(p)), Some(&OrdPair::new(1, "one")));
    /// ```
    pub fn append_pairs_within_capacity<B: Allocator>(
        &mut self,
        added: Vec<(K, V), B>,
    ) -> Result<(), Vec<(K, V), B>>
        ensures { AppendsAll self.old added result self.new }
    {
        self.tree.append_within_capacity(added)
    }
}
