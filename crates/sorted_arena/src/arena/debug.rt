//! Printing a sorted arena.
use super::SortedArena;
use std::alloc::Allocator;
use std::fmt;
use triple_ord::BasePtr;

/// A map from pointer to key and value, in order.
impl<K: Ord + fmt::Debug, V: fmt::Debug, P: BasePtr + fmt::Debug, A: Allocator> fmt::Debug
    for SortedArena<K, V, P, A> {
    fn fmt<W: fmt::Write>(&self, f: &mut fmt::Formatter<W>) -> fmt::Result {
        self.pairs.fmt(f)
    }
}
