//! Printing an arena.
use super::SimpleOrdArena;
use arena_base::BasePtr;
use std::alloc::Allocator;
use std::fmt;

/// Prints a map from pointer to item, in list order.
impl<P: BasePtr + fmt::Debug, T: fmt::Debug, A: Allocator> fmt::Debug for SimpleOrdArena<P, T, A> {
    fn fmt<W: fmt::Write>(&self, f: &mut fmt::Formatter<W>) -> fmt::Result {
        let mut out = f.debug_map();
        for (p, item) in self {
            out.entry(&p, item);
        }
        out.finish()
    }
}
