//! Printing a side.

use super::OrderQueue;
use std::alloc::Allocator;
use std::fmt;

/// A list of orders, first the one that trades first.
impl<T: Copy + fmt::Debug, A: Allocator> fmt::Debug for OrderQueue<T, A> {
    fn fmt<W: fmt::Write>(&self, f: &mut fmt::Formatter<W>) -> fmt::Result {
        f.debug_list().entries(self.iter()).finish()
    }
}
