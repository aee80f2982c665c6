//! Printing a timeline.

use crate::timeline::Timeline;
use std::alloc::Allocator;
use std::fmt;

/// Prints a map from the time of each change to the value that holds from then on, in order.
impl<V: fmt::Debug, A: Allocator> fmt::Debug for Timeline<V, A> {
    fn fmt<W: fmt::Write>(&self, f: &mut fmt::Formatter<W>) -> fmt::Result {
        let mut out = f.debug_map();
        for (time, value) in self.changes() {
            out.entry(&time, &value);
        }
        out.finish()
    }
}
