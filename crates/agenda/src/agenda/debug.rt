//! Printing an agenda.

use super::Agenda;
use std::alloc::Allocator;
use std::fmt;

/// A map from pointer to deadline and job, in order.
impl<J: fmt::Debug, A: Allocator> fmt::Debug for Agenda<J, A> {
    fn fmt<W: fmt::Write>(&self, f: &mut fmt::Formatter<W>) -> fmt::Result {
        self.jobs.fmt(f)
    }
}
