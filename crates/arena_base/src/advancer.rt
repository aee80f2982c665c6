//! `Advancer`: walks over a collection that don't borrow it.
ghost use Rattle.std.specs.Prelude.{Option, IsNone};

/// A walk over a collection, which may change between two steps.
pub trait Advancer<C> {
    /// What a step returns.
    type Item;

    // A step over the collection may return this and leave this advancer.
    ghost advance_gives: { Self → C → Option Self.Item → Self → Type 0 };

    // The advancer never returns anything, whatever is added to the collection.
    ghost has_ended: { Self → Type 0 };

    /// Returns the next item of the collection as it is now; `None` if nothing is left. An advancer that has ended stays ended.
    fn advance(&mut self, collection: &C) -> Option<Self::Item>
        ensures step { advance_gives self.old collection.now result self.new }
        ensures nothing { has_ended self.old → IsNone result }
        ensures ended { has_ended self.old → has_ended self.new };

    /// Creates an advancer that never returns anything.
    fn empty() -> Self
        ensures { has_ended result };
}
