//! Replacing values inside others, such as pointers to entries that have moved.
ghost use Rattle.std.specs.Prelude.{Result};

/// Something that replaces items.
pub trait Recaster {
    /// The type of the items.
    type Item;

    // What an item may be afterwards, and what the call may return.
    ghost item_gives: { Self → Self.Item → Result (Unit {0}) Self.Item → Self.Item → Type 0 };

    /// Replaces the item, or returns it as the error.
    fn recast_item(&self, item: &mut Self::Item) -> Result<(), Self::Item>
        ensures { item_gives self.now item.old result item.new };
}

/// A value with items `I` inside, each of which a recaster can replace.
pub trait Recast<I> {
    // What the value may be afterwards and what the call may return, given what the recaster may do to an item.
    ghost recast_gives: { (I → Result (Unit {0}) I → I → Type 0)
        → Self → Result (Unit {0}) I → Self → Type 0 };

    /// Replaces each item, up to the first that the recaster refuses, which is the error.
    fn recast<R: Recaster<Item = I>>(&mut self, recaster: &R) -> Result<(), I>
        ensures { recast_gives (R.item_gives recaster.now) self.old result self.new };
}
