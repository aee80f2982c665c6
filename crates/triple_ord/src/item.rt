//! `SimpleOrdItem`: what an ordered arena requires of its items.
ghost use Rattle.std.specs.Prelude.{◌≡◌};

/// An item with a key, by which an ordered arena finds it.
///
/// The key is part of the item. Its order is total, as `Ord` requires.
pub trait SimpleOrdItem {
    /// The type of the keys.
    type Key: Ord;

    // The key of an item.
    ghost key_of: { Self → Self.Key };

    /// Returns the key of the item.
    fn key(&self) -> &Self::Key
        ensures { result.now ≡ key_of self.now };
}
