//! `ItemsMut`: references to items for writing, and what a write changes.
ghost use Rattle.std.specs.Prelude.{◌≡◌, ℕ, Option, Some, is_some, IsSome};
ghost use Rattle.std.specs.Option.{option_copied_mut, option_map};
ghost use Rattle.std.specs.Borrow.{sem, Lends, LendsIf, follows_if, name_if_some};

use crate::ptr::{BasePtr, BasePtrGen, BasePtrInx};

/// Containers that find entries by index and let their items be written.
///
/// A written item becomes the entry's, and nothing else changes. Each call takes O(1) in an arena, a chain arena, a tree and an ordered
/// arena.
pub trait ItemsMut<P: BasePtr, T> {
    // Generation and item of the entry at an index.
    ghost entry_at: { Self → ℕ → Option (ℕ × T) };

    // The container with another item in the entry at an index.
    ghost written: { Self → ℕ → T → Self };

    /// Returns whether index `i` has an entry.
    fn contains_inx(&self, i: P::Inx) -> bool
        ensures { result ≡ is_some (entry_at self.now (P.Inx.number i)) };

    /// Returns the generation and the item of the entry at index `i`, which must have one. The item may be written.
    fn pair_mut(&mut self, i: P::Inx) -> (P::Gen, &mut T)
        requires { IsSome (entry_at self.old (P.Inx.number i)) }
        ensures* writes_back { sem 𝓛
            (Lends Self.row T.row self.entry result.1 (written self.old (P.Inx.number i))) }
        ensures value { entry_at self.old (P.Inx.number i)
            ≡ Some (P.Gen.number result.0, result.1.now) };

    /// Returns the item at index `i` for writing; `None` if there is none.
    final fn item_at_mut(&mut self, i: P::Inx) -> Option<&mut T>
        ensures* writes_back { sem 𝓛
            (LendsIf Self.row T.row self.entry result
            (written self.old (P.Inx.number i)) self.old) }
        ensures value { option_copied_mut result
            ≡ option_map (λ e. e.1) (entry_at self.old (P.Inx.number i)) }
    {
        if self.contains_inx(i) {
            Some(self.pair_mut(i).1)
        } else {
            None
        }
    }

    /// Returns the generation and the item of the entry at index `i`; `None` if there is none. The item may be written.
    ///
    /// A written item becomes the entry's, and nothing else changes. A caller's generated proof learns this from `pair_mut` and
    /// `item_at_mut`, not from this call.
    final fn get_inx_mut(&mut self, i: P::Inx) -> Option<(P::Gen, &mut T)>
        ensures* writes_back { sem 𝓛 (follows_if Self.row T.row self.entry.ghost_name
            (name_if_some (λ e. e.1.ghost_name) result)
            (written self.old (P.Inx.number i)) self.old) }
        ensures value { option_map (λ e. (P.Gen.number e.0, e.1.now)) result
            ≡ entry_at self.old (P.Inx.number i) }
    {
        let (occupied, items) = occupied(self, i);
        if occupied {
            Some(items.pair_mut(i))
        } else {
            None
        }
    }
}

// Whether index `i` has an entry, and the container again, as the same reference.
fn occupied<S: ItemsMut<P, T>, P: BasePtr, T>(items: &mut S, i: P::Inx) -> (bool, &mut S)
    ensures same_reference { result.1.ghost_name ≡ items.entry.ghost_name }
    ensures same { result.1.now ≡ items.old }
    ensures occupied { result.0 ≡ is_some (S.entry_at items.old (P.Inx.number i)) }
{
    (items.contains_inx(i), items)
}
