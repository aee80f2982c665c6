//! The place of a key.

ghost use Rattle.std.specs.Prelude.{◌≡◌};
ghost use Rattle.std.specs.Option.{option_map};
ghost use Rattle.std.specs.Ordering.{is_eq};
ghost use Rattle.sorted_arena.specs.Entry.{arena_behind, key_sought, pointer_found};
ghost use Rattle.sorted_arena.specs.Sorted.{first_where, key_of};

use super::SortedArena;
use crate::entry::{Entry, OccupiedEntry, VacantEntry};
use std::alloc::Allocator;
use triple_ord::BasePtr;

impl<K: Ord, V, P: BasePtr, A: Allocator> SortedArena<K, V, P, A> {
    /// Finds the place of a key, in O(log n): the first entry that has it, or where one can be inserted.
    ///
    /// ```
    /// for word in ["tea", "milk", "tea"] {
    ///     match stock.entry(word) {
    ///         Entry::Occupied(mut entry) => {
    ///             let count = entry.value().saturating_add(1);
    ///             entry.set_value(count);
    ///         }
    ///         Entry::Vacant(entry) => {
    ///             entry.insert(1).map_err(|refused| refused.1)?;
    ///         }
    ///     }
    /// }
    /// assert!(rt; stock.keys().eq(&["milk", "tea"]));
    /// assert!(rt; stock.values().eq(&[1, 2]));
    /// ```
    pub fn entry(&mut self, k: K) -> Entry<'_, K, V, P, A>
        ensures same_arena { (arena_behind result).ghost_name ≡ self.entry.ghost_name }
        ensures unchanged { (arena_behind result).now ≡ self.old }
        ensures key { key_sought result ≡ k }
        ensures found { option_map P.numbers (pointer_found result)
            ≡ first_where (λ e. is_eq (K.cmp k (key_of e))) self.old.entries }
    {
        match self.find(&k) {
            Some(pointer) => Entry::Occupied(OccupiedEntry {
                arena: self,
                key: k,
                pointer,
            }),
            None => Entry::Vacant(VacantEntry {
                arena: self,
                key: k,
            }),
        }
    }
}
