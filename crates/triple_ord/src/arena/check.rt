//! Checking the order of the keys.
ghost use Rattle.std.specs.Prelude.{◌≡◌, ◌↔◌, IsOk, IfErr, codes};
ghost use Rattle.triple_ord.specs.Order.{IsInOrder};

use super::SimpleOrdArena;
use crate::item::SimpleOrdItem;
use arena_base::BasePtr;
use std::alloc::Allocator;

impl<P: BasePtr, T: SimpleOrdItem, A: Allocator> SimpleOrdArena<P, T, A> {
    /// Checks that the list is in the order of its keys. Returns `Err("incorrect ordering")` exactly if some entry's key is greater than
    /// that of the entry after it. It compares each key with the next one. The links, ranks and pointers of an arena are always sound.
    pub fn _check_invariants(this: &Self) -> Result<(), &'static str>
        ensures in_order { IsOk result ↔ IsInOrder T.key_of T.Key.Ord.cmp this.now.list.entries }
        ensures text { IfErr result (λ text. text.now ≡ codes "incorrect ordering") }
    {
        let mut entries = this.iter_ordered();
        let Some(mut last) = entries.next() else {
            return Ok(());
        };
        for entry in entries {
            if last.1.key().cmp(entry.1.key()).is_gt() {
                return Err("incorrect ordering");
            }
            last = entry;
        }
        Ok(())
    }
}
