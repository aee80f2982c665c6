//! An arena of pointers as a recaster: it finds what replaces each pointer.
ghost use Rattle.std.specs.Prelude.{◌≡◌, Ok, Err, MatchOption};
ghost use Rattle.arena_base.specs.Arena.{item_of};

use super::Arena;
use crate::ptr::{BasePtr, BasePtrGen, BasePtrInx};
use crate::recast::Recaster;
use std::alloc::Allocator;

impl<P: BasePtr, A: Allocator> Recaster for Arena<P, P, A> {
    type Item = P;

    ghost item_gives = { λ a p result q. MatchOption (item_of a (P.numbers p))
        ((result ≡ Err p) × (q ≡ p)) (λ found. (result ≡ Ok tt) × (q ≡ found)) };

    /// Replaces the pointer with the item that it finds, or returns it as the error if it finds none.
    fn recast_item(&self, item: &mut P) -> Result<(), P> {
        match self.get(*item) {
            Some(found) => {
                *item = *found;
                Ok(())
            }
            None => Err(*item),
        }
    }
}
