//! Recasting the items of an arena.
ghost use Rattle.std.specs.Prelude.{IsSome};
ghost use Rattle.triple_ord.specs.Arena.{entry_at};
ghost use Rattle.triple_ord.specs.Recasting.{RecastsItem};

use super::SimpleOrdArena;
use arena_base::{BasePtr, BasePtrInx, ItemsMut, Recast, Recaster};
use std::alloc::Allocator;

/// Recasts the items by rising index, up to the first whose recast fails, in O(capacity). The items before that one stay recast, that one
/// is left as its own recast left it, and the others are unchanged. If keys change, the arena may be out of order.
impl<I, P: BasePtr, T: Recast<I>, A: Allocator> Recast<I> for SimpleOrdArena<P, T, A> {
    ghost use Rattle.triple_ord.specs.Recasting.{RecastsItems};

    ghost recast_gives = { λ gives old result new.
        RecastsItems (T.recast_gives gives) old result new };

    fn recast<R: Recaster<Item = I>>(&mut self, recaster: &R) -> Result<(), I> {
        let capacity = self.capacity();
        for position in 0..capacity {
            let i = P::Inx::try_from_usize(position + 1).unwrap();
            if self.contains_inx(i) {
                recast_at(self, i, recaster)?;
            }
        }
        Ok(())
    }
}

// Recasts the item of the entry at an occupied index.
fn recast_at<I, P: BasePtr, T: Recast<I>, A: Allocator, R: Recaster<Item = I>>(
    arena: &mut SimpleOrdArena<P, T, A>,
    i: P::Inx,
    recaster: &R,
) -> Result<(), I>
    requires { IsSome (entry_at arena.old (P.Inx.number i)) }
    ensures { RecastsItem (T.recast_gives (R.item_gives recaster.now)) result arena.old
        (P.Inx.number i) arena.new }
{
    let pair = arena.pair_mut(i);
    let item = pair.1;
    item.recast(recaster)
}
