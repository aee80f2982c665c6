//! Clones of a ladder.

ghost use Rattle.std.specs.Prelude.{◌≡◌, [], IfOk, IsOk};
ghost use Rattle.sorted_arena.specs.Chain.{greatest_index};
ghost use Rattle.order_book.specs.Ladder.{rows_of, IsCloneOf, IsLadder};

use super::{Ladder, Resting};
use chain_base::ChainArena;
use sorted_arena::P0;
use std::alloc::{AllocError, Allocator};

impl<T: Copy, A: Allocator + Copy> Ladder<T, A> {
    /// Returns a clone on the same allocator: the same orders under the same pointers. Its capacity is the greatest index of a pointer.
    pub(crate) fn try_clone(&self) -> Result<Self, AllocError>
        requires { IsLadder self.now.orders self.now.levels }
        ensures ladder { IfOk result (λ l. IsLadder l.orders l.levels) }
        ensures ok { IfOk result (λ l. rows_of l.orders ≡ record (rows_of self.now.orders) {
          capacity = greatest_index (rows_of self.now.orders).entries;
        }) }
        ensures none { self.now.orders.entries ≡ [] → IsOk result }
    {
        let orders = clone_of(&self.orders)?;
        // For the prover: there are no more levels than orders, which all fit.
        let _orders = orders.len();
        let mut levels = self.levels.clone()?;
        match levels.reserve(orders.capacity() - levels.len()) {
            Ok(()) => Ok(Ladder {
                orders,
                levels,
                recent: None,
            }),
            Err(_) => Err(AllocError),
        }
    }
}

// A clone of a list on the same allocator.
fn clone_of<T: Copy, A: Allocator + Copy>(
    orders: &ChainArena<P0, Resting<T>, A>,
) -> Result<ChainArena<P0, Resting<T>, A>, AllocError>
    ensures ok { IfOk result (λ c. IsCloneOf orders.now c) }
    ensures none { orders.now.entries ≡ [] → IsOk result }
{
    // For the prover: the list is sound.
    let _ = orders.len();
    let mut clone = ChainArena::new(orders.alloc());
    match clone.clone_from_with(orders, |_pointer, order, _neighbours| *order) {
        Ok(()) => Ok(clone),
        Err(_) => Err(AllocError),
    }
}
