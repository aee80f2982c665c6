//! Clones of a side.

ghost use Rattle.std.specs.Prelude.{◌≡◌, [], IfOk, IsOk};
ghost use Rattle.order_book.specs.Queue.{clone_of};

use super::OrderQueue;
use std::alloc::{AllocError, Allocator};

impl<T: Copy, A: Allocator + Copy> OrderQueue<T, A> {
    /// Returns a clone on the same allocator: the same orders under the same pointers. Its capacity is the greatest index of a pointer.
    /// O(capacity).
    ///
    /// # Errors
    ///
    /// `AllocError`: memory for the orders is refused.
    pub fn try_clone(&self) -> Result<Self, AllocError>
        ensures ok { IfOk result (λ queue. queue ≡ clone_of self.now) }
        ensures none { self.now.orders ≡ [] → IsOk result }
    {
        Ok(OrderQueue {
            side: self.side,
            ladder: self.ladder.try_clone()?,
        })
    }
}
