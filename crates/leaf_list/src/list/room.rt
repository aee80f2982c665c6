//! Room, and lists that are emptied and cloned.
ghost use Rattle.std.specs.Prelude.{◌≡◌, ◌+◌, ◌*◌, ◌/◌, ◌≤◌, ◌<◌, [], max, IfOk, IsErr, OnOk, OnErr};
ghost use Rattle.leaf_list.specs.Leaves.{greatest_number, room_for};

use super::LeafList;
use crate::store::LEAST;
use std::alloc::{AllocError, Allocator};
use triple_ord::BasePtr;

impl<K: Ord, P: BasePtr, A: Allocator> LeafList<K, P, A> {
    /// Makes room for `n` entries, if there is less. O(n).
    ///
    /// # Errors
    ///
    /// Growing failed, or the pointers' indexes can't number so many leaves. The list is unchanged.
    pub fn reserve(&mut self, n: usize) -> Result<(), AllocError>
    where
        A: Copy,
        ensures ok { OnOk result (self.new ≡ record self.old { room = max self.old.room (room_for n) }) }
        ensures err { OnErr result (self.new ≡ self.old) }
        ensures fails { IsErr result → self.old.room < room_for n }
    {
        let leaves = leaves_for(n);
        if leaves <= self.store.room() / LEAST {
            return Ok(());
        }
        self.store.reallocate(leaves)
    }

    /// Reduces the room to that for `n` entries, or to 16 times the greatest number of a leaf, if that is more. O(room).
    pub fn shrink(&mut self, n: usize)
    where
        A: Copy,
        requires { room_for n ≤ self.old.room }
        ensures { self.new ≡ record self.old {
          room = max (room_for n) (16 * greatest_number self.old.leaves);
        } }
    {
        let _ = self.store.reallocate(leaves_for(n));
    }

    /// Drops all entries. The room stays. O(room).
    pub fn clear(&mut self)
    where
        K: Drop,
        ensures { self.new ≡ record self.old { leaves = [] } }
    {
        self.store.clear();
    }

    /// Returns a clone: the same entries in leaves of the same numbers, and room for 16 times the greatest number. O(room).
    ///
    /// A clone of a key has to equal the key, and a clone of an index the index, as that of a number does.
    ///
    /// # Errors
    ///
    /// There is no memory for the leaves, or for the clone of a key.
    pub fn clone(&self) -> Result<Self, AllocError>
    where
        K: Clone + Drop,
        A: Copy,
        requires keys { (x y : K) → K.is_clone x y → y ≡ x }
        requires names { (i j : P.Inx) → P.Inx.is_clone i j → j ≡ i }
        ensures { IfOk result (λ list. list ≡ record self.now {
          room = 16 * greatest_number self.now.leaves;
        }) }
    {
        Ok(LeafList {
            store: self.store.clone()?,
        })
    }
}

// How many leaves have room for `n` entries.
fn leaves_for(n: usize) -> usize
    ensures { result ≡ (n + 15) / 16 }
{
    n / LEAST + if n % LEAST == 0 { 0 } else { 1 }
}
