//! Room for leaves, and stores that are emptied and cloned.
ghost use Rattle.std.specs.Prelude.{◌≡◌, ◌*◌, ◌<◌, [], max, IfOk, IsErr, OnOk, OnErr};
ghost use Rattle.leaf_list.specs.Leaves.{greatest_number};

use super::{LEAST, LeafStore};
use crate::row_lists::{add_rows, clear_rows, clone_rows, drop_rows};
use std::alloc::{AllocError, Allocator};
use triple_ord::BasePtr;

impl<K, P: BasePtr, A: Allocator> LeafStore<K, P, A> {
    /// Makes the room that for so many leaves, or for the greatest number of a leaf, if that is greater. O(room).
    ///
    /// # Errors
    ///
    /// Growing failed, or no leaf can have such a number. The store is unchanged.
    pub(crate) fn reallocate(&mut self, leaves: usize) -> Result<(), AllocError>
    where
        A: Copy,
        ensures ok { OnOk result (self.new ≡ record self.old {
          room = 16 * max leaves (greatest_number self.old.leaves);
        }) }
        ensures err { OnErr result (self.new ≡ self.old) }
        ensures fails { IsErr result → self.old.room < 16 * leaves }
    {
        // For the prover: the index is sound.
        let _ = self.index.len();
        if leaves > usize::MAX / LEAST {
            return Err(AllocError);
        }
        add_rows(&mut self.rows, leaves)?;
        match self.index.reallocate_min_capacity(leaves) {
            Ok(()) => {
                let capacity = self.index.capacity();
                drop_rows(&mut self.rows, capacity);
                Ok(())
            }
            Err(_) => Err(AllocError),
        }
    }

    /// Drops all entries. The room stays. O(room).
    pub(crate) fn clear(&mut self)
    where
        K: Drop,
        ensures { self.new ≡ record self.old { leaves = [] } }
    {
        // For the prover: the index is sound.
        let _ = self.index.len();
        let _ = self.index.clear();
        clear_rows(self.rows.as_mut_slice());
    }

    /// Returns a clone, with the same numbers of the leaves and room for the greatest one. A clone of a key has to equal the key, and a
    /// clone of an index the index, as for every number. O(room).
    ///
    /// # Errors
    ///
    /// There is no memory for the leaves, or for the clone of a key.
    pub(crate) fn clone(&self) -> Result<Self, AllocError>
    where
        K: Clone + Drop,
        A: Copy,
        requires keys { (x y : K) → K.is_clone x y → y ≡ x }
        requires names { (i j : P.Inx) → P.Inx.is_clone i j → j ≡ i }
        ensures { IfOk result (λ store. store ≡ record self.now {
          room = 16 * greatest_number self.now.leaves;
        }) }
    {
        // For the prover: the index is sound.
        let _ = self.index.len();
        let index = self.index.clone()?;
        let rows = clone_rows(
            self.rows.as_slice(),
            index.capacity(),
            *self.rows.allocator(),
        )?;
        Ok(LeafStore { index, rows })
    }
}
