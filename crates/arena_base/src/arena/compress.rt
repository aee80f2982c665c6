//! Compression: all entries move to the least indexes.
ghost use Rattle.std.specs.Prelude.{◌≡◌, ◌≤◌, vec_len};
ghost use Rattle.arena_base.specs.Arena.{HoldsSame};
ghost use Rattle.arena_base.specs.Compression.{compressed, items_rising, CompressesArena, IsCompression, Restarts};
ghost use Rattle.arena_base.specs.SlotMoves.{CompressesSlots};

use super::Arena;
use super::get::pointer;
use super::growth::list_vacant;
use crate::invalidation::InvalidationOption;
use crate::map_entry::{Calls, MapEntry};
use crate::ptr::{BasePtr, BasePtrGen, BasePtrInx};
use crate::slot::Slot;
use std::alloc::Allocator;

impl<P: BasePtr, T, A: Allocator> Arena<P, T, A> {
    /// Moves all entries to the indexes from 1 on, in index order, and gives them one generation, which becomes the arena's: the first if
    /// `reset` is true, else the next. Reports an overflow if the next one comes after the greatest.
    ///
    /// `f` is called for each entry, in index order, with its old pointer, its item and its new pointer. It returns the entry's new item.
    /// The capacity stays, and the free list is ascending, as if no slot had been used. One pass over the slots, and no memory.
    pub fn compress_with<F: FnMut(P, T, P) -> T + Drop>(
        &mut self,
        reset: bool,
        f: F,
    ) -> InvalidationOption<()>
        requires { F.IsAlwaysCallable f }
        ensures { CompressesArena P.Gen.greatest reset self.old self.new result
            (λ g. IsCompression P.numbers F.step g f self.old self.new) }
    {
        self.compress_by(reset, Calls { f })
    }

    /// Moves all entries to the indexes from 1 on, as `compress_with` does, with `map` in place of the closure.
    pub fn compress_by<M: MapEntry<P, T> + Drop>(
        &mut self,
        reset: bool,
        map: M,
    ) -> InvalidationOption<()>
        requires { M.callable map }
        ensures { CompressesArena P.Gen.greatest reset self.old self.new result
            (λ g. IsCompression P.numbers M.step g map self.old self.new) }
    {
        let overflow = self.restart(reset);
        move_down::<P, T, A, M>(&mut self.slots, self.generation, map);
        let fresh = self.slots.len();
        list_vacant(self.slots.as_slice(), 0, fresh, &mut self.vacant);
        overflow
    }

    /// Moves all entries to the indexes from 1 on, as `compress_with` does. Each keeps its item.
    pub fn compress(&mut self, reset: bool) -> InvalidationOption<()>
        ensures { CompressesArena P.Gen.greatest reset self.old self.new result
            (λ g. HoldsSame self.new (compressed self.old g (items_rising self.old))) }
    {
        self.compress_with(reset, |_old, item, _new| item)
    }

    // Resets the generation to the first, or raises it.
    fn restart(&mut self, reset: bool) -> InvalidationOption<()>
        ensures { Restarts P.Gen.greatest reset self.old.generation result
            (λ g. self.new ≡ record self.old { generation = g }) }
    {
        if reset {
            self.set_generation(P::Gen::two());
            InvalidationOption::Success(())
        } else {
            self.inc_generation()
        }
    }
}

// Moves the entries of all slots to the first ones, and gives them this generation.
fn move_down<P: BasePtr, T, A: Allocator, M: MapEntry<P, T> + Drop>(
    slots: &mut Vec<Slot<T, P::Gen>, A>,
    generation: P::Gen,
    mut map: M,
)
    requires callable { M.callable map }
    requires named { vec_len slots.old ≤ P.Inx.most }
    ensures items { CompressesSlots P.numbers P.Gen.number M.step generation map
        slots.old.items slots.new.items }
    ensures len { vec_len slots.new ≡ vec_len slots.old }
{
    let mut to = 0;
    for from in 0..slots.len() {
        let slot = &mut slots[from];
        if let Some(entry) = slot.vacate() {
            let answer = map.map_entry(pointer(from, entry.0), entry.1, pointer(to, generation));
            let slot = &mut slots[to];
            slot.fill(answer, generation);
            to += 1;
        }
    }
}
