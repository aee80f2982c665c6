//! Canonical order: each entry gets the index of its position in the list.
ghost use Rattle.std.specs.Prelude.{◌≡◌};
ghost use Rattle.std.specs.Option.{option_map};
ghost use Rattle.chain_base.specs.Chain.{IsOccupied};
ghost use Rattle.chain_base.specs.Compression.{canonical, CompressesChain};
ghost use Rattle.chain_base.specs.Exchange.{exchanged, exchanged_index, index_before, MayExchange};
ghost use Rattle.chain_base.specs.Walk.{index_after};

use super::ChainArena;
use super::links::{set_next, set_prev};
use arena_base::{BasePtr, BasePtrInx, InvalidationOption};
use std::alloc::Allocator;

impl<P: BasePtr, T, A: Allocator> ChainArena<P, T, A> {
    /// Moves all entries to the indexes from 1 on, in list order, and gives them one generation, which becomes the arena's: the first if
    /// `reset` is true, else the next. The entry at position i of the list, counted from 0, then has index i + 1.
    ///
    /// Reports an overflow if the next generation comes after the greatest. The capacity stays, and the free list is ascending, as if no
    /// slot had been used. No memory, and one more pass over the list than `compress`.
    pub fn compress_canonical(&mut self, reset: bool) -> InvalidationOption<()>
        ensures { CompressesChain P.Inx.most P.Gen.greatest reset self.old result
            (λ g. self.new ≡ canonical self.old g) }
    {
        let len = self.len();
        let overflow = self.compress(reset);
        let mut at = self.first;
        for position in 0..len {
            let index = P::Inx::try_from_usize(position + 1).unwrap();
            self.exchange(at.unwrap(), index);
            at = self.next_after(index);
        }
        overflow
    }

    // The index of the entry after the one at `i`.
    fn next_after(&self, i: P::Inx) -> Option<P::Inx>
        ensures { option_map P.Inx.number result ≡ index_after self.now.entries (P.Inx.number i) }
    {
        self.arena.get_inx(i)?.1.next()
    }

    // Swaps the indexes of two entries. All entries must have the arena's generation.
    fn exchange(&mut self, i: P::Inx, j: P::Inx)
        requires { MayExchange self.old (P.Inx.number i) (P.Inx.number j) }
        ensures { self.new ≡ exchanged self.old (P.Inx.number i) (P.Inx.number j) }
    {
        let of_i = self.neighbours_at(i);
        let of_j = self.neighbours_at(j);
        self.arena.swap_inx(i, j);
        set_next(&mut self.arena, exchanged_inx::<P>(of_i.0, i, j), Some(j));
        set_prev(&mut self.arena, exchanged_inx::<P>(of_i.1, i, j), Some(j));
        set_next(&mut self.arena, exchanged_inx::<P>(of_j.0, i, j), Some(i));
        set_prev(&mut self.arena, exchanged_inx::<P>(of_j.1, i, j), Some(i));
        self.first = exchanged_inx::<P>(self.first, i, j);
        self.last = exchanged_inx::<P>(self.last, i, j);
    }

    // The neighbours of an entry.
    fn neighbours_at(&self, i: P::Inx) -> (Option<P::Inx>, Option<P::Inx>)
        requires { IsOccupied self.now (P.Inx.number i) }
        ensures before { option_map P.Inx.number result.0
            ≡ index_before self.now.entries (P.Inx.number i) }
        ensures behind { option_map P.Inx.number result.1
            ≡ index_after self.now.entries (P.Inx.number i) }
    {
        self.arena.get_inx(i).unwrap().1.prev_next()
    }
}

// The index that an entry has after those at i and j swapped theirs.
fn exchanged_inx<P: BasePtr>(at: Option<P::Inx>, i: P::Inx, j: P::Inx) -> Option<P::Inx>
    ensures { option_map P.Inx.number result
        ≡ option_map (exchanged_index (P.Inx.number i) (P.Inx.number j))
        (option_map P.Inx.number at) }
{
    match at {
        Some(k) if k == i => Some(j),
        Some(k) if k == j => Some(i),
        other => other,
    }
}
