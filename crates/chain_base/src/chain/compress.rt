//! Compression: all entries move to the least indexes.
ghost use Rattle.std.specs.Prelude.{◌≡◌};
ghost use Rattle.std.specs.Option.{option_map, ForSome};
ghost use Rattle.arena_base.specs.Arena.{IsOccupied, IsSound};
ghost use Rattle.arena_base.specs.Pointer.{named_of};
ghost use Rattle.chain_base.specs.Compression.{relocated, CompressesChain, IsCompression};
ghost use Rattle.chain_base.specs.Naming.{neighbour_on, linked_facing, IsPaired, NamesCompressedIndexes};

use super::ChainArena;
use super::links::{set_next, set_prev};
use crate::link::LinkNoGen;
use arena_base::{Arena, BasePtr, BasePtrInx, Calls, InvalidationOption, MapEntry};
use std::alloc::Allocator;

impl<P: BasePtr, T, A: Allocator> ChainArena<P, T, A> {
    /// Moves all entries to the indexes from 1 on, in index order, and gives them one generation, which becomes the arena's: the first if
    /// `reset` is true, else the next. Reports an overflow if the next one comes after the greatest. The list keeps its order.
    ///
    /// `f` is called for each entry, in index order, with its old pointer, its item and its new pointer. It returns the entry's new item.
    /// The capacity stays, and the free list is ascending, as if no slot had been used. Three passes over the slots, and no memory.
    pub fn compress_with<F: FnMut(P, T, P) -> T + Drop>(
        &mut self,
        reset: bool,
        f: F,
    ) -> InvalidationOption<()>
        requires { F.IsAlwaysCallable f }
        ensures { CompressesChain P.Inx.most P.Gen.greatest reset self.old result
            (λ g. IsCompression P.numbers F.step g f self.old self.new) }
    {
        self.compress_by(reset, Calls { f })
    }

    /// Moves all entries to the indexes from 1 on, as `compress_with` does. Each keeps its item.
    pub fn compress(&mut self, reset: bool) -> InvalidationOption<()>
        ensures { CompressesChain P.Inx.most P.Gen.greatest reset self.old result
            (λ g. self.new ≡ relocated self.old g) }
    {
        self.compress_with(reset, |_old, item, _new| item)
    }

    /// Moves all entries to the indexes from 1 on, as `compress_with` does, with `map` in place of the closure.
    pub fn compress_by<M: MapEntry<P, T> + Drop>(
        &mut self,
        reset: bool,
        map: M,
    ) -> InvalidationOption<()>
        requires { M.callable map }
        ensures { CompressesChain P.Inx.most P.Gen.greatest reset self.old result
            (λ g. IsCompression P.numbers M.step g map self.old self.new) }
    {
        let first = name_compressed_indexes(&mut self.arena, Side::Before);
        let overflow = self.arena.compress_by(reset, MapItem { map });
        self.last = name_compressed_indexes(&mut self.arena, Side::After);
        self.first = first;
        overflow
    }
}

/// Makes a new item within a link, which keeps its neighbours.
#[doc(hidden)]
#[derive(Drop)]
pub struct MapItem<M> {
    map: M,
}

impl<P: BasePtr, T, M: MapEntry<P, T>> MapEntry<P, LinkNoGen<P, T>> for MapItem<M> {
    ghost use Rattle.chain_base.specs.Naming.{MapsItem};

    ghost callable = { λ m. M.callable m.map };

    ghost step = { λ m old link new answer n. MapsItem M.step m.map old link new answer n.map };

    fn map_entry(&mut self, old: P, link: LinkNoGen<P, T>, new: P) -> LinkNoGen<P, T> {
        let neighbours = link.prev_next();
        LinkNoGen::new(neighbours, self.map.map_entry(old, link.t, new))
    }
}

/// A side of an entry in the list.
#[doc(hidden)]
#[derive(Clone, Copy)]
pub enum Side {
    Before,
    After,
}

// For each entry, by rising index, links its neighbour on a side to the entry's compressed index: its place among all entries, counted
// from 1. Returns the compressed index of the entry without such a neighbour.
//
// Before a compression these are the indexes to come: an entry is found at its old index, and its link on this side is still unchanged.
// After it they are the indexes.
fn name_compressed_indexes<P: BasePtr, T, A: Allocator>(
    arena: &mut Arena<P, LinkNoGen<P, T>, A>,
    side: Side,
) -> Option<P::Inx>
    requires { IsPaired side arena.old }
    ensures names { NamesCompressedIndexes side arena.old arena.new
        (option_map P.Inx.number result) }
    ensures sound { IsSound P.Inx.most P.Gen.greatest arena.old }
{
    let mut end = None;
    let mut count = 0;
    for position in 0..arena.capacity() {
        let index = P::Inx::try_from_usize(position + 1).unwrap();
        if let Some(entry) = arena.get_inx(index) {
            let neighbour = neighbour_on(entry.1, side);
            count += 1;
            let here = P::Inx::try_from_usize(count);
            if neighbour.is_none() {
                end = here;
            }
            link_facing(arena, side, neighbour, here);
        }
    }
    end
}

// The index of the neighbour on a side.
fn neighbour_on<P: BasePtr, T>(link: &LinkNoGen<P, T>, side: Side) -> Option<P::Inx>
    ensures { option_map P.Inx.number result ≡ neighbour_on side link.now }
{
    match side {
        Side::Before => link.prev(),
        Side::After => link.next(),
    }
}

// Links the entry at an index, if one is given, to another neighbour on the side that faces this one.
fn link_facing<P: BasePtr, T, A: Allocator>(
    arena: &mut Arena<P, LinkNoGen<P, T>, A>,
    side: Side,
    at: Option<P::Inx>,
    other: Option<P::Inx>,
)
    requires { ForSome at (λ i. IsOccupied arena.old (P.Inx.number i)) }
    ensures { arena.new ≡ linked_facing side arena.old (option_map P.Inx.number at)
        (named_of (option_map P.Inx.number other)) }
{
    match side {
        Side::Before => set_next(arena, at, other),
        Side::After => set_prev(arena, at, other),
    }
}
