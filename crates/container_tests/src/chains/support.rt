//! What several of these files use.
use arena_base::{Advancer, BasePtr, InsertionError, InvalidationOption, ItemsMut, P0};
use chain_base::{ChainArena, ChainPtrAdvancer, LinkInsertKind};
use std::alloc::{Allocator, Global};

pub(super) type Letters<A = Global> = ChainArena<P0, char, A>;

/// Where a letter goes: as the only one, or directly after or before the entry at an index.
#[derive(Clone, Copy)]
pub(super) enum Place {
    Alone,
    After(u32),
    Before(u32),
}

/// Inserts a letter at its place and returns the call's result; `None` if the chain has no such place.
pub(super) fn insert<A: Allocator>(
    chain: &mut Letters<A>,
    place: Place,
    letter: char,
) -> Option<Result<P0, InsertionError>> {
    let kind = match place {
        Place::Alone if chain.is_empty() => LinkInsertKind::Disconnected,
        Place::After(i) if chain.contains_inx(i) => LinkInsertKind::NextToInx(i),
        Place::Before(i) if chain.contains_inx(i) => LinkInsertKind::PrevToInx(i),
        _ => return None,
    };
    Some(chain.insert_reallocating(kind, letter))
}

/// Index, generation and letter of an entry.
pub(super) type Entry = (u32, u64, char);

/// Returns an entry at an index, and the indexes of its neighbours.
fn seen<A: Allocator>(chain: &Letters<A>, i: u32) -> Option<(Entry, Option<u32>, Option<u32>)> {
    let (generation, link) = chain.get_inx_link_no_gen(i)?;
    Some(((i, generation, *link.t), link.prev(), link.next()))
}

/// Returns whether an advancer gives exactly these entries. The links of each must name the ones before and after it.
fn gives<A: Allocator>(
    chain: &Letters<A>,
    advancer: &mut ChainPtrAdvancer<P0>,
    first: P0,
    wanted: &[Entry],
) -> bool {
    let (mut before, mut at, mut count) = (None, Some(first.inx()), 0usize);
    for entry in wanted {
        let Some(p) = advancer.advance(chain) else {
            return false;
        };
        let inx = Some(p.inx());
        let Some((found, prev, next)) = seen(chain, p.inx()) else {
            return false;
        };
        if found != *entry || (prev, inx) != (before, at) {
            return false;
        }
        (before, at, count) = (inx, next, count.wrapping_add(1));
    }
    advancer.advance(chain).is_none() && at.is_none() && count == chain.len()
}

/// Returns whether the chain has these entries in order, as an advancer gives them.
pub(super) fn is_listed<A: Allocator>(chain: &Letters<A>, wanted: &[Entry]) -> bool {
    let Some(first) = chain.first() else {
        return wanted.is_empty();
    };
    match chain.advancer_chain(first) {
        Some(mut advancer) => gives(chain, &mut advancer, first, wanted),
        None => false,
    }
}

/// Letters, each with its place.
const PLACED: [(Place, char); 4] = [
    (Place::Alone, 'a'),
    (Place::Before(1), 'c'),
    (Place::After(1), 'e'),
    (Place::After(2), 'd'),
];

/// Returns the list c, d, a with the indexes 2, 4, 1 and generation 3. Index 3 is vacant.
pub(super) fn scattered(alloc: Global) -> Letters {
    let mut chain = Letters::new(alloc);
    for (place, letter) in &PLACED {
        let _ = insert(&mut chain, *place, *letter);
    }
    let _ = chain.remove_inx_link_no_gen(3);
    chain
}

/// The entries of `scattered`.
pub(super) const SCATTERED: &[Entry] = &[(2, 2, 'c'), (4, 2, 'd'), (1, 2, 'a')];
