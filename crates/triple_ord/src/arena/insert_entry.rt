//! Insertions in two steps: first the place, then the item.
ghost use Rattle.triple_ord.specs.Prepared.{IsReady, IsReady-prop};

use super::SimpleOrdArena;
use crate::prepared::Prepared;
use arena_base::BasePtr;
use std::alloc::{Allocator, Global};

/// The place of an insertion in an arena, with a slot for the item. Its `insert` puts the item there.
///
/// Dropping it inserts nothing; the capacity of the arena may have grown for it.
#[derive(Drop)]
pub struct SimpleOrdArenaInsertEntry<'a, P: BasePtr, T, A: Allocator = Global> {
    pub(super) arena: &'a mut SimpleOrdArena<P, T, A>,
    pub(super) prepared: Prepared<P>,
    ghost ready: { IsReady P.numbers prepared.shown prepared.at arena.now } by { IsReady-prop P.numbers prepared.shown prepared.at arena.now },
}
