//! Walks by index.
ghost use Rattle.std.specs.Prelude.{◌≡◌, ◌+◌, ◌<◌, [], ◌∷◌, true, false, if◌then◌else◌, IfSome, MatchOption};
ghost use Rattle.arena_base.specs.Walk.{entries_rising, rising_from, falling_from, rising_walk, falling_walk, FindsNext, GoesFrom, GoesOverAll, HasEnded, WalkSteps};

use super::Arena;
use super::get::pointer;
use crate::advancer::Advancer;
use crate::ptr::{BasePtr, BasePtrInx};
use std::alloc::Allocator;
use std::marker::{Model, PhantomData};

/// Walks over the pointers of an arena by index, up or down.
///
/// It borrows nothing, so the arena may change between two steps. A step returns the pointer of the next entry that is there now, and
/// moves the walk to its index. If there is none, it returns `None` and the walk stays, so it can go on with entries that are inserted
/// ahead of it later. Only a walk down from index 0 has ended.
#[derive(Drop)]
pub struct PtrAdvancer<P: BasePtr> {
    // The position of the slot that the walk is before.
    at: usize,
    falling: bool,
    of: PhantomData<P>,
}

impl<P: BasePtr> Model for PtrAdvancer<P> {
    ghost use Rattle.arena_base.specs.Walk.{Walk};

    ghost Value = { Walk };

    ghost view = { λ s. record { at = s.at; falling = s.falling } };
}

impl<P: BasePtr, T, A: Allocator> Advancer<Arena<P, T, A>> for PtrAdvancer<P> {
    type Item = P;

    ghost advance_gives = { WalkSteps P.numbers };

    ghost has_ended = { HasEnded };

    fn advance(&mut self, arena: &Arena<P, T, A>) -> Option<P> {
        let (at, p) = if self.falling {
            arena.last_before(self.at)?
        } else {
            arena.first_from(self.at)?
        };
        self.at = at;
        Some(p)
    }

    fn empty() -> PtrAdvancer<P> {
        PtrAdvancer {
            at: 0,
            falling: true,
            of: PhantomData,
        }
    }
}

impl<P: BasePtr> PtrAdvancer<P> {
    /// Creates a walk over all pointers of an arena by rising index.
    pub fn rising() -> Self
        ensures { result ≡ rising_walk 1 }
    {
        PtrAdvancer {
            at: 0,
            falling: false,
            of: PhantomData,
        }
    }

    /// Creates a walk that begins with index `i` and goes up, or down if `rev` is true.
    pub fn from_inx(i: P::Inx, rev: bool) -> Self
        ensures { result
            ≡ (if rev then falling_walk (P.Inx.number i) else rising_walk (P.Inx.number i)) }
    {
        let index = i.try_into_usize().unwrap_or(0);
        PtrAdvancer {
            at: if rev { index } else { index.saturating_sub(1) },
            falling: rev,
            of: PhantomData,
        }
    }
}

impl<P: BasePtr, T, A: Allocator> Arena<P, T, A> {
    /// Returns a walk over all pointers by rising index.
    pub fn advancer(&self) -> PtrAdvancer<P>
        ensures { GoesOverAll result self.now }
    {
        let _ = self.capacity();
        PtrAdvancer::rising()
    }

    /// Returns a walk that begins with index `i` and goes up, or down if `rev` is true.
    pub fn advancer_inx(&self, i: P::Inx, rev: bool) -> PtrAdvancer<P>
        ensures { GoesFrom result self.now (P.Inx.number i) rev }
    {
        let _ = self.capacity();
        PtrAdvancer::from_inx(i, rev)
    }

    // The first entry from a position on: the position after it, and its pointer.
    pub(super) fn first_from(&self, from: usize) -> Option<(usize, P)>
        ensures finds { FindsNext P.numbers self.now (rising_from self.now (from + 1))
            (λ n. rising_from self.now (n + 1)) (λ n. n) result }
        ensures entries { MatchOption result
            (entries_rising self.now (from + 1) ≡ [])
            (λ e. (item : T) × (entries_rising self.now (from + 1)
            ≡ ((P.numbers e.1).0, (P.numbers e.1).1, item) ∷ entries_rising self.now (e.0 + 1))) }
    {
        for position in from..self.capacity() {
            if let Some(generation) = self.generation_at(position) {
                return Some((position + 1, pointer(position, generation)));
            }
        }
        None
    }

    // The last entry before a position: its own position, and its pointer.
    pub(super) fn last_before(&self, end: usize) -> Option<(usize, P)>
        ensures finds { FindsNext P.numbers self.now (falling_from self.now end)
            (falling_from self.now) (λ n. n + 1) result }
        ensures before { IfSome result (λ e. e.0 < end) }
    {
        for position in (0..end.min(self.capacity())).rev() {
            if let Some(generation) = self.generation_at(position) {
                return Some((position, pointer(position, generation)));
            }
        }
        None
    }
}
