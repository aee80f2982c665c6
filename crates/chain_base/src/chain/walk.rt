//! Walks along the chain.
ghost use Rattle.std.specs.Prelude.{◌≡◌, [], Some, None, MatchOption, IfSome, is_some};
ghost use Rattle.std.specs.Option.{option_map};
ghost use Rattle.chain_base.specs.Chain.{item_of};
ghost use Rattle.chain_base.specs.Walk.{pointers_left, GivesEntry, WalkSteps};

use super::ChainArena;
use arena_base::{Advancer, BasePtr};
use std::alloc::Allocator;
use std::marker::Model;

/// Walks over the pointers of a chain arena, from an entry to the last.
///
/// It borrows nothing, and keeps the index of the next entry. A step returns the pointer of the entry that has this index then, and goes
/// on to the index that its link names at that moment. `None` is final: it is returned if no entry has the index, and after the entry
/// that was last when it was returned, even if others are inserted behind it later.
#[derive(Drop)]
pub struct ChainPtrAdvancer<P: BasePtr> {
    at: Option<P::Inx>,
}

impl<P: BasePtr> Model for ChainPtrAdvancer<P> {
    ghost use Rattle.std.specs.Prelude.{ℕ, Option};
    ghost use Rattle.std.specs.Option.{option_map};

    ghost Value = { Option ℕ };

    ghost view = { λ s. option_map P.Inx.number s.at };
}

impl<P: BasePtr, T, A: Allocator> Advancer<ChainArena<P, T, A>> for ChainPtrAdvancer<P> {
    type Item = P;

    ghost advance_gives = { WalkSteps P.numbers };

    ghost has_ended = { λ s. s ≡ None };

    fn advance(&mut self, chain: &ChainArena<P, T, A>) -> Option<P> {
        let at = self.at;
        self.at = None;
        let (p, next) = chain.step(at?)?;
        self.at = next;
        Some(p)
    }

    fn empty() -> ChainPtrAdvancer<P> {
        ChainPtrAdvancer { at: None }
    }
}

impl<P: BasePtr, T, A: Allocator> ChainArena<P, T, A> {
    /// Returns a walk that begins with the entry of `p`; `None` if `p` is stale.
    pub fn advancer_chain(&self, p: P) -> Option<ChainPtrAdvancer<P>>
        ensures valid { is_some result ≡ is_some (item_of self.now.entries (P.numbers p)) }
        ensures begins { IfSome result (λ s. s ≡ Some (P.numbers p).0) }
    {
        if self.contains(p) {
            Some(ChainPtrAdvancer { at: Some(p.inx()) })
        } else {
            None
        }
    }

    // The pointer of the entry at an index, and the index after it.
    fn step(&self, i: P::Inx) -> Option<(P, Option<P::Inx>)>
        ensures { MatchOption result
            (pointers_left (Some (P.Inx.number i)) self.now ≡ [])
            (λ e. GivesEntry (Some (P.Inx.number i)) (option_map P.Inx.number e.1) self.now
            (P.numbers e.0).0 (P.numbers e.0).1) }
    {
        let entry = self.arena.get_inx(i)?;
        Some((P::_from_raw(i, entry.0), entry.1.next()))
    }
}
