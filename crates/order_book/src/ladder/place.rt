//! Places in a ladder: the level before a rank, and where a new order stands.

ghost use Rattle.std.specs.Prelude.{◌≡◌, ◌++◌, ◌∷◌, ℕ, List, filter, leb, nat_lt};
ghost use Rattle.sorted_arena.specs.Chain.{Entry, IsDistinct, first_pointer, last_pointer};
ghost use Rattle.chain_base.specs.Insert.{placed, CanPlace};
ghost use Rattle.order_book.specs.declared.ladder.{Resting.Resting, Totals.Totals};
ghost use Rattle.order_book.specs.Ladder.{rows_of, rows_left, IsCutBehind, IsLadder, Rise};

use super::{Ladder, Resting};
use chain_base::{ChainArena, LinkInsertKind};
use sorted_arena::{BasePtr, P0};
use std::alloc::Allocator;

impl<T: Copy, A: Allocator> Ladder<T, A> {
    // The pointer of the level before the one that the pointer names; of the last one, if there is no pointer.
    fn level_before(&self, level: Option<P0>) -> Option<P0>
        ensures { (low high : List (Entry (ℕ × Totals))) → self.now.levels.entries ≡ low ++ high
            → level ≡ first_pointer high → result ≡ last_pointer low }
    {
        match level {
            Some(level) => self.levels.prev(level),
            None => self.levels.last(),
        }
    }

    // The pointer of the last level whose rank is at most this one.
    pub(super) fn level_until(&self, rank: u64) -> Option<P0>
        requires { Rise self.now.levels.entries }
        ensures { result ≡ last_pointer (filter (λ l. leb l.item.0 rank) self.now.levels.entries) }
    {
        self.level_before(self.levels.upper_bound(&rank))
    }

    // The pointer of the last level whose rank is less than this one.
    fn level_below(&self, rank: u64) -> Option<P0>
        requires { Rise self.now.levels.entries }
        ensures { result
            ≡ last_pointer (filter (λ l. nat_lt l.item.0 rank) self.now.levels.entries) }
    {
        self.level_before(self.levels.lower_bound(&rank))
    }

    /// Returns the index of the first order whose rank is at least this one, if there is one.
    pub(crate) fn index_from(&self, rank: u64) -> Option<u32>
        requires { IsLadder self.now.orders self.now.levels }
        ensures { rows_left self.now.orders.entries result
            ≡ filter (λ e. leb rank e.item.0) (rows_of self.now.orders).entries }
    {
        // For the prover: what holds of the levels.
        let _ = self.levels.len();
        let Some(level) = self.level_below(rank) else {
            return Some(self.orders.first()?.inx());
        };
        let (_, totals) = self.levels.get(level).unwrap();
        self.orders.link(totals.last).next()
    }
}

// Where a new order goes that stands directly behind the one at this index; in front of all, if there is no index.
pub(super) fn place_behind<T: Copy, A: Allocator>(
    orders: &ChainArena<P0, Resting<T>, A>,
    index: Option<u32>,
) -> LinkInsertKind<P0>
    requires { IsCutBehind orders.now.entries index }
    ensures can { CanPlace (λ i. i) result orders.now }
    ensures placed { (at : IsCutBehind orders.now.entries index) → IsDistinct orders.now.entries
        → (e : Entry (Resting T)) → placed (λ i. i) result orders.now.entries e ≡ at.front ++ e ∷ at.back }
{
    if let Some(last) = index {
        return LinkInsertKind::NextToInx(last);
    }
    match orders.first() {
        Some(first) => LinkInsertKind::PrevToInx(first.inx()),
        None => LinkInsertKind::Disconnected,
    }
}
