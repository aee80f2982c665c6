//! Removals, and renewals of pointers.
ghost use Rattle.std.specs.Prelude.{◌≡◌, is_some};
ghost use Rattle.std.specs.Option.{option_map};
ghost use Rattle.arena_base.specs.Invalidation.{valid_value, allowed_value, IsRemoval, IsRenewal, IsSureRemoval};
ghost use Rattle.chain_base.specs.Chain.{IsOccupied, link_at, item_of, removed, renewed};

use super::ChainArena;
use super::links::relink;
use crate::link::LinkNoGen;
use arena_base::{BasePtr, InvalidationOption, InvalidationResult};
use std::alloc::Allocator;

impl<P: BasePtr, T, A: Allocator> ChainArena<P, T, A> {
    /// Removes the entry at index `i`, links its neighbours to each other, and raises the generation. Returns the entry's generation and
    /// the link that it had. The next insertion takes its slot. No memory.
    ///
    /// If the index has no entry, returns `InvalidPtr` and nothing changes.
    pub fn remove_inx_link_no_gen(
        &mut self,
        i: P::Inx,
    ) -> InvalidationResult<(P::Gen, LinkNoGen<P, T>)>
        ensures { IsRemoval P.Gen.greatest self.old.generation result
            (option_map (λ e. (P.Gen.number e.0, e.1)) (valid_value result))
            (link_at self.old.entries (P.Inx.number i))
            (self.new ≡ removed P.Gen.greatest self.old (P.Inx.number i)) (self.new ≡ self.old) }
    {
        if !self.contains_inx(i) {
            return InvalidationResult::InvalidPtr;
        }
        self.remove_entry(i).valid()
    }

    /// Removes the entry at index `i`, which must have one, links its neighbours to each other, and raises the generation. Returns the
    /// entry's generation and the link that it had. The next insertion takes its slot. No memory.
    pub fn remove_entry(&mut self, i: P::Inx) -> InvalidationOption<(P::Gen, LinkNoGen<P, T>)>
        requires { IsOccupied self.old (P.Inx.number i) }
        ensures { IsSureRemoval P.Gen.greatest self.old.generation result
            (P.Gen.number (allowed_value result).0, (allowed_value result).1)
            (link_at self.old.entries (P.Inx.number i))
            (self.new ≡ removed P.Gen.greatest self.old (P.Inx.number i)) }
    {
        let (prev, next) = self.arena.entry(i).1.prev_next();
        let taken = self.arena.remove_entry(i);
        relink(
            &mut self.arena,
            prev,
            next,
            prev,
            next,
            &mut self.first,
            &mut self.last,
        );
        taken
    }

    /// Gives the entry of `p` a new pointer, with the same index and the raised generation, and returns it. The entry keeps its place.
    ///
    /// If `p` is stale, returns `InvalidPtr` and nothing changes.
    pub fn invalidate(&mut self, p: P) -> InvalidationResult<P>
        ensures { IsRenewal P.numbers P.Gen.greatest self.old.generation result (P.numbers p).0
            (is_some (item_of self.old.entries (P.numbers p)))
            (self.new ≡ renewed P.Gen.greatest self.old (P.numbers p).0) (self.new ≡ self.old) }
    {
        self.arena.invalidate(p)
    }
}
