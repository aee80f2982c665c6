//! Lookup of entries and their neighbours.
ghost use Rattle.std.specs.Prelude.{◌≡◌, ◌↔◌, [], Some, IsNone, is_some};
ghost use Rattle.std.specs.Option.{option_copied, option_map};
ghost use Rattle.chain_base.specs.Chain.{entry_at, item_of, link_at, pointed, first_pointer, last_pointer, IsOccupied, FindsFirstEntry, FindsLastEntry};

use super::ChainArena;
use crate::link::LinkNoGen;
use arena_base::BasePtr;
use std::alloc::Allocator;

impl<P: BasePtr, T, A: Allocator> ChainArena<P, T, A> {
    /// Returns whether `p` names an entry.
    pub fn contains(&self, p: P) -> bool
        ensures { result ≡ is_some (item_of self.now.entries (P.numbers p)) }
    {
        self.arena.contains(p)
    }

    /// Returns whether index `i` has an entry.
    pub fn contains_inx(&self, i: P::Inx) -> bool
        ensures { result ≡ is_some (entry_at self.now.entries (P.Inx.number i)) }
    {
        self.get_inx(i).is_some()
    }

    /// Returns the item of `p`; `None` if `p` is stale.
    pub fn get(&self, p: P) -> Option<&T>
        ensures { option_copied result ≡ item_of self.now.entries (P.numbers p) }
    {
        let link = self.arena.get(p)?;
        Some(&link.t)
    }

    /// Returns the generation and the item of the entry at index `i`; `None` if there is none.
    pub fn get_inx(&self, i: P::Inx) -> Option<(P::Gen, &T)>
        ensures { option_map (λ e. (P.Gen.number e.0, e.1.now)) result
            ≡ entry_at self.now.entries (P.Inx.number i) }
    {
        let entry = self.arena.get_inx(i)?;
        let link = entry.1;
        Some((entry.0, &link.t))
    }

    /// Returns the generation and the item of the entry at index `i`, which must have one.
    pub fn entry(&self, i: P::Inx) -> (P::Gen, &T)
        requires { IsOccupied self.now (P.Inx.number i) }
        ensures { entry_at self.now.entries (P.Inx.number i)
            ≡ Some (P.Gen.number result.0, result.1.now) }
    {
        let pair = self.arena.entry(i);
        let link = pair.1;
        (pair.0, &link.t)
    }

    /// Returns the item and the neighbours of the entry at index `i`, which must have one.
    pub fn link(&self, i: P::Inx) -> &LinkNoGen<P, T>
        requires { IsOccupied self.now (P.Inx.number i) }
        ensures { option_map (λ e. e.1) (link_at self.now.entries (P.Inx.number i))
            ≡ Some result.now }
    {
        self.arena.entry(i).1
    }

    /// Returns the generation, the item and the neighbours of the entry at index `i`; `None` if there is none.
    pub fn get_inx_link_no_gen(&self, i: P::Inx) -> Option<(P::Gen, LinkNoGen<P, &T>)>
        ensures { option_map
            (λ e. (
              P.Gen.number e.0,
              record { item = e.1.item.now; prev = e.1.prev; next = e.1.next },
            )) result
            ≡ link_at self.now.entries (P.Inx.number i) }
    {
        let entry = self.arena.get_inx(i)?;
        let link = entry.1;
        Some((entry.0, LinkNoGen::new(link.prev_next(), &link.t)))
    }

    /// Returns the pointer of the first entry of the list; `None` if it is empty.
    pub fn first(&self) -> Option<P>
        ensures { option_map P.numbers result ≡ first_pointer self.now.entries }
    {
        self.ptr_at(self.first?)
    }

    /// Returns the pointer of the last entry of the list; `None` if it is empty.
    pub fn last(&self) -> Option<P>
        ensures pointer { option_map P.numbers result ≡ last_pointer self.now.entries }
        ensures empty { IsNone result ↔ (self.now.entries ≡ []) }
    {
        self.ptr_at(self.last?)
    }

    /// Returns the pointer of the entry with the least index; `None` if there are no entries.
    pub fn find_first_inx_ptr(&self) -> Option<P>
        ensures { FindsFirstEntry P.numbers self.now.entries result }
    {
        self.arena.find_first_inx_ptr()
    }

    /// Returns the pointer of the entry with the greatest index; `None` if there are no entries.
    pub fn find_last_inx_ptr(&self) -> Option<P>
        ensures { FindsLastEntry P.numbers self.now.entries result }
    {
        self.arena.find_last_inx_ptr()
    }

    // The pointer of the entry at an index.
    pub(super) fn ptr_at(&self, i: P::Inx) -> Option<P>
        ensures { option_map P.numbers result
            ≡ pointed (P.Inx.number i) (entry_at self.now.entries (P.Inx.number i)) }
    {
        let entry = self.arena.get_inx(i)?;
        Some(P::_from_raw(i, entry.0))
    }
}
