//! `LinkNoGen`: an item with its neighbours in a chain.
ghost use Rattle.std.specs.Prelude.{◌≡◌, None};
ghost use Rattle.std.specs.Option.{option_map};
ghost use Rattle.arena_base.specs.Pointer.{named_of};
ghost use Rattle.chain_base.specs.Link.{ReadsNeighbour};

use arena_base::{BasePtr, OptInx};
use std::marker::Model;

/// An item of a chain, with the indexes of the entries before and after it. The indexes need no generations, since a neighbour is always
/// an entry.
#[derive(Drop)]
pub struct LinkNoGen<P: BasePtr, T> {
    pub t: T,
    prev: OptInx<P>,
    next: OptInx<P>,
}

impl<P: BasePtr, T> Model for LinkNoGen<P, T> {
    ghost use Rattle.chain_base.specs.Link.{Link};

    ghost Value = { Link T };

    ghost view = { λ l. record { item = l.t; prev = l.prev; next = l.next } };
}

impl<P: BasePtr, T> LinkNoGen<P, T> {
    /// Creates a link of the item `t` between two neighbours: the previous one, then the next. Index 0 names no neighbour.
    pub fn new(prev_next: (Option<P::Inx>, Option<P::Inx>), t: T) -> Self
        ensures item { result.item ≡ t }
        ensures prev { result.prev ≡ named_of (option_map P.Inx.number prev_next.0) }
        ensures next { result.next ≡ named_of (option_map P.Inx.number prev_next.1) }
    {
        LinkNoGen {
            t,
            prev: OptInx::new(prev_next.0),
            next: OptInx::new(prev_next.1),
        }
    }

    /// Returns the index of the entry before this one; `None` for the first.
    pub fn prev(&self) -> Option<P::Inx>
        ensures { ReadsNeighbour (option_map P.Inx.number result) self.now.prev }
    {
        self.prev.get()
    }

    /// Returns the index of the entry after this one; `None` for the last.
    pub fn next(&self) -> Option<P::Inx>
        ensures { ReadsNeighbour (option_map P.Inx.number result) self.now.next }
    {
        self.next.get()
    }

    /// Returns the indexes of the entries before and after this one.
    pub fn prev_next(&self) -> (Option<P::Inx>, Option<P::Inx>)
        ensures prev { option_map P.Inx.number result.0 ≡ self.now.prev }
        ensures next { option_map P.Inx.number result.1 ≡ self.now.next }
        ensures named_prev { named_of self.now.prev ≡ self.now.prev }
        ensures named_next { named_of self.now.next ≡ self.now.next }
    {
        (self.prev(), self.next())
    }

    // Links this entry to another previous one.
    pub(crate) fn set_prev(&mut self, prev: Option<P::Inx>)
        ensures { self.new
            ≡ record self.old { prev = named_of (option_map P.Inx.number prev) } }
    {
        self.prev = OptInx::new(prev);
    }

    // Links this entry to another next one.
    pub(crate) fn set_next(&mut self, next: Option<P::Inx>)
        ensures { self.new
            ≡ record self.old { next = named_of (option_map P.Inx.number next) } }
    {
        self.next = OptInx::new(next);
    }
}
