//! Walking along the list of an arena without borrowing it.
ghost use Rattle.std.specs.Prelude.{◌≡◌, [], Some, None, MatchOption, IfSome, is_some};
ghost use Rattle.std.specs.Option.{option_map};
ghost use Rattle.triple_ord.specs.Arena.{item_of};
ghost use Rattle.triple_ord.specs.OrderedWalk.{ordered_rest, GivesEntry, OrderedWalkSteps};

use super::SimpleOrdArena;
use arena_base::{Advancer, BasePtr};
use std::alloc::Allocator;
use std::marker::Model;

/// A walk along the list of an arena, from one entry to an end of the list.
///
/// It borrows nothing and keeps the index of the entry that it returns next. A step returns the entry that has this index then, and goes
/// on to the neighbour that this entry has at that moment. O(1) a step. `None` is final: it comes if no entry has the index, and after
/// the entry that was at the end when it was returned, even if others come behind it later.
#[derive(Drop)]
pub struct OrderedPtrAdvancer<P: BasePtr> {
    at: Option<P::Inx>,
    falling: bool,
}

impl<P: BasePtr> Model for OrderedPtrAdvancer<P> {
    ghost use Rattle.std.specs.Option.{option_map};
    ghost use Rattle.triple_ord.specs.OrderedWalk.{OrderedWalk};

    ghost Value = { OrderedWalk };

    ghost view = { λ s. record { at = option_map P.Inx.number s.at; falling = s.falling } };
}

impl<P: BasePtr, T, A: Allocator> Advancer<SimpleOrdArena<P, T, A>> for OrderedPtrAdvancer<P> {
    type Item = P;

    ghost advance_gives = { OrderedWalkSteps P.numbers };

    ghost has_ended = { λ s. s.at ≡ None };

    fn advance(&mut self, arena: &SimpleOrdArena<P, T, A>) -> Option<P> {
        let at = self.at;
        self.at = None;
        let (p, next) = arena.step(at?, self.falling)?;
        self.at = next;
        Some(p)
    }

    fn empty() -> OrderedPtrAdvancer<P> {
        OrderedPtrAdvancer {
            at: None,
            falling: false,
        }
    }
}

impl<P: BasePtr, T, A: Allocator> SimpleOrdArena<P, T, A> {
    /// Returns a walk from the entry that the pointer names, which comes first, to the end of the list, or back to its start if `rev` is
    /// true. `None` if the pointer names no entry. O(1), as each step is.
    ///
    /// ```
    /// let mut pairs: SimpleOrdArena<P0, OrdPair<u64, &str>> = SimpleOrdArena::new(rt.alloc());
    /// let (two, _) = pairs.insert(OrdPair::new(2, "two"))?;
    /// let (five, _) = pairs.insert(OrdPair::new(5, "five"))?;
    /// let mut walk = pairs.advancer_ordered(two, false).expect(&rt, "an entry");
    /// assert_eq!(rt; walk.advance(&pairs), Some(two));
    /// assert_eq!(rt; walk.advance(&pairs), Some(five));
    /// assert_eq!(rt; walk.advance(&pairs), None);
    /// ```
    pub fn advancer_ordered(&self, p: P, rev: bool) -> Option<OrderedPtrAdvancer<P>>
        ensures valid { is_some result ≡ is_some (item_of self.now (P.numbers p)) }
        ensures begins { IfSome result
            (λ s. s ≡ record { at = Some (P.numbers p).0; falling = rev }) }
    {
        if self.contains(p) {
            Some(OrderedPtrAdvancer {
                at: Some(p.inx()),
                falling: rev,
            })
        } else {
            None
        }
    }

    // The pointer of the entry at an index, and the index at which a walk goes on from there.
    fn step(&self, i: P::Inx, falling: bool) -> Option<(P, Option<P::Inx>)>
        ensures { MatchOption result
            (ordered_rest (record { at = Some (P.Inx.number i); falling = falling }) self.now ≡ [])
            (λ e. GivesEntry (record { at = Some (P.Inx.number i); falling = falling })
            (record { at = option_map P.Inx.number e.1; falling = falling })
            self.now (P.numbers e.0).0 (P.numbers e.0).1) }
    {
        let entry = self.get_inx_link_no_gen(i)?;
        let link = entry.1;
        let p = P::_from_raw(i, entry.0);
        if falling {
            Some((p, link.prev()))
        } else {
            Some((p, link.next()))
        }
    }
}
