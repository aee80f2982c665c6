//! The writes that change links.
ghost use Rattle.std.specs.Prelude.{◌≡◌, is_some, if◌then◌else◌};
ghost use Rattle.std.specs.Option.{option_map, ForSome};
ghost use Rattle.arena_base.specs.Arena.{IsOccupied};
ghost use Rattle.arena_base.specs.Pointer.{named_of};
ghost use Rattle.chain_base.specs.Layout.{linked_next, linked_prev};

use crate::link::LinkNoGen;
use arena_base::{Arena, BasePtr, ItemsMut};
use std::alloc::Allocator;

// Links `left`, if any, on to `next`, and `right`, if any, back to `prev`. If one of them is missing, that end of the list changes.
pub(super) fn relink<P: BasePtr, T, A: Allocator>(
    arena: &mut Arena<P, LinkNoGen<P, T>, A>,
    left: Option<P::Inx>,
    next: Option<P::Inx>,
    prev: Option<P::Inx>,
    right: Option<P::Inx>,
    first: &mut Option<P::Inx>,
    last: &mut Option<P::Inx>,
)
    requires left { ForSome left (λ i. IsOccupied arena.old (P.Inx.number i)) }
    requires right { ForSome right (λ i. IsOccupied arena.old (P.Inx.number i)) }
    ensures arena { arena.new ≡ linked_prev
        (linked_next arena.old (option_map P.Inx.number left)
        (named_of (option_map P.Inx.number next)))
        (option_map P.Inx.number right) (named_of (option_map P.Inx.number prev)) }
    ensures first { option_map P.Inx.number first.new ≡
        (if is_some (option_map P.Inx.number left)
        then option_map P.Inx.number first.old else option_map P.Inx.number next) }
    ensures last { option_map P.Inx.number last.new ≡
        (if is_some (option_map P.Inx.number right)
        then option_map P.Inx.number last.old else option_map P.Inx.number prev) }
{
    set_next(arena, left, next);
    set_prev(arena, right, prev);
    if left.is_none() {
        *first = next;
    }
    if right.is_none() {
        *last = prev;
    }
}

// Links the entry at an index, if one is given, to another next one.
pub(super) fn set_next<P: BasePtr, T, A: Allocator>(
    arena: &mut Arena<P, LinkNoGen<P, T>, A>,
    at: Option<P::Inx>,
    next: Option<P::Inx>,
)
    requires { ForSome at (λ i. IsOccupied arena.old (P.Inx.number i)) }
    ensures { arena.new ≡ linked_next arena.old
        (option_map P.Inx.number at) (named_of (option_map P.Inx.number next)) }
{
    if let Some(i) = at {
        let pair = arena.pair_mut(i);
        let link = pair.1;
        link.set_next(next);
    }
}

// Links the entry at an index, if one is given, to another previous one.
pub(super) fn set_prev<P: BasePtr, T, A: Allocator>(
    arena: &mut Arena<P, LinkNoGen<P, T>, A>,
    at: Option<P::Inx>,
    prev: Option<P::Inx>,
)
    requires { ForSome at (λ i. IsOccupied arena.old (P.Inx.number i)) }
    ensures { arena.new ≡ linked_prev arena.old
        (option_map P.Inx.number at) (named_of (option_map P.Inx.number prev)) }
{
    if let Some(i) = at {
        let pair = arena.pair_mut(i);
        let link = pair.1;
        link.set_prev(prev);
    }
}
