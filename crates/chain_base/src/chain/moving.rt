//! Moving an entry within the list.
ghost use Rattle.std.specs.Prelude.{◌≡◌};
ghost use Rattle.std.specs.Option.{option_map};
ghost use Rattle.chain_base.specs.Chain.{Chain, IsOccupied};
ghost use Rattle.chain_base.specs.Insert.{placed, CanPlace, PutsBetween};
ghost use Rattle.chain_base.specs.Move.{with_entry_moved, without_entry, HoldsLinks};

use super::ChainArena;
use super::insert::LinkInsertKind;
use super::links::{relink, set_next, set_prev};
use crate::link::LinkNoGen;
use arena_base::{Arena, BasePtr};
use std::alloc::Allocator;

impl<P: BasePtr, T, A: Allocator> ChainArena<P, T, A> {
    /// Moves the entry at `i` to the place that `kind` names in the list without it. It keeps its pointer and its item.
    ///
    /// The other entries keep their order. Next to its own neighbour, the entry stays where it is. O(1), and no memory.
    pub fn move_beside(&mut self, i: P::Inx, kind: LinkInsertKind<P>)
        requires entry { IsOccupied self.old (P.Inx.number i) }
        requires place { CanPlace P.Inx.number kind (without_entry self.old (P.Inx.number i)) }
        ensures { self.new ≡ with_entry_moved self.old (P.Inx.number i) (placed P.Inx.number kind) }
    {
        let (prev, next) = self.arena.entry(i).1.prev_next();
        relink(
            &mut self.arena,
            prev,
            next,
            prev,
            next,
            &mut self.first,
            &mut self.last,
        );
        let (left, right) = neighbours_in(&self.arena, kind);
        set_next(&mut self.arena, Some(i), right);
        set_prev(&mut self.arena, Some(i), left);
        relink(
            &mut self.arena,
            left,
            Some(i),
            Some(i),
            right,
            &mut self.first,
            &mut self.last,
        );
    }
}

// The neighbours that an entry gets at a place of a list, if the slots of the list's entries hold their links.
fn neighbours_in<P: BasePtr, T, A: Allocator>(
    arena: &Arena<P, LinkNoGen<P, T>, A>,
    kind: LinkInsertKind<P>,
) -> (Option<P::Inx>, Option<P::Inx>)
    requires { (c : Chain T) × HoldsLinks arena.now c.entries × CanPlace P.Inx.number kind c }
    ensures { (c : Chain T) → HoldsLinks arena.now c.entries → CanPlace P.Inx.number kind c
        → PutsBetween c.entries (placed P.Inx.number kind c.entries)
        (option_map P.Inx.number result.0) (option_map P.Inx.number result.1) }
{
    match kind {
        LinkInsertKind::Disconnected => (None, None),
        LinkInsertKind::NextToInx(i) => (Some(i), arena.entry(i).1.next()),
        LinkInsertKind::PrevToInx(i) => (arena.entry(i).1.prev(), Some(i)),
    }
}
