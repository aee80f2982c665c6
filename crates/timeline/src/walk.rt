//! `Walk`: a time, piece by piece.

ghost use Rattle.std.specs.Prelude.{◌≡◌, ◌∷◌, [], IfSome, IfNone};
ghost use Rattle.timeline.specs.Timeline.{IsRising};
ghost use Rattle.timeline.specs.Layout.{changes_of, pieces_of, shown_piece};

use crate::changes::{Changes, around, value_of};
use sorted_arena::P0;
use std::alloc::Allocator;
use std::marker::Model;

/// A piece of time over which nothing changes, and the value that holds there, if any.
#[derive(Clone, Copy)]
pub(crate) struct Piece<V> {
    pub(crate) from: u64,
    pub(crate) until: u64,
    pub(crate) value: Option<V>,
}

/// Goes along the changes within a time. In contracts it is the list of the pieces that are left.
#[derive(Drop)]
pub(crate) struct Walk<'a, V, A: Allocator> {
    changes: &'a Changes<V, A>,
    // the first change after `from`
    next: Option<P0>,
    // the value that holds before it
    held: Option<&'a V>,
    from: u64,
    until: u64,
}

impl<'a, V, A: Allocator> Model for Walk<'a, V, A> {
    ghost use Rattle.std.specs.Prelude.{List, map};
    ghost use Rattle.timeline.specs.declared.walk.Piece.{Piece};

    ghost Value = { List (Piece V) };

    ghost use Rattle.std.specs.Option.{option_copied};
    ghost use Rattle.timeline.specs.Layout.{change, left_from, pieces_after, IsBehind};

    ghost view = { λ w. pieces_after (option_copied w.held)
        (map change (left_from w.changes.now.entries w.next)) w.from w.until };

    ghost invariant = { λ w. IsBehind w.changes.now.entries w.next };
}

impl<'a, V, A: Allocator> Walk<'a, V, A> {
    /// The pieces from one time until another.
    pub(crate) fn new(changes: &'a Changes<V, A>, from: u64, until: u64) -> Walk<'a, V, A>
        requires { IsRising (changes_of changes.now) }
        ensures { result ≡ pieces_of (changes_of changes.now) from until }
    {
        let (last, next) = around(changes, from);
        Walk {
            changes,
            next,
            held: value_of(changes, last),
            from,
            until,
        }
    }

    /// The next piece.
    pub(crate) fn piece(&mut self) -> Option<Piece<&'a V>>
        ensures some { IfSome result (λ p. self.old ≡ shown_piece p ∷ self.new) }
        ensures none { IfNone result ((self.old ≡ []) × (self.new ≡ [])) }
    {
        if self.from >= self.until {
            return None;
        }
        let (from, value) = (self.from, self.held);
        match self.next {
            Some(p) => match self.changes.get(p) {
                Some((time, next)) => {
                    if *time < self.until {
                        self.from = *time;
                        self.held = next.as_ref();
                        self.next = self.changes.next(p);
                    } else {
                        self.from = self.until;
                    }
                }
                None => unreachable!(),
            },
            None => self.from = self.until,
        }
        let until = self.from;
        Some(Piece { from, until, value })
    }
}
