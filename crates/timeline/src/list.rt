//! `ChangesByTime`: all changes of a timeline, in order.

ghost use Rattle.std.specs.Prelude.{◌≡◌};
ghost use Rattle.std.specs.Iterator.{YieldsFirstBy, item_count};
ghost use Rattle.timeline.specs.Timeline.{shown_change};

use crate::timeline::Timeline;
use sorted_arena::{Items, P0};
use std::alloc::{Allocator, Global};
use std::marker::Model;

/// An iterator over all changes. It takes no memory. In contracts it is the list of the changes that are left.
#[derive(Drop)]
pub struct ChangesByTime<'a, V, A: Allocator = Global> {
    pub(crate) items: Items<'a, u64, Option<V>, P0, A>,
}

impl<'a, V, A: Allocator> Model for ChangesByTime<'a, V, A> {
    ghost use Rattle.std.specs.Prelude.{List, map};
    ghost use Rattle.timeline.specs.Timeline.{Change};

    ghost Value = { List (Change V) };

    ghost use Rattle.timeline.specs.Layout.{change_of};

    ghost view = { λ c. map change_of c.items };
}

impl<'a, V, A: Allocator> Iterator for ChangesByTime<'a, V, A> {
    type Item = (u64, Option<&'a V>);

    ghost next_gives = { YieldsFirstBy shown_change (λ left. left) };

    ghost remaining = { item_count (λ left. left) };

    fn next(&mut self) -> Option<(u64, Option<&'a V>)> {
        match self.items.next() {
            Some((time, value)) => Some((*time, value.as_ref())),
            None => None,
        }
    }
}
