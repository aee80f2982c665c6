//! `Walk`: entries in order, from both ends.
ghost use Rattle.std.specs.Prelude.{◌≡◌, ◌+◌, ◌≤◌, ℕ, true, false, Some, IfSome, IfNone};
ghost use Rattle.std.specs.Iterator.{YieldsFirstBy, YieldsLastBy, item_count};
ghost use Rattle.std.specs.Option.{option_map};
ghost use Rattle.leaf_list.specs.Leaves.{entries_of};
ghost use Rattle.leaf_list.specs.Place.{entries_between, position, IsPlace};
ghost use Rattle.leaf_list.specs.Walk.{shown_entry};

use crate::list::LeafList;
use crate::place::Place;
use std::alloc::{Allocator, Global};
use std::marker::Model;
use triple_ord::{BasePtr, P0};

/// A double-ended iterator over the keys and names of the entries between two places, in order. Each step is O(1).
#[derive(Drop)]
pub struct Walk<'a, K: Ord, P: BasePtr = P0, A: Allocator = Global> {
    list: &'a LeafList<K, P, A>,
    // The place of the next entry from the front, and of the entry behind the next one from the back.
    first: Option<Place<P::Inx>>,
    end: Option<Place<P::Inx>>,
}

impl<'a, K: Ord, P: BasePtr, A: Allocator> Model for Walk<'a, K, P, A> {
    ghost use Rattle.std.specs.Prelude.{List, ℕ};
    ghost use Rattle.std.specs.Option.{option_map};

    ghost Value = { List (K × ℕ) };

    ghost use Rattle.leaf_list.specs.Place.{entries_between};
    ghost use Rattle.leaf_list.specs.Walk.{IsStretch};

    ghost view = { λ w. entries_between w.list.now.leaves
        (option_map (λ p. (P.Inx.number p.leaf, p.at)) w.first)
        (option_map (λ p. (P.Inx.number p.leaf, p.at)) w.end) };

    ghost invariant = { λ w. IsStretch w.list.now.leaves
        (option_map (λ p. (P.Inx.number p.leaf, p.at)) w.first)
        (option_map (λ p. (P.Inx.number p.leaf, p.at)) w.end) };
}

impl<'a, K: Ord, P: BasePtr, A: Allocator> Iterator for Walk<'a, K, P, A> {
    type Item = (&'a K, P::Inx);

    ghost next_gives = { YieldsFirstBy (shown_entry P.Inx.number) (λ left. left) };

    ghost remaining = { item_count (λ left. left) };

    #[inline(always)]
    fn next(&mut self) -> Option<(&'a K, P::Inx)> {
        if are_same::<P>(self.first, self.end) {
            return None;
        }
        let p = self.first?;
        let next = self.list.after(p);
        self.first = next;
        Some(self.list.entry(p))
    }
}

impl<'a, K: Ord, P: BasePtr, A: Allocator> DoubleEndedIterator for Walk<'a, K, P, A> {
    ghost next_back_gives = { YieldsLastBy (shown_entry P.Inx.number) (λ left. left) };

    #[inline(always)]
    fn next_back(&mut self) -> Option<(&'a K, P::Inx)> {
        if are_same::<P>(self.first, self.end) {
            return None;
        }
        let p = last_before(self.list, self.end)?;
        self.end = Some(p);
        Some(self.list.entry(p))
    }
}

impl<K: Ord, P: BasePtr, A: Allocator> LeafList<K, P, A> {
    /// Returns a double-ended iterator over the entries from one place up to, and without, another. `None` is the end.
    #[inline(always)]
    pub fn between(
        &self,
        first: Option<Place<P::Inx>>,
        end: Option<Place<P::Inx>>,
    ) -> Walk<'_, K, P, A>
        requires first { IsPlace self.now.leaves
            (option_map (λ p. (P.Inx.number p.leaf, p.at)) first) }
        requires end { IsPlace self.now.leaves (option_map (λ p. (P.Inx.number p.leaf, p.at)) end) }
        requires order { position self.now.leaves
            (option_map (λ p. (P.Inx.number p.leaf, p.at)) first)
            ≤ position self.now.leaves (option_map (λ p. (P.Inx.number p.leaf, p.at)) end) }
        ensures { result ≡ entries_between self.now.leaves
            (option_map (λ p. (P.Inx.number p.leaf, p.at)) first)
            (option_map (λ p. (P.Inx.number p.leaf, p.at)) end) }
    {
        Walk {
            list: self,
            first,
            end,
        }
    }

    /// Returns a double-ended iterator over all entries, in order.
    pub fn iter(&self) -> Walk<'_, K, P, A>
        ensures { result ≡ entries_of self.now.leaves }
    {
        self.between(self.first(), None)
    }
}

// Whether two places are one, or neither is there.
#[inline(always)]
fn are_same<P: BasePtr>(first: Option<Place<P::Inx>>, end: Option<Place<P::Inx>>) -> bool
    ensures same { result ≡ true → option_map {U = ℕ × ℕ} (λ p. (P.Inx.number p.leaf, p.at)) first
        ≡ option_map {U = ℕ × ℕ} (λ p. (P.Inx.number p.leaf, p.at)) end }
    ensures apart { result ≡ false → option_map {U = ℕ × ℕ} (λ p. (P.Inx.number p.leaf, p.at)) first
        ≡ option_map {U = ℕ × ℕ} (λ p. (P.Inx.number p.leaf, p.at)) end → ⊥ }
{
    match (first, end) {
        (Some(p), Some(q)) => p.at == q.at && p.leaf == q.leaf,
        (None, None) => true,
        _ => false,
    }
}

// The place of the entry before another place.
#[inline(always)]
fn last_before<K: Ord, P: BasePtr, A: Allocator>(
    list: &LeafList<K, P, A>,
    end: Option<Place<P::Inx>>,
) -> Option<Place<P::Inx>>
    requires { IsPlace list.now.leaves (option_map (λ p. (P.Inx.number p.leaf, p.at)) end) }
    ensures place { IsPlace list.now.leaves
        (option_map (λ p. (P.Inx.number p.leaf, p.at)) result) }
    ensures before { IfSome result
        (λ q. position list.now.leaves (Some (P.Inx.number q.leaf, q.at)) + 1
        ≡ position list.now.leaves (option_map (λ p. (P.Inx.number p.leaf, p.at)) end)) }
    ensures none { IfNone result
        (position list.now.leaves (option_map (λ p. (P.Inx.number p.leaf, p.at)) end) ≡ 0) }
{
    match end {
        Some(end) => list.before(end),
        None => list.last(),
    }
}
