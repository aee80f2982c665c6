//! What an entry of an insertion needs: the place with its pointer and its slot, and the insertion there.
ghost use Rattle.std.specs.Prelude.{◌≡◌, ◌+◌, ◌<◌, Some, IsSome, IfOk, OnOk, IfErr, IfSome, OnErr, is_some, length, if◌then◌else◌};
ghost use Rattle.std.specs.Option.{option_map};
ghost use Rattle.ord_tree.specs.Chain.{next_index, IsDistinct, IsOccupied, IsSound};
ghost use Rattle.ord_tree.specs.Insert.{IsInsertion};
ghost use Rattle.ord_tree.specs.Tree.{IsGrown, put_at, with_item};
ghost use Rattle.triple_ord.specs.Arena.{item_of, entry_at, count, Updates, FindSame};
ghost use Rattle.triple_ord.specs.Entry.{InsertsThere, IsEntryFor};
ghost use Rattle.triple_ord.specs.EntryKind.{pointer_of_kind};
ghost use Rattle.triple_ord.specs.Insertion.{IsRefused, MakesRoom};
ghost use Rattle.triple_ord.specs.declared.growth.Growth.TheVariants.{Reallocating};
ghost use Rattle.triple_ord.specs.Place.{aim_of, kind_now};
ghost use Rattle.triple_ord.specs.Prepared.{HasRoomAt, IsReady, by_order, by_number};

use super::SimpleOrdArena;
use crate::entry_kind::OrdEntryKind;
use crate::error::OrdInsertionError;
use crate::growth::Growth;
use crate::insert_kind::OrdInsertKind;
use crate::item::SimpleOrdItem;
use crate::prepared::{InsertPlace, Prepared, order_on};
use arena_base::{BasePtr, ItemsMut};
use ord_tree::Side;
use std::alloc::Allocator;
use std::cmp::Ordering;
use std::mem;

// Inlined into `insert` and `entry_insert`, so that growth and kind are known, only one search remains, and the prepared place stays in
// registers.
impl<P: BasePtr, T: SimpleOrdItem + Drop, A: Allocator> SimpleOrdArena<P, T, A> {
    // The place of an insertion, with a slot if it needs one.
    #[inline(always)]
    pub(super) fn prepare(
        &mut self,
        growth: Growth,
        kind: OrdInsertKind<P, &T::Key>,
    ) -> Result<Prepared<P>, OrdInsertionError>
        ensures place { IfOk result (λ e. IsEntryFor P.numbers T.key_of T.Key.cmp P.Inx.number
            growth P.Inx.most (kind_now kind.entry) self.old e.shown
            (put_at (λ p. (P.numbers p).0) e.at self.new.list.entries) e.visits self.new) }
        ensures ready { IfOk result (λ e. IsReady P.numbers e.shown e.at self.new) }
        ensures entries { self.new.list.entries ≡ self.old.list.entries }
        ensures refused { IfErr result (IsRefused T.key_of T.Key.cmp P.Inx.most growth
            (aim_of P.Inx.number (kind_now kind.entry)) self.old) }
        ensures err { OnErr result (self.new ≡ self.old) }
        ensures distinct { IsDistinct self.old.list.entries }
    {
        // For the prover: the list is sound.
        let _ = self.len();
        let (place, visits) = self.place_for(kind)?;
        match place {
            InsertPlace::Replacing(p) => Ok(Prepared {
                shown: OrdEntryKind::Replacing(p),
                at: None,
                visits,
            }),
            InsertPlace::New(at) => {
                let p = self.next_slot(growth)?;
                Ok(Prepared {
                    shown: OrdEntryKind::New(p),
                    at,
                    visits,
                })
            }
        }
    }
}

impl<P: BasePtr, T: Drop, A: Allocator> SimpleOrdArena<P, T, A> {
    // Inserts an item at a place that is ready for it.
    #[inline(always)]
    pub(super) fn insert_prepared(&mut self, prepared: Prepared<P>, t: T) -> Option<T>
        requires { IsReady P.numbers prepared.shown prepared.at self.old }
        ensures inserts { InsertsThere P.numbers prepared.shown
            (put_at (λ p. (P.numbers p).0) prepared.at self.old.list.entries)
            self.old t result self.new }
        ensures updates { Updates self.old self.new
            (P.numbers (pointer_of_kind prepared.shown)) (Some t) }
        ensures before { result
            ≡ item_of self.old (P.numbers (pointer_of_kind prepared.shown)) }
        ensures count { count self.new
            ≡ (if is_some result then count self.old else count self.old + 1) }
    {
        match prepared.shown {
            OrdEntryKind::Replacing(p) => Some(self.replace(p.inx(), t)),
            OrdEntryKind::New(_shown) => {
                let _inserted = self.put(prepared.at, t);
                None
            }
        }
    }

    // Inserts a new entry at a place; a slot is vacant.
    #[inline(always)]
    fn put(&mut self, at: Option<(P, Side)>, t: T) -> P
        requires can { HasRoomAt P.numbers at self.old.list }
        requires vacant { length self.old.list.entries < self.old.list.capacity }
        ensures inserted { IsInsertion self.old.list self.new.list
            (put_at (λ p. (P.numbers p).0) at self.old.list.entries)
            t (P.numbers result).0 (P.numbers result).1 }
        ensures grown { IsGrown self.old.shape self.new.shape }
    {
        let at = place_beside(at);
        self.tree.insert_reserved(at, t)
    }

    // The pointer of the next new entry, which has a vacant slot.
    #[inline(always)]
    fn next_slot(&mut self, growth: Growth) -> Result<P, OrdInsertionError>
        requires { IsSound P.Inx.most P.Gen.greatest self.old.list }
        ensures makes { MakesRoom growth P.Inx.most self.old result self.new }
        ensures index { IfOk result (λ p. next_index self.new.list ≡ Some (P.numbers p).0) }
        ensures generation { IfOk result (λ p. (P.numbers p).1 ≡ self.new.list.generation) }
    {
        match growth {
            Growth::Within => self
                .tree
                .next_insertion_ptr()
                .ok_or(OrdInsertionError::NotWithinCapacity),
            Growth::Reallocating => {
                self.make_room()?;
                Ok(self.tree.next_insertion_ptr().unwrap())
            }
        }
    }

    // Makes sure that a slot is vacant.
    #[inline(always)]
    fn make_room(&mut self) -> Result<(), OrdInsertionError>
        ensures makes { MakesRoom Reallocating P.Inx.most self.old result self.new }
        ensures next { OnOk result (IsSome (next_index self.new.list)) }
    {
        self.tree.make_room()?;
        Ok(())
    }
}

// The index of the entry beside which a new one goes, and the order of the new one to it.
fn place_beside<P: BasePtr>(at: Option<(P, Side)>) -> Option<(P::Inx, Ordering)>
    ensures { by_number P.Inx.number result ≡ by_number (λ p. (P.numbers p).0) (by_order at) }
{
    let (p, side) = at?;
    Some((p.inx(), order_on(side)))
}

impl<P: BasePtr, T, A: Allocator> SimpleOrdArena<P, T, A> {
    // Replaces the item of the entry at an occupied index, and returns the old one.
    pub(super) fn replace(&mut self, i: P::Inx, t: T) -> T
        requires { IsOccupied self.old.list (P.Inx.number i) }
        ensures before { option_map (λ e. e.1) (entry_at self.old (P.Inx.number i))
            ≡ Some result }
        ensures after { self.new ≡ with_item self.old (P.Inx.number i) t }
    {
        let pair = self.tree.pair_mut(i);
        let place = pair.1;
        mem::replace(place, t)
    }
}
