//! The search for the place of an insertion.
ghost use Rattle.std.specs.Prelude.{◌≡◌, ℕ, IfOk, IfErr};
ghost use Rattle.std.specs.Option.{option_map};
ghost use Rattle.ord_tree.specs.Chain.{IsDistinct};
ghost use Rattle.triple_ord.specs.Place.{alone, at_key, beside, nowhere, IsPlace, aim_of, kind_now};
ghost use Rattle.triple_ord.specs.Prepared.{IsFoundPlace, IsPlaceBeside, IsPlaceFor, kind_by, kind_near};
ghost use Rattle.triple_ord.specs.Search.{FindsSimilar};

use super::SimpleOrdArena;
use crate::error::OrdInsertionError;
use crate::insert_kind::OrdInsertKind;
use crate::item::SimpleOrdItem;
use crate::prepared::{InsertPlace, place_at};
use crate::ties::Ties;
use crate::visits::Visits;
use arena_base::BasePtr;
use std::alloc::Allocator;
use std::cmp::Ordering;

impl<P: BasePtr, T: SimpleOrdItem, A: Allocator> SimpleOrdArena<P, T, A> {
    // The place of an insertion, and the number of entries that its search visited, or an error if it has no place.
    #[inline(always)]
    pub(super) fn place_for(
        &self,
        kind: OrdInsertKind<P, &T::Key>,
    ) -> Result<(InsertPlace<P>, Visits), OrdInsertionError>
        ensures place { IfOk result (λ r. IsPlaceFor P.numbers T.key_of T.Key.cmp
            self.now P.Inx.number (kind_now kind.entry) r.0 r.1) }
        ensures none { IfErr result (λ e. (e ≡ OrdInsertionError.FailedOrdRequirement)
            × IsPlace T.key_of T.Key.cmp {entries = self.now.list.entries}
            (aim_of P.Inx.number (kind_now kind.entry)) nowhere) }
    {
        match kind {
            OrdInsertKind::Empty => {
                let place = self
                    .place_alone()
                    .ok_or(OrdInsertionError::FailedOrdRequirement)?;
                Ok((place, Visits::new(0)))
            }
            OrdInsertKind::Normal(k) => Ok(self.place_by_key(Ties::Sought, k)),
            OrdInsertKind::Nonhereditary(k) => Ok(self.place_by_key(Ties::Passed, k)),
            OrdInsertKind::Linear { p_init, num, k } => {
                Ok(self.place_near(Ties::Sought, p_init, num, k))
            }
            OrdInsertKind::NonhereditaryLinear { p_init, num, k } => {
                Ok(self.place_near(Ties::Passed, p_init, num, k))
            }
            OrdInsertKind::Manual {
                p_target,
                direction,
            } => {
                let place = self
                    .place_beside(p_target, direction)
                    .ok_or(OrdInsertionError::FailedOrdRequirement)?;
                Ok((place, Visits::new(0)))
            }
        }
    }

    // The place by a key, and the number of entries that its search visited.
    #[inline(always)]
    fn place_by_key(&self, ties: Ties, k: &T::Key) -> (InsertPlace<P>, Visits)
        ensures { IsPlaceFor P.numbers T.key_of T.Key.cmp self.now {G = P.Gen} P.Inx.number
            (kind_by ties k.now) result.0 result.1 }
    {
        let (found, visits) = self.search(ties, k);
        (self.place_found(found), visits)
    }

    // The place by a key, searched from a hint.
    #[inline(always)]
    fn place_near(
        &self,
        ties: Ties,
        p_init: P::Inx,
        num: usize,
        k: &T::Key,
    ) -> (InsertPlace<P>, Visits)
        ensures { IsPlaceFor P.numbers T.key_of T.Key.cmp self.now {G = P.Gen} P.Inx.number
            (kind_near ties p_init num k.now) result.0 result.1 }
    {
        let (found, visits) = self.search_from(ties, p_init, num, k);
        (self.place_found(found), visits)
    }

    // The place where a search by a key ended: an equal entry, whose item is replaced, or a gap.
    #[inline(always)]
    fn place_found(&self, found: Option<(P, Ordering)>) -> InsertPlace<P>
        ensures { IsDistinct self.now.list.entries
            → (cmp : T.Key → T.Key → Ordering) (k : T.Key) (c : ℕ)
            → FindsSimilar T.key_of cmp self.now.list.entries k
            (option_map (λ a. ((P.numbers a.0), a.1)) found) c
            → IsFoundPlace P.numbers T.key_of cmp self.now (at_key k) c result }
    {
        match found {
            None => InsertPlace::New(None),
            Some(at) => place_at(at),
        }
    }

    // The place of the only entry, if there are no entries.
    fn place_alone(&self) -> Option<InsertPlace<P>>
        ensures { IsPlaceBeside P.numbers T.key_of T.Key.cmp self.now alone result }
    {
        if self.is_empty() {
            Some(InsertPlace::New(None))
        } else {
            None
        }
    }

    // The place beside the entry at an index, or that of its item.
    fn place_beside(&self, i: P::Inx, direction: Ordering) -> Option<InsertPlace<P>>
        ensures { IsPlaceBeside P.numbers T.key_of T.Key.cmp self.now
            (beside (P.Inx.number i) direction) result }
    {
        let (generation, _item) = self.get_inx(i)?;
        let p = P::_from_raw(i, generation);
        Some(place_at((p, direction)))
    }
}
