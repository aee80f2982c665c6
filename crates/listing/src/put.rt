//! Insertions into the ordered arena of a listing. A new entry goes after every entry with a key ≤ its own.

ghost use Rattle.std.specs.Prelude.{◌≡◌, ◌<◌, ◌↔◌, Err, IsOk, IfOk, IfErr, OnErr, length};
ghost use Rattle.triple_ord.specs.Chain.{chain_limit, IsSound};
ghost use Rattle.triple_ord.specs.Insertion.{InsertsNew};
ghost use Rattle.triple_ord.specs.declared.growth.Growth.TheVariants.{Within, Reallocating};
ghost use Rattle.triple_ord.specs.Place.{aim_of, behind_key, kind_now};
ghost use Rattle.listing.specs.Held.{item_key, HoldsListing, Puts};

use std::alloc::Allocator;
use triple_ord::{
    BasePtr, OrdInsertKind, OrdInsertionError, OrdPair, ReallocationError, SimpleOrdArena,
};

// Behind all keys that are at most this one. The search compares the last key first, and ends there if the new key is not smaller.
#[inline(always)]
fn kind_behind<'k, K: Ord, V, P: BasePtr, A: Allocator>(
    pairs: &SimpleOrdArena<P, OrdPair<K, V>, A>,
    k: &'k K,
) -> OrdInsertKind<P, &'k K>
    ensures aim { aim_of P.Inx.number (kind_now result) ≡ behind_key k.now }
    ensures sound { IsSound P.Inx.most P.Gen.greatest pairs.now.list }
{
    match pairs.last() {
        Some(last) => OrdInsertKind::NonhereditaryLinear {
            p_init: last.inx(),
            num: 1,
            k,
        },
        None => OrdInsertKind::Nonhereditary(k),
    }
}

/// Inserts a pair. The arena grows if it has no vacant slot. On `Err` the pair comes back.
pub fn insert_behind<K: Ord + Drop, V: Drop, P: BasePtr, A: Allocator>(
    pairs: &mut SimpleOrdArena<P, OrdPair<K, V>, A>,
    k: K,
    v: V,
) -> Result<P, ((K, V), ReallocationError)>
    ensures ok { IfOk result (λ p. InsertsNew item_key K.cmp P.Inx.most Reallocating
        (behind_key k) pairs.old (k, v) (P.numbers p) pairs.new) }
    ensures puts { IfOk result (λ p. HoldsListing K.cmp pairs.old
        → Puts K.cmp P.Inx.most pairs.old (P.numbers p) (k, v) pairs.new) }
    ensures back { IfErr result (λ e. e.0 ≡ (k, v)) }
    ensures full { (result ≡ Err ((k, v), ReallocationError.BeyondMaxCapacity))
        ↔ (length pairs.old.list.entries ≡ chain_limit P.Inx.most pairs.old.list) }
    ensures memory { result ≡ Err ((k, v), ReallocationError.AllocError)
        → length pairs.old.list.entries ≡ pairs.old.list.capacity }
    ensures fits { length pairs.old.list.entries < pairs.old.list.capacity → IsOk result }
    ensures err { OnErr result (pairs.new ≡ pairs.old) }
    ensures sound { IsSound P.Inx.most P.Gen.greatest pairs.old.list }
    ensures still_sound { IsSound P.Inx.most P.Gen.greatest pairs.new.list }
{
    let kind = kind_behind(pairs, &k);
    match pairs.entry_insert(kind) {
        Ok(entry) => {
            let p = entry.ptr().any();
            let _ = entry.insert(OrdPair::new(k, v));
            Ok(p)
        }
        Err(OrdInsertionError::BeyondMaxCapacity) => {
            Err(((k, v), ReallocationError::BeyondMaxCapacity))
        }
        Err(OrdInsertionError::AllocError) => Err(((k, v), ReallocationError::AllocError)),
        // a key has a place, and the arena may grow
        Err(_) => unreachable!(),
    }
}

/// Inserts a pair into an arena with a vacant slot.
pub fn insert_behind_within<K: Ord + Drop, V: Drop, P: BasePtr, A: Allocator>(
    pairs: &mut SimpleOrdArena<P, OrdPair<K, V>, A>,
    k: K,
    v: V,
) -> P
    requires { length pairs.old.list.entries < pairs.old.list.capacity }
    ensures ok { InsertsNew item_key K.cmp P.Inx.most Within (behind_key k) pairs.old (k, v)
        (P.numbers result) pairs.new }
    ensures puts { HoldsListing K.cmp pairs.old
        → Puts K.cmp P.Inx.most pairs.old (P.numbers result) (k, v) pairs.new }
    ensures sound { IsSound P.Inx.most P.Gen.greatest pairs.old.list }
    ensures still_sound { IsSound P.Inx.most P.Gen.greatest pairs.new.list }
{
    let kind = kind_behind(pairs, &k);
    match pairs.entry_insert_within_capacity(kind) {
        Ok(entry) => {
            let p = entry.ptr().any();
            let _ = entry.insert(OrdPair::new(k, v));
            p
        }
        // a key has a place, and a slot is vacant
        Err(_) => unreachable!(),
    }
}
