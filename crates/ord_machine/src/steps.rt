//! What each command does, and its reply.
ghost use Rattle.std.specs.Prelude.{◌≡◌, ◌<◌, IfOk, OnOk, OnErr, IfSome, is_some, length, map, take};
ghost use Rattle.triple_ord.specs.Chain.{link_at, first_pointer, last_pointer, cleared, raised};
ghost use Rattle.triple_ord.specs.ChainCompression.{canonical, relocated};
ghost use Rattle.triple_ord.specs.Shape.{missing};
ghost use Rattle.triple_ord.specs.ClosureSearch.{Asks};
ghost use Rattle.triple_ord.specs.Insertion.{with_kind};
ghost use Rattle.triple_ord.specs.declared.growth.Growth.TheVariants.{Within, Reallocating};
ghost use Rattle.triple_ord.specs.Place.{at_key, aim_of};
ghost use Rattle.triple_ord.specs.Ranks.{HasRank};
ghost use Rattle.ord_machine.specs.Machine.{calls_by, reading_by, Marks, AreTrue, CanRun, Does, MayCall, Inserts, insertion_reply, Sets, MovesToKey, Removes, RemovesAt, Renews, Changes, Rebuilds, Reserves, SetsMaximum, Finds, FindsFrom, FindsNear, FindsNearFrom, AnswersWith, AnswersSimilarWith, Visits, Gets, IsEnd, HasNeighbours, Lists, entry_of, Ranked, HaveRanks, Drains, removed_each, Checks, Counts};

use crate::command::Command;
use crate::reply::Reply;
use std::alloc::{AllocError, Allocator};
use std::cmp::Ordering;
use std::mem;
use triple_ord::{
    BasePtr, Growth, ItemsMut, OrdEntryKind, OrdInsertKind, OrdInsertionError, ReallocationError,
    SimpleOrdArena, SimpleOrdItem,
};

/// Runs a command, and returns its reply.
pub fn reply_to<
    P: BasePtr,
    T: SimpleOrdItem + Clone + Drop,
    F: FnMut(P, &T) -> Ordering,
    A: Allocator + Copy,
>(
    alloc: A,
    arena: &mut SimpleOrdArena<P, T, A>,
    command: Command<P, T>,
    closure: &mut F,
) -> Reply<P, T, A>
where
    T::Key: Drop,
    requires { CanRun T.is_clone F.IsAlwaysCallable closure.old }
    ensures { MayCall F.IsAlwaysCallable
        (λ s. Does (reading_by T.key_of T.Key.cmp P.Inx.most P.Gen.greatest
        P.numbers P.Inx.number P.Gen.number) (calls_by (Asks P.numbers F.step) T.is_infallible)
        s closure.old command result arena.new closure.new) arena.old closure.new }
{
    match command {
        Command::Insert(item) => insert(arena, item),
        Command::InsertWithin(item) => insert_within(arena, item),
        Command::Entry(kind, item) => entry(arena, Growth::Reallocating, &kind, item),
        Command::EntryWithin(kind, item) => entry(arena, Growth::Within, &kind, item),
        Command::Set(p, item) => set(arena, p, item),
        Command::Rekey(p, item) => rekey(arena, p, item),
        Command::Remove(p) => remove(arena, p),
        Command::RemoveInx(i) => remove_inx(arena, i),
        Command::Invalidate(p) => invalidate(arena, p),
        Command::Clear => clear(arena),
        Command::IncGeneration => inc_generation(arena),
        Command::Compress(reset) => compress(arena, reset),
        Command::Canonical(reset) => canonical(arena, reset),
        Command::Find(key) => find(arena, &key),
        Command::FindLinear(p, num, key) => find_linear(arena, p, num, &key),
        Command::Similar(key) => similar(arena, &key),
        Command::SimilarLinear(i, num, key) => similar_linear(arena, i, num, &key),
        Command::FindWith => find_with(arena, closure),
        Command::SimilarWith => similar_with(arena, closure),
        Command::Visits(key) => visits(arena, &key),
        Command::Get(p) => get(arena, p),
        Command::First => first(arena),
        Command::Last => last(arena),
        Command::Neighbours(i) => neighbours(arena, i),
        Command::List => list(alloc, arena),
        Command::Ranks => ranks(alloc, arena),
        Command::Check => check(arena),
        Command::Reserve(n) => reserve(arena, n),
        Command::SetMax(n) => set_max(arena, n),
        Command::DrainOrdered(num) => drain_ordered(alloc, arena, num),
        Command::Stats => stats(arena),
    }
}

/// Runs `Command::Insert`.
fn insert<P: BasePtr, T: SimpleOrdItem + Drop, A: Allocator>(
    arena: &mut SimpleOrdArena<P, T, A>,
    item: T,
) -> Reply<P, T, A>
    ensures { Inserts T.key_of T.Key.cmp P.Inx.most Reallocating (at_key (T.key_of item)) P.numbers
        arena.old item result arena.new }
{
    reply_to_insertion(arena.insert(item))
}

/// Runs `Command::InsertWithin`.
fn insert_within<P: BasePtr, T: SimpleOrdItem + Drop, A: Allocator>(
    arena: &mut SimpleOrdArena<P, T, A>,
    item: T,
) -> Reply<P, T, A>
    ensures { Inserts T.key_of T.Key.cmp P.Inx.most Within (at_key (T.key_of item)) P.numbers
        arena.old item result arena.new }
{
    reply_to_insertion(arena.insert_within_capacity(item))
}

/// Returns the reply to an insertion by the item's key.
fn reply_to_insertion<P: BasePtr, T, A: Allocator>(
    inserted: Result<(P, Option<T>), OrdInsertionError>,
) -> Reply<P, T, A>
    ensures { result ≡ insertion_reply (with_kind inserted) }
{
    match inserted {
        Ok((p, before)) => {
            let kind = match before {
                None => OrdEntryKind::New(p),
                Some(_) => OrdEntryKind::Replacing(p),
            };
            Reply::Inserted(kind, before)
        }
        Err(refusal) => Reply::Refused(refusal),
    }
}

/// Runs `Command::Entry` or `Command::EntryWithin`.
fn entry<P: BasePtr, T: SimpleOrdItem + Drop, A: Allocator>(
    arena: &mut SimpleOrdArena<P, T, A>,
    growth: Growth,
    kind: &OrdInsertKind<P, T::Key>,
    item: T,
) -> Reply<P, T, A>
    ensures { Inserts T.key_of T.Key.cmp P.Inx.most growth (aim_of P.Inx.number kind.now)
        P.numbers
        arena.old item result arena.new }
{
    match arena.entry_insert_by_growth(growth, kind.as_ref()) {
        Ok(entry) => {
            let shown = entry.ptr();
            let before = entry.insert(item);
            Reply::Inserted(shown, before)
        }
        Err(refusal) => Reply::Refused(refusal),
    }
}

/// Runs `Command::Set`.
fn set<P: BasePtr, T: Drop, A: Allocator>(
    arena: &mut SimpleOrdArena<P, T, A>,
    p: P,
    item: T,
) -> Reply<P, T, A>
    ensures { Sets P.numbers arena.old p item result arena.new }
{
    if !arena.contains(p) {
        return Reply::Item(None);
    }
    let pair = arena.pair_mut(p.inx());
    let held = pair.1;
    Reply::Item(Some(mem::replace(held, item)))
}

/// Runs `Command::Rekey`.
fn rekey<P: BasePtr, T: SimpleOrdItem + Drop, A: Allocator>(
    arena: &mut SimpleOrdArena<P, T, A>,
    p: P,
    item: T,
) -> Reply<P, T, A>
    ensures { MovesToKey T.key_of T.Key.cmp P.numbers arena.old p item result arena.new }
{
    Reply::Item(arena.rekey(p, item).ok())
}

/// Runs `Command::Remove`.
fn remove<P: BasePtr, T: Drop, A: Allocator>(
    arena: &mut SimpleOrdArena<P, T, A>,
    p: P,
) -> Reply<P, T, A>
    ensures { Removes P.Gen.greatest P.numbers arena.old p result arena.new }
{
    Reply::Removed(arena.remove(p).map(|item| (p, item)))
}

/// Runs `Command::RemoveInx`.
fn remove_inx<P: BasePtr, T: Drop, A: Allocator>(
    arena: &mut SimpleOrdArena<P, T, A>,
    i: P::Inx,
) -> Reply<P, T, A>
    ensures { RemovesAt P.Gen.greatest P.numbers
        arena.old (P.Inx.number i) result arena.new }
{
    Reply::Removed(
        arena
            .remove_inx(i)
            .map(|taken| (P::_from_raw(i, taken.0), taken.1)),
    )
}

/// Runs `Command::Invalidate`.
fn invalidate<P: BasePtr, T, A: Allocator>(
    arena: &mut SimpleOrdArena<P, T, A>,
    p: P,
) -> Reply<P, T, A>
    ensures { Renews P.Gen.greatest P.numbers arena.old p result arena.new }
{
    Reply::Renewed(arena.invalidate(p))
}

/// Runs `Command::Clear`.
fn clear<P: BasePtr, T: Drop, A: Allocator>(arena: &mut SimpleOrdArena<P, T, A>) -> Reply<P, T, A>
    ensures { Changes P.Gen.greatest arena.old
        (record { list = cleared P.Gen.greatest arena.old.list; shape = missing })
        result arena.new }
{
    Reply::Changed(arena.clear())
}

/// Runs `Command::IncGeneration`.
fn inc_generation<P: BasePtr, T, A: Allocator>(
    arena: &mut SimpleOrdArena<P, T, A>,
) -> Reply<P, T, A>
    ensures { Changes P.Gen.greatest arena.old
        (record arena.old { list = raised P.Gen.greatest arena.old.list }) result arena.new }
{
    Reply::Changed(arena.inc_generation())
}

/// Runs `Command::Compress`.
fn compress<P: BasePtr, T, A: Allocator>(
    arena: &mut SimpleOrdArena<P, T, A>,
    reset: bool,
) -> Reply<P, T, A>
    ensures { Rebuilds P.Gen.greatest reset arena.old (relocated arena.old.list) result arena.new }
{
    Reply::Changed(arena.compress(reset))
}

/// Runs `Command::Canonical`.
fn canonical<P: BasePtr, T, A: Allocator>(
    arena: &mut SimpleOrdArena<P, T, A>,
    reset: bool,
) -> Reply<P, T, A>
    ensures { Rebuilds P.Gen.greatest reset arena.old (canonical arena.old.list) result arena.new }
{
    Reply::Changed(arena.compress_canonical(reset))
}

/// Runs `Command::Find`.
fn find<P: BasePtr, T: SimpleOrdItem, A: Allocator>(
    arena: &SimpleOrdArena<P, T, A>,
    key: &T::Key,
) -> Reply<P, T, A>
    ensures { (marks : Marks) → AreTrue marks arena.now.shape
        → Finds T.key_of T.Key.cmp P.numbers
        (record { tree = arena.now; marks = marks }) key.now result }
{
    let (found, visits) = arena.find_key_counted(key);
    Reply::Found(found, visits.count())
}

/// Runs `Command::FindLinear`.
fn find_linear<P: BasePtr, T: SimpleOrdItem, A: Allocator>(
    arena: &SimpleOrdArena<P, T, A>,
    p: P,
    num: usize,
    key: &T::Key,
) -> Reply<P, T, A>
    ensures { (marks : Marks) → AreTrue marks arena.now.shape
        → FindsFrom T.key_of T.Key.cmp P.numbers
        (record { tree = arena.now; marks = marks }) p num key.now result }
{
    let (found, visits) = arena.find_key_linear_counted(p, num, key);
    Reply::Found(found, visits.count())
}

/// Runs `Command::Similar`.
fn similar<P: BasePtr, T: SimpleOrdItem, A: Allocator>(
    arena: &SimpleOrdArena<P, T, A>,
    key: &T::Key,
) -> Reply<P, T, A>
    ensures { (marks : Marks) → AreTrue marks arena.now.shape
        → FindsNear T.key_of T.Key.cmp P.numbers
        (record { tree = arena.now; marks = marks }) key.now result }
{
    let (found, visits) = arena.find_similar_key_counted(key);
    Reply::Similar(found, visits.count())
}

/// Runs `Command::SimilarLinear`.
fn similar_linear<P: BasePtr, T: SimpleOrdItem, A: Allocator>(
    arena: &SimpleOrdArena<P, T, A>,
    i: P::Inx,
    num: usize,
    key: &T::Key,
) -> Reply<P, T, A>
    ensures { (marks : Marks) → AreTrue marks arena.now.shape
        → FindsNearFrom T.key_of T.Key.cmp P.numbers
        (record { tree = arena.now; marks = marks }) (P.Inx.number i) num key.now result }
{
    let (found, visits) = arena.find_similar_key_linear_counted(i, num, key);
    Reply::Similar(found, visits.count())
}

/// Runs `Command::FindWith`.
fn find_with<P: BasePtr, T, F: FnMut(P, &T) -> Ordering, A: Allocator>(
    arena: &SimpleOrdArena<P, T, A>,
    closure: &mut F,
) -> Reply<P, T, A>
    requires { F.IsAlwaysCallable closure.old }
    ensures { MayCall F.IsAlwaysCallable
        (λ s. AnswersWith (Asks P.numbers F.step) P.numbers s closure.old result closure.new)
        arena.now closure.new }
{
    let (found, visits) = arena.find_with_counted(closure);
    Reply::Found(found, visits.count())
}

/// Runs `Command::SimilarWith`.
fn similar_with<P: BasePtr, T, F: FnMut(P, &T) -> Ordering, A: Allocator>(
    arena: &SimpleOrdArena<P, T, A>,
    closure: &mut F,
) -> Reply<P, T, A>
    requires { F.IsAlwaysCallable closure.old }
    ensures { MayCall F.IsAlwaysCallable
        (λ s. AnswersSimilarWith (Asks P.numbers F.step) P.numbers s closure.old result closure.new)
        arena.now closure.new }
{
    let (found, visits) = arena.find_similar_with_counted(closure);
    Reply::Similar(found, visits.count())
}

/// Runs `Command::Visits`.
fn visits<P: BasePtr, T: SimpleOrdItem, A: Allocator>(
    arena: &SimpleOrdArena<P, T, A>,
    key: &T::Key,
) -> Reply<P, T, A>
    ensures { (marks : Marks) → AreTrue marks arena.now.shape
        → Visits T.key_of T.Key.cmp (record { tree = arena.now; marks = marks }) key.now result }
{
    let (_, visits) = arena.find_key_counted(key);
    Reply::Count(visits.count())
}

/// Runs `Command::Get`.
fn get<P: BasePtr, T: Clone, A: Allocator>(arena: &SimpleOrdArena<P, T, A>, p: P) -> Reply<P, T, A>
    requires { (x y : T) → T.is_clone x y → y ≡ x }
    ensures { Gets T.is_infallible P.numbers arena.now p result }
{
    match arena.get(p) {
        None => Reply::Item(None),
        Some(item) => match item.clone() {
            Ok(item) => Reply::Item(Some(item)),
            Err(_) => Reply::Refused(OrdInsertionError::AllocError),
        },
    }
}

/// Runs `Command::First`.
fn first<P: BasePtr, T, A: Allocator>(arena: &SimpleOrdArena<P, T, A>) -> Reply<P, T, A>
    ensures { IsEnd P.numbers (first_pointer arena.now.list.entries) result }
{
    Reply::At(arena.first())
}

/// Runs `Command::Last`.
fn last<P: BasePtr, T, A: Allocator>(arena: &SimpleOrdArena<P, T, A>) -> Reply<P, T, A>
    ensures { IsEnd P.numbers (last_pointer arena.now.list.entries) result }
{
    Reply::At(arena.last())
}

/// Runs `Command::Neighbours`.
fn neighbours<P: BasePtr, T, A: Allocator>(
    arena: &SimpleOrdArena<P, T, A>,
    i: P::Inx,
) -> Reply<P, T, A>
    ensures { HasNeighbours P.Inx.number arena.now i result }
{
    match arena.get_inx_link_no_gen(i) {
        None => Reply::Links(None),
        Some(entry) => {
            let link = entry.1;
            Reply::Links(Some(link.prev_next()))
        }
    }
}

/// Runs `Command::List`.
fn list<P: BasePtr, T: Clone, A: Allocator>(
    alloc: A,
    arena: &SimpleOrdArena<P, T, A>,
) -> Reply<P, T, A>
    requires { (x y : T) → T.is_clone x y → y ≡ x }
    ensures { Lists P.numbers arena.now result }
{
    match entries(alloc, arena) {
        Ok(entries) => Reply::Entries(entries),
        Err(AllocError) => Reply::Refused(OrdInsertionError::AllocError),
    }
}

/// Runs `Command::Ranks`.
fn ranks<P: BasePtr, T, A: Allocator>(alloc: A, arena: &SimpleOrdArena<P, T, A>) -> Reply<P, T, A>
    ensures { Ranked arena.now result }
{
    match ranks_of(alloc, arena) {
        Ok(ranks) => Reply::Ranks(ranks),
        Err(AllocError) => Reply::Refused(OrdInsertionError::AllocError),
    }
}

/// Runs `Command::Check`.
fn check<P: BasePtr, T: SimpleOrdItem, A: Allocator>(
    arena: &SimpleOrdArena<P, T, A>,
) -> Reply<P, T, A>
    ensures { Checks T.key_of T.Key.cmp arena.now result }
{
    Reply::Sorted(SimpleOrdArena::_check_invariants(arena).is_ok())
}

/// Runs `Command::Reserve`.
fn reserve<P: BasePtr, T, A: Allocator>(
    arena: &mut SimpleOrdArena<P, T, A>,
    n: usize,
) -> Reply<P, T, A>
    ensures { Reserves P.Inx.most arena.old n result arena.new }
{
    match arena.reallocate_min_capacity(n) {
        Ok(()) => Reply::Done,
        Err(ReallocationError::BeyondMaxCapacity) => {
            Reply::Refused(OrdInsertionError::BeyondMaxCapacity)
        }
        Err(ReallocationError::AllocError) => Reply::Refused(OrdInsertionError::AllocError),
    }
}

/// Runs `Command::SetMax`.
fn set_max<P: BasePtr, T, A: Allocator>(
    arena: &mut SimpleOrdArena<P, T, A>,
    n: usize,
) -> Reply<P, T, A>
    ensures { SetsMaximum arena.old n result arena.new }
{
    match arena.set_max_capacity(n) {
        Ok(()) => Reply::Done,
        Err(_) => Reply::ReductionRefused,
    }
}

/// Runs `Command::DrainOrdered`.
fn drain_ordered<P: BasePtr, T: Drop, A: Allocator>(
    alloc: A,
    arena: &mut SimpleOrdArena<P, T, A>,
    num: usize,
) -> Reply<P, T, A>
    ensures { Drains P.Gen.greatest P.numbers arena.old num result arena.new }
{
    match drained(alloc, arena, num) {
        Ok(entries) => Reply::Entries(entries),
        Err(AllocError) => Reply::Refused(OrdInsertionError::AllocError),
    }
}

/// Runs `Command::Stats`.
fn stats<P: BasePtr, T, A: Allocator>(arena: &SimpleOrdArena<P, T, A>) -> Reply<P, T, A>
    ensures { Counts P.Gen.number arena.now result }
{
    Reply::Stats(
        arena.len(),
        arena.capacity(),
        arena.generation(),
        arena.max_capacity(),
    )
}

// The pointer of each entry and a clone of its item, in order.
fn entries<P: BasePtr, T: Clone, A: Allocator>(
    alloc: A,
    arena: &SimpleOrdArena<P, T, A>,
) -> Result<Vec<(P, T), A>, AllocError>
    requires { (x y : T) → T.is_clone x y → y ≡ x }
    ensures pairs { IfOk result (λ pairs. map (entry_of P.numbers)
        pairs.items ≡ arena.now.list.entries) }
    ensures refused { OnErr result (0 < length arena.now.list.entries) }
{
    let mut pairs = Vec::with_capacity(alloc, arena.len())?;
    for (p, item) in arena {
        pairs.push((p, item.clone()?))?;
    }
    Ok(pairs)
}

// Removes the first entries, in order, and then drops the others. Their memory is requested first.
fn drained<P: BasePtr, T: Drop, A: Allocator>(
    alloc: A,
    arena: &mut SimpleOrdArena<P, T, A>,
    num: usize,
) -> Result<Vec<(P, T), A>, AllocError>
    ensures pairs { IfOk result (λ pairs. map (entry_of P.numbers)
        pairs.items ≡ take num arena.old.list.entries) }
    ensures drained { OnOk result (arena.new ≡ record {
      list = cleared P.Gen.greatest
          (removed_each P.Gen.greatest arena.old.list (take num arena.old.list.entries));
      shape = missing;
    }) }
    ensures refused { OnErr result (0 < length (take num arena.old.list.entries)) }
    ensures err { OnErr result (arena.new ≡ arena.old) }
{
    let count = num.min(arena.len());
    let mut pairs = Vec::with_capacity(alloc, count)?;
    let mut drain = arena.drain_ordered();
    for _ in 0..count {
        let taken = drain.next().unwrap();
        pairs.push(taken.allow()).unwrap();
    }
    drop(drain);
    Ok(pairs)
}

// The rank of each entry's node, in order.
fn ranks_of<P: BasePtr, T, A: Allocator>(
    alloc: A,
    arena: &SimpleOrdArena<P, T, A>,
) -> Result<Vec<u8, A>, AllocError>
    ensures ranks { IfOk result
        (λ ranks. HaveRanks arena.now.shape arena.now.list.entries ranks.items) }
    ensures refused { OnErr result (0 < length arena.now.list.entries) }
{
    let mut ranks = Vec::with_capacity(alloc, arena.len())?;
    for (p, _) in arena {
        let rank = rank_at(arena, p.inx()).unwrap();
        ranks.push(rank)?;
    }
    Ok(ranks)
}

// The rank of the node at an index.
fn rank_at<P: BasePtr, T, A: Allocator>(arena: &SimpleOrdArena<P, T, A>, i: P::Inx) -> Option<u8>
    ensures there { is_some result ≡ is_some (link_at arena.now.list.entries (P.Inx.number i)) }
    ensures rank { IfSome result (λ rank. HasRank arena.now.shape (P.Inx.number i) rank) }
{
    let entry = arena.get_inx_node(i)?;
    let node = entry.1;
    Some(node.t.rank)
}
