//! Laws of runs. The functions here do nothing. The contract of each is the law: a fact about every run.

ghost use Rattle.triple_ord.specs.ClosureSearch.{Asks};
ghost use Rattle.ord_machine.specs.Ascending.{AscendingKeysLaw};
ghost use Rattle.ord_machine.specs.InOrder.{OrderedKeysLaw};
ghost use Rattle.ord_machine.specs.Laws.{FirstRankLaw};
ghost use Rattle.ord_machine.specs.Machine.{calls_by};
ghost use Rattle.ord_machine.specs.Pointers.{EndedPointerLaw, KeptPointerLaw, RekeyedPointerLaw};
ghost use Rattle.ord_machine.specs.RankChanges.{RankChangesLaw};

use std::alloc::Allocator;
use std::cmp::Ordering;
use triple_ord::{BasePtr, SimpleOrdItem};

/// An insertion into an empty arena, and then `ranks`: there is one rank, and it is 1, unless a command fails.
pub fn first_rank_law<
    P: BasePtr,
    T: SimpleOrdItem + Clone,
    F: FnMut(P, &T) -> Ordering,
    A: Allocator,
>()
    ensures { FirstRankLaw P T P.Inx P.Gen A T.Key (calls_by (Asks P.numbers F.step) T.is_infallible) }
{}

/// A pointer names the same item through any commands to other entries: insertions, replacements, moves, removals and renewals of others,
/// and all commands that only read or change the capacity or the generation.
pub fn kept_pointer_law<
    P: BasePtr,
    T: SimpleOrdItem + Clone,
    F: FnMut(P, &T) -> Ordering,
    A: Allocator,
>()
    ensures { KeptPointerLaw P T P.Inx P.Gen A T.Key (calls_by (Asks P.numbers F.step) T.is_infallible) }
{}

/// A rekeyed entry keeps its pointer. Directly afterwards, and after any commands to other entries, the pointer names the new item.
pub fn rekeyed_pointer_law<
    P: BasePtr,
    T: SimpleOrdItem + Clone,
    F: FnMut(P, &T) -> Ordering,
    A: Allocator,
>()
    ensures { RekeyedPointerLaw P T P.Inx P.Gen A T.Key (calls_by (Asks P.numbers F.step) T.is_infallible) }
{}

/// A pointer that has stopped naming an entry never names one again, if no entry's generation is above the arena's at the beginning, and
/// the generations, which are numbers, are never reset and don't overflow.
pub fn ended_pointer_law<
    P: BasePtr,
    T: SimpleOrdItem + Clone,
    F: FnMut(P, &T) -> Ordering,
    A: Allocator,
>()
    ensures { EndedPointerLaw P T P.Inx P.Gen A T.Key (calls_by (Asks P.numbers F.step) T.is_infallible) }
{}

/// Keys are strictly ascending after any run from an empty arena in which only insertions replace items, and each insertion is by the
/// item's key, or of the kind `Normal` or `Linear` with a key that equals the item's.
pub fn ascending_keys_law<
    P: BasePtr,
    T: SimpleOrdItem + Clone,
    F: FnMut(P, &T) -> Ordering,
    A: Allocator,
>()
    ensures { AscendingKeysLaw P T P.Inx P.Gen A T.Key (calls_by (Asks P.numbers F.step) T.is_infallible) }
{}

/// Keys are in order, duplicate keys included, after any run from an arena in order without `Set`, in which each insertion is by the
/// item's key, or of a kind with a key that equals the item's.
///
/// `Rekey` keeps them in order, whatever the keys: its entry moves to the place of the new key.
pub fn ordered_keys_law<
    P: BasePtr,
    T: SimpleOrdItem + Clone,
    F: FnMut(P, &T) -> Ordering,
    A: Allocator,
>()
    ensures { OrderedKeysLaw P T P.Inx P.Gen A T.Key (calls_by (Asks P.numbers F.step) T.is_infallible) }
{}

/// The ranks of old entries change at most 4m + 9d + 14k + 3n times in a run without a compression that begins with n entries, inserts m,
/// removes d and rekeys k. This is the amortized bound of rank-balanced trees (Haeupler, Sen and Tarjan, 2015).
///
/// A run from an empty arena has n = 0. A run after a rebuild begins with the rebuilt entries. An insertion that replaces an item changes
/// no rank, and neither does a command that only reads.
pub fn rank_changes_law<
    P: BasePtr,
    T: SimpleOrdItem + Clone,
    F: FnMut(P, &T) -> Ordering,
    A: Allocator,
>()
    ensures { RankChangesLaw P T P.Inx P.Gen A T.Key (calls_by (Asks P.numbers F.step) T.is_infallible) }
{}
