//! Laws of lists in the order of their keys or of a closure's answers, and of rebuilt trees. The functions here do nothing; the contract
//! of each is the law.
ghost use Rattle.triple_ord.specs.ClosureSearch.{Asks};
ghost use Rattle.triple_ord.specs.OrderLaws.{AbsentKeyLaw, AnsweredInOrderLaw, BesidePlaceLaw, KeptOrderLaw, SameRanksLaw};
ghost use Rattle.triple_ord.specs.Rekey.{RekeyOrderLaw};

use crate::item::SimpleOrdItem;
use arena_base::BasePtr;
use std::cmp::Ordering;

/// On a list in the order of its keys, `find_key` and `find_key_linear` return `None` exactly if no entry has an equal key.
pub fn absent_key_law<T: SimpleOrdItem>()
    ensures { AbsentKeyLaw T.key_of T.Key.cmp }
{}

/// On a list in the order of its keys, without an equal key, a search for a similar key returns an entry directly before or after the
/// key's place. All keys before that place are smaller, and all keys behind it greater.
pub fn beside_place_law<T: SimpleOrdItem>()
    ensures { BesidePlaceLaw T.key_of T.Key.cmp }
{}

/// Let the answers of a closure be a fixed function of pointer and item. Let them be, along the list, first `Greater`, then `Equal`, and
/// then `Less`, each for any number of entries. Then `find_with` returns `None` exactly if no entry is answered `Equal`.
pub fn answered_in_order_law<P: BasePtr, T, F: FnMut(P, &T) -> Ordering>()
    ensures { AnsweredInOrderLaw (Asks P.numbers F.step) }
{}

/// An insertion by a key keeps a list in the order of its keys if the inserted item has an equal key. The item may replace that of an
/// equal entry, or go before all greater keys and behind all others.
pub fn kept_order_law<P: BasePtr, T: SimpleOrdItem>()
    ensures { KeptOrderLaw P.numbers T.key_of T.Key.cmp }
{}

/// After `rekey` or `reposition` all entries are in the order of their keys if the other entries were, whatever key the entry had.
pub fn rekey_order_law<T: SimpleOrdItem>()
    ensures { RekeyOrderLaw T.key_of T.Key.cmp }
{}

/// Two arenas of equal length that were just rebuilt have the same ranks, position by position.
pub fn same_ranks_law()
    ensures { SameRanksLaw }
{}
