//! How pairs compare and hash: by key, then by value. Their order and their hash agree with their equality.
ghost use Rattle.std.specs.Prelude.{◌≡◌, ◌&&◌, ◌++◌, ◌↔◌, Some, IsTrue};
ghost use Rattle.std.specs.List.{fold};
ghost use Rattle.std.specs.Ordering.{ordering_then, partial_ordering_then, is_eq};

use crate::pair::OrdPair;
use arena_base::{P0, Slot};
use chain_base::LinkNoGen;
use ord_tree::SimpleOrdArenaNode;
use std::cmp::Ordering;
use std::hash::{Hash, Hasher};
use std::mem::size_of;

/// Returns whether two pairs have equal keys and equal values.
pub fn pairs_equal<K: PartialEq, V: PartialEq>(a: &OrdPair<K, V>, b: &OrdPair<K, V>) -> bool
    ensures { result ≡ (K.eq a.now.0 b.now.0 && V.eq a.now.1 b.now.1) }
{
    *a == *b
}

/// Returns the order of two pairs, if there is one: by key, and by value for equal keys. It is `Equal` exactly for equal pairs.
pub fn pairs_partial_cmp<K: PartialOrd, V: PartialOrd>(
    a: &OrdPair<K, V>,
    b: &OrdPair<K, V>,
) -> Option<Ordering>
    ensures order { result
        ≡ partial_ordering_then (K.partial_cmp a.now.0 b.now.0) (V.partial_cmp a.now.1 b.now.1) }
    ensures equal { (result ≡ Some Ordering.Equal)
        ↔ IsTrue (K.eq a.now.0 b.now.0 && V.eq a.now.1 b.now.1) }
{
    a.partial_cmp(b)
}

/// Returns the order of two pairs: by key, and by value for equal keys. It is `Equal` exactly for equal pairs.
pub fn pairs_cmp<K: Ord, V: Ord>(a: &OrdPair<K, V>, b: &OrdPair<K, V>) -> Ordering
    ensures order { result ≡ ordering_then (K.cmp a.now.0 b.now.0) (V.cmp a.now.1 b.now.1) }
    ensures equal { is_eq result ≡ (K.eq a.now.0 b.now.0 && V.eq a.now.1 b.now.1) }
{
    a.cmp(b)
}

/// Feeds a pair to a hasher: the key, then the value.
pub fn pair_hash<K: Hash, V: Hash, H: Hasher>(pair: &OrdPair<K, V>, state: &mut H)
    ensures { state.new
        ≡ fold H.write state.old (K.hash_input pair.now.0 ++ V.hash_input pair.now.1) }
{
    pair.hash(state);
}

/// Returns whether two pairs are equal. Equal pairs feed a hasher alike.
pub fn pairs_hash_alike<K: Hash, V: Hash>(a: &OrdPair<K, V>, b: &OrdPair<K, V>) -> bool
    ensures equal { result ≡ (K.eq a.now.0 b.now.0 && V.eq a.now.1 b.now.1) }
    ensures alike { IsTrue result → K.hash_input a.now.0 ++ V.hash_input a.now.1
        ≡ K.hash_input b.now.0 ++ V.hash_input b.now.1 }
{
    *a == *b
}

/// A slot of an arena of pairs of words takes at most seven words: the pair, the generation, the tag, and half a word each for both
/// neighbours, the three links and the rank. The function does nothing; that it compiles is the proof.
pub fn slots_are_small() {
    prove!(size_of::<Slot<LinkNoGen<P0, SimpleOrdArenaNode<P0, OrdPair<u64, u64>>>, u64>>() <= 56);
}
