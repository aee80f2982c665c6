//! Writing an arena.

ghost use Rattle.std.specs.Prelude.{map, OnOk};
ghost use Rattle.sorted_arena.specs.Sorted.{pair_of};
ghost use Rattle.serde.specs.Event.{WritesSeq};
ghost use Rattle.sorted_serde.specs.Pairs.{WritesPair};

use serde::{Described, Serialize, Serializer};
use sorted_arena::{BasePtr, P0, SortedArena};
use std::alloc::{Allocator, Global};

/// An arena that is written as the list of its pairs, in the order of the keys.
///
/// A pair is a list of two, the key and the value. Equal keys come in the order of their insertion.
///
/// ```
/// let pairs = Vec::from_array(rt.alloc(), [(100, "Ada"), (120, "Grace")])?;
/// let users: SortedArena<u64, &str> =
///     SortedArena::from_sorted(rt.alloc(), pairs).map_err(|refused| refused.1)?;
/// let text = serde_json::to_string(rt.alloc(), &AsPairs(&users))?;
/// assert_eq!(rt; text.as_str(), r#"[[100,"Ada"],[120,"Grace"]]"#);
/// ```
#[derive(Drop)]
pub struct AsPairs<'a, K: Ord, V, P: BasePtr = P0, A: Allocator = Global>(
    pub &'a SortedArena<K, V, P, A>,
);

impl<K: Described + Ord, V: Described, P: BasePtr, A: Allocator> Described
    for AsPairs<'_, K, V, P, A> {
    ghost writes = { λ a. WritesSeq (WritesPair K.writes V.writes) (map pair_of a.0.now.entries) };
}

impl<K: Serialize + Ord, V: Serialize, P: BasePtr, A: Allocator> Serialize
    for AsPairs<'_, K, V, P, A> {
    fn serialize<S: Serializer>(&self, out: &mut S) -> Result<(), S::Error> {
        serialize(self.0, out)
    }
}

/// Writes an arena as the list of its pairs, in the order of the keys, as [`AsPairs`] does. O(n).
///
/// # Errors
///
/// The serializer refuses an event or the number of pairs. What was written before stays written.
pub fn serialize<K: Serialize + Ord, V: Serialize, P: BasePtr, A: Allocator, S: Serializer>(
    arena: &SortedArena<K, V, P, A>,
    out: &mut S,
) -> Result<(), S::Error>
    ensures { OnOk result (WritesSeq (WritesPair K.writes V.writes)
        (map pair_of arena.now.entries) (S.written out.old) (S.written out.new)) }
{
    out.begin_seq(Some(arena.len()))?;
    for (_, key, value) in arena {
        (key, value).serialize(out)?;
    }
    out.end_seq()
}
