//! Reading an arena.

ghost use Rattle.std.specs.Prelude.{◌≡◌, map, IfOk};
ghost use Rattle.std.specs.List.Sorted.{IsPermutation, IsStableByKey};
ghost use Rattle.sorted_arena.specs.Generation.{first_generation};
ghost use Rattle.sorted_arena.specs.Sorted.{count, pair_of};

use serde::{Deserialize, DeserializeOwned, Deserializer, Format};
use sorted_arena::{BasePtr, P0, ReallocationError, SortedArena};
use std::alloc::Global;

/// An arena that is read from a list of pairs, in any order.
///
/// A pair is a list of two, the key and the value. Pairs with equal keys keep the order that they have in the list. The arena has the
/// capacity that they need, and the first generation.
///
/// ```
/// let text = r#"[[120,"Grace"],[100,"Ada"]]"#;
/// let FromPairs::<u64, &str>(users) = serde_json::from_str(rt.alloc(), text)?;
/// assert!(rt; users.values().eq(&["Ada", "Grace"]));
/// ```
///
/// # Errors
///
/// - What the format reports of a text that isn't a list of such pairs.
/// - What it reports if memory is refused: for the pairs, for sorting them, or for the arena.
/// - A message of its kind that there are more pairs than the arena can hold, as many as pointers have indexes.
#[derive(Drop)]
pub struct FromPairs<K: Ord, V, P: BasePtr = P0>(pub SortedArena<K, V, P>);

impl<'de, K: Deserialize<'de> + Ord, V: Deserialize<'de>, P: BasePtr> Deserialize<'de>
    for FromPairs<K, V, P> {
    fn deserialize<F: Format>(
        alloc: Global,
        from: &mut Deserializer<'de, '_, F>,
    ) -> Result<FromPairs<K, V, P>, F::Error> {
        let pairs = Deserialize::deserialize(alloc, from)?;
        Ok(FromPairs(arena_of(alloc, pairs, from)?))
    }
}

impl<K: DeserializeOwned + Ord, V: DeserializeOwned, P: BasePtr> DeserializeOwned
    for FromPairs<K, V, P> {
    fn deserialize_owned<F: Format>(
        alloc: Global,
        from: &mut Deserializer<'_, '_, F>,
    ) -> Result<FromPairs<K, V, P>, F::Error> {
        Ok(FromPairs(deserialize(alloc, from)?))
    }
}

/// Reads an arena from a list of pairs in any order, as [`FromPairs`] does. O(n log n).
///
/// # Errors
///
/// Those of [`FromPairs`].
pub fn deserialize<K: DeserializeOwned + Ord, V: DeserializeOwned, P: BasePtr, F: Format>(
    alloc: Global,
    from: &mut Deserializer<'_, '_, F>,
) -> Result<SortedArena<K, V, P>, F::Error>
    ensures generation { IfOk result (λ a. a.generation ≡ first_generation P.Gen.greatest) }
    ensures capacity { IfOk result (λ a. a.capacity ≡ count a) }
{
    let pairs = DeserializeOwned::deserialize_owned(alloc, from)?;
    arena_of(alloc, pairs, from)
}

// The arena of pairs in any order. What is refused is an error of the format.
fn arena_of<K: Ord + Drop, V: Drop, P: BasePtr, F: Format>(
    alloc: Global,
    pairs: Vec<(K, V)>,
    from: &Deserializer<'_, '_, F>,
) -> Result<SortedArena<K, V, P>, F::Error>
    ensures permutation { IfOk result
        (λ a. IsPermutation pairs.items (map pair_of a.entries)) }
    ensures stable { IfOk result
        (λ a. IsStableByKey (λ x. x.0) K.cmp pairs.items (map pair_of a.entries)) }
    ensures generation { IfOk result (λ a. a.generation ≡ first_generation P.Gen.greatest) }
    ensures capacity { IfOk result (λ a. a.capacity ≡ count a) }
{
    match SortedArena::from_unsorted(alloc, pairs) {
        Ok(arena) => Ok(arena),
        Err((_, ReallocationError::AllocError)) => Err(from.no_memory()),
        Err((_, ReallocationError::BeyondMaxCapacity)) => {
            Err(from.custom("more pairs than the arena can hold"))
        }
    }
}
