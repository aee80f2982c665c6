//! Sorted arenas that go to another thread, and are shared between threads, where their keys and values may.

ghost use Rattle.std.specs.Prelude.{◌≡◌};

use sorted_arena::{P0, SortedArena};

/// What goes to another thread.
pub fn sent<T: Send + Drop>(value: T) -> T
    ensures { result ≡ value }
{
    value
}

/// What threads share.
pub fn shared<T: Sync>(value: &T) -> &T
    ensures { result.now ≡ value.now }
{
    value
}

/// A sorted arena goes to another thread.
pub fn send<K: Ord + Send + Drop, V: Send + Drop>(
    arena: SortedArena<K, V, P0>,
) -> SortedArena<K, V, P0>
    ensures { result ≡ arena }
{
    sent(arena)
}

/// Threads share a sorted arena.
pub fn share<K: Ord + Sync, V: Sync>(arena: &SortedArena<K, V, P0>) -> &SortedArena<K, V, P0>
    ensures { result.now ≡ arena.now }
{
    shared(arena)
}
