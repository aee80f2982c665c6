//! Code that orders, hashes and prints pointers of any type. It asks for `P: Ptr`; any arena over `P` can be passed to it.

ghost use Rattle.std.specs.Prelude.{◌≡◌, ◌⊎◌, is_some};
ghost use Rattle.triple_ord.specs.Arena.{item_of};

use std::alloc::{AllocError, Allocator};
use std::cmp::Ordering;
use std::hash::{DefaultHasher, Hasher};
use triple_ord::{Ptr, SimpleOrdArena};

/// Returns the lesser of two pointers.
pub fn lesser<P: Ptr>(p: P, q: P) -> P
    ensures { (result ≡ p) ⊎ (result ≡ q) }
{
    match p.cmp(&q) {
        Ordering::Greater => q,
        _ => p,
    }
}

/// Returns the hash of a pointer, for a table keyed by pointers. Equal pointers have equal hashes.
pub fn hash_of<P: Ptr>(p: P) -> u64 {
    let mut hasher = DefaultHasher::new();
    p.hash(&mut hasher);
    hasher.finish()
}

/// Formats a pointer and its index for a log. Returns `Err` if there is no memory.
pub fn text_of<P: Ptr, A: Allocator>(alloc: A, p: P) -> Result<String<A>, AllocError> {
    let i = p.inx();
    format!(in alloc; "{p:?} at {i:?}")
}

/// Returns whether the arena has an entry with this pointer.
pub fn is_there<P: Ptr, T, A: Allocator>(arena: &SimpleOrdArena<P, T, A>, p: P) -> bool
    ensures { result ≡ is_some (item_of arena.now (P.numbers p)) }
{
    arena.contains(p)
}
