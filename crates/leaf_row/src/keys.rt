//! The keys of a row.
ghost use Rattle.std.specs.Prelude.{◌≡◌, ◌+◌, ◌≤◌, ◌<◌, vec_len, vec_capacity};
ghost use Rattle.std.specs.List.{insert};

use std::alloc::Allocator;

/// Inserts a key at an index, where the vector has room. It allocates nothing, and drops no key.
#[inline(always)]
pub(crate) fn put_key<K, A: Allocator>(keys: &mut Vec<K, A>, at: usize, k: K)
    requires within { at ≤ vec_len keys.old }
    requires room { vec_len keys.old < vec_capacity keys.old }
    ensures items { keys.new.items ≡ insert keys.old.items at k }
    ensures len { vec_len keys.new ≡ vec_len keys.old + 1 }
    ensures capacity { vec_capacity keys.new ≡ vec_capacity keys.old }
{
    keys.push_reserved(k);
    let tail = &mut keys.as_mut_slice()[at..];
    tail.rotate_right(1);
}
