//! Many keys appended at once.
use super::support::{Keys, at, has_keys, has_ranks, keys};
use arena_base::{BasePtr, P0};
use std::alloc::Global;

/// Appends keys, each with a value that says nothing. Answers how many came back.
fn appended(a: &mut Keys, alloc: Global, list: &[u64]) -> usize {
    let mut pairs = Vec::new(alloc);
    for key in list {
        let _ = pairs.push((*key, ()));
    }
    match a.append_pairs_within_capacity(pairs) {
        Ok(()) => 0,
        Err(given) => given.len(),
    }
}

#[test]
fn an_append_takes_all_keys_or_none(rt: HostRuntime) {
    let mut a = keys(rt.alloc(), &[1, 2, 9, 3]);
    let _ = a.remove(at(3));
    assert!(rt; appended(&mut a, rt.alloc(), &[4, 5]) == 2 && has_keys(&a, &[1, 2, 3]));
    let _ = a.reallocate_min_capacity(7);
    // the freed slot first, then those that were never used; the generation rose once
    assert!(rt; appended(&mut a, rt.alloc(), &[4, 5, 6, 7]) == 0);
    assert!(rt;
        has_ranks(
            &a,
            &[(1, 1), (2, 3), (4, 1), (3, 4), (5, 1), (6, 3), (7, 1)]
        )
    );
    assert!(rt; a.find_key(&4) == Some(P0::_from_raw(3, 3)) && a.find_key(&2) == Some(at(2)));
    // none: the tree stays as it is
    assert!(rt; appended(&mut a, rt.alloc(), &[]) == 0 && a.len() == 7);
    assert!(rt; appended(&mut a, rt.alloc(), &[8]) == 1 && a.len() == 7);
}
