//! Recasting the items of an arena, and pointers stored elsewhere after a transfer.
use super::support::{Keys, at, four};
use arena_base::{Arena, BasePtr, InvalidationOption, P0, Recast};
use std::alloc::Global;
use triple_ord::{OrdPair, SimpleOrdArena};

type Pointers = SimpleOrdArena<P0, OrdPair<u64, P0>>;

/// The values at these indexes.
fn has_values(a: &Pointers, wanted: &[P0]) -> bool {
    let mut index = 0u32;
    for value in wanted {
        index = index.wrapping_add(1);
        match a.get(at(index)) {
            Some(pair) if pair.v() == value => {}
            _ => return false,
        }
    }
    true
}

/// Writes the value of an entry.
fn write(a: &mut Pointers, index: u32, value: P0) {
    if let Some(pair) = a.get_mut(at(index)) {
        *pair.v_mut() = value;
    }
}

/// Recasts all values.
fn recast(a: &mut Pointers, recaster: &Arena<P0, P0>) -> Result<(), P0> {
    a.recast(recaster)
}

/// The recaster maps only the pointer `at(1)`, to another one.
#[test]
fn a_recast_stops_at_the_first_error(rt: HostRuntime) {
    let (new, unknown) = (P0::_from_raw(5, 7), P0::_from_raw(9, 9));
    let mut recaster: Arena<P0, P0> = Arena::new(rt.alloc());
    let _ = recaster.insert_reallocating(new);
    // a smaller key has index 4, behind the failing entry
    let mut a = Pointers::new(rt.alloc());
    for (key, value) in &[(1u64, at(1)), (2, unknown), (3, at(1)), (0, at(1))] {
        let _ = a.insert(OrdPair::new(*key, *value));
    }
    assert!(rt; recast(&mut a, &recaster) == Err(unknown));
    assert!(rt; has_values(&a, &[new, unknown, at(1), at(1)]));
    // a recast value is recast again
    write(&mut a, 2, at(1));
    assert!(rt; recast(&mut a, &recaster) == Err(new));
    write(&mut a, 1, at(1));
    assert!(rt; recast(&mut a, &recaster) == Ok(()));
    assert!(rt; has_values(&a, &[new, new, new, new]));
}

/// An arena with the pointers of another one, each mapped to the invalid pointer.
fn pointers_of(alloc: Global, a: &Keys) -> Arena<P0, P0> {
    let mut recaster = Arena::new(alloc);
    let invalid = |_p: P0, _item: &OrdPair<u64, ()>| P0::invalid();
    let _ = a.clone_to_arena(&mut recaster, invalid);
    recaster
}

/// Transfers all keys with generation 4, and maps each old pointer to the new one.
fn transfer_recasting(a: &mut Keys, source: &mut Keys, recaster: &mut Arena<P0, P0>) {
    let _ = a.transfer_canonical_reallocating(
        4,
        source,
        |old: P0, taken: InvalidationOption<OrdPair<u64, ()>>, new: P0| {
            if let Some(to) = recaster.get_mut(old) {
                *to = new;
            }
            taken.allow()
        },
    );
}

/// The recast of a pointer, or the pointer itself if that fails.
fn recast_of(recaster: &Arena<P0, P0>, p: P0) -> Result<P0, P0> {
    let mut p = p;
    p.recast(recaster)?;
    Ok(p)
}

/// The index and the generation of an old pointer, and the index of its new one.
const MOVED: [(u32, u64, u32); 4] = [(1, 2, 3), (2, 2, 1), (3, 3, 4), (4, 2, 2)];

#[test]
fn old_pointers_are_recast_to_the_new_ones(rt: HostRuntime) {
    let mut source = four(rt.alloc());
    let mut recaster = pointers_of(rt.alloc(), &source);
    let mut a = Keys::new(rt.alloc());
    transfer_recasting(&mut a, &mut source, &mut recaster);
    for (index, generation, new) in &MOVED {
        let recast = recast_of(&recaster, P0::_from_raw(*index, *generation));
        assert!(rt; recast == Ok(P0::_from_raw(*new, 4)));
    }
    assert!(rt; a.find_key(&1) == Some(P0::_from_raw(1, 4)));
    // the pointer of 4 was already stale
    let ended = P0::_from_raw(3, 2);
    assert!(rt; recast_of(&recaster, ended) == Err(ended));
}
