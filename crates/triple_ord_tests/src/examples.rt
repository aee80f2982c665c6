//! The examples in the text of the calls of `SimpleOrdArena`.

use arena_base::{InvalidationResult, P0};
use std::cmp::Ordering;
use std::process::Abort;
use std::test::Fail;
use triple_ord::{Advancer, OrdInsertKind, OrdPair, SimpleOrdArena};

#[test]
fn insert(rt: HostRuntime) -> Result<(), Fail> {
    insert_in(&rt, &mut SimpleOrdArena::new(rt.alloc()))
}

fn insert_in(
    rt: &impl Abort,
    pairs: &mut SimpleOrdArena<P0, OrdPair<u64, &str>>,
) -> Result<(), Fail> {
    let (two, _) = pairs.insert(OrdPair::new(2, "deux"))?;
    let (same, replaced) = pairs.insert(OrdPair::new(2, "two"))?;
    assert_eq!(rt; same, two);
    assert_eq!(rt; replaced, Some(OrdPair::new(2, "deux")));
    assert_eq!(rt; pairs.get(two), Some(&OrdPair::new(2, "two")));
    Ok(())
}

#[test]
fn entry_insert(rt: HostRuntime) -> Result<(), Fail> {
    entry_insert_in(&rt, &mut SimpleOrdArena::new(rt.alloc()))
}

fn entry_insert_in(
    rt: &impl Abort,
    pairs: &mut SimpleOrdArena<P0, OrdPair<u64, &str>>,
) -> Result<(), Fail> {
    for name in ["first", "second"] {
        let entry = pairs.entry_insert(OrdInsertKind::Nonhereditary(&7))?;
        let _ = entry.insert(OrdPair::new(7, name));
    }
    assert_eq!(rt; pairs.len(), 2);
    assert_eq!(rt;
        pairs.last().and_then(|p| pairs.get(p)),
        Some(&OrdPair::new(7, "second"))
    );
    Ok(())
}

#[test]
fn find_key(rt: HostRuntime) -> Result<(), Fail> {
    find_key_in(&rt, &mut SimpleOrdArena::new(rt.alloc()))
}

fn find_key_in(
    rt: &impl Abort,
    pairs: &mut SimpleOrdArena<P0, OrdPair<u64, &str>>,
) -> Result<(), Fail> {
    let (two, _) = pairs.insert(OrdPair::new(2, "two"))?;
    assert_eq!(rt; pairs.find_key(&2), Some(two));
    assert_eq!(rt; pairs.find_key(&3), None);
    Ok(())
}

#[test]
fn find_similar_key(rt: HostRuntime) -> Result<(), Fail> {
    find_similar_key_in(&rt, &mut SimpleOrdArena::new(rt.alloc()))
}

fn find_similar_key_in(
    rt: &impl Abort,
    pairs: &mut SimpleOrdArena<P0, OrdPair<u64, &str>>,
) -> Result<(), Fail> {
    let (two, _) = pairs.insert(OrdPair::new(2, "two"))?;
    assert_eq!(rt; pairs.find_similar_key(&3), Some((two, Ordering::Greater)));
    assert_eq!(rt; pairs.find_similar_key(&1), Some((two, Ordering::Less)));
    Ok(())
}

#[test]
fn find_with(rt: HostRuntime) -> Result<(), Fail> {
    find_with_in(&rt, &mut SimpleOrdArena::new(rt.alloc()))
}

fn find_with_in(
    rt: &impl Abort,
    pairs: &mut SimpleOrdArena<P0, OrdPair<u64, &str>>,
) -> Result<(), Fail> {
    let (two, _) = pairs.insert(OrdPair::new(2, "two"))?;
    pairs.insert(OrdPair::new(5, "five"))?;
    assert_eq!(rt; pairs.find_with(|_, pair| 2.cmp(pair.k())), Some(two));
    Ok(())
}

#[test]
fn remove(rt: HostRuntime) -> Result<(), Fail> {
    remove_in(&rt, &mut SimpleOrdArena::new(rt.alloc()))
}

fn remove_in(
    rt: &impl Abort,
    pairs: &mut SimpleOrdArena<P0, OrdPair<u64, &str>>,
) -> Result<(), Fail> {
    let (two, _) = pairs.insert(OrdPair::new(2, "two"))?;
    assert_eq!(rt; pairs.remove(two).allow(), Some(OrdPair::new(2, "two")));
    assert_eq!(rt; pairs.remove(two).allow(), None);
    assert!(rt; !pairs.contains(two));
    Ok(())
}

#[test]
fn rekey_pair(rt: HostRuntime) -> Result<(), Fail> {
    rekey_pair_in(&rt, &mut SimpleOrdArena::new(rt.alloc()))
}

fn rekey_pair_in(
    rt: &impl Abort,
    pairs: &mut SimpleOrdArena<P0, OrdPair<u64, &str>>,
) -> Result<(), Fail> {
    let (two, _) = pairs.insert(OrdPair::new(2, "tea"))?;
    let (five, _) = pairs.insert(OrdPair::new(5, "cake"))?;
    assert_eq!(rt; pairs.rekey_pair(two, 9), Ok(2));
    assert_eq!(rt; pairs.get(two), Some(&OrdPair::new(9, "tea")));
    assert_eq!(rt; pairs.first(), Some(five));
    Ok(())
}

#[test]
fn advancer_ordered(rt: HostRuntime) -> Result<(), Fail> {
    let mut pairs: SimpleOrdArena<P0, OrdPair<u64, &str>> = SimpleOrdArena::new(rt.alloc());
    let (two, _) = pairs.insert(OrdPair::new(2, "two"))?;
    let (five, _) = pairs.insert(OrdPair::new(5, "five"))?;
    let mut walk = pairs.advancer_ordered(two, false).expect(&rt, "an entry");
    assert_eq!(rt; walk.advance(&pairs), Some(two));
    assert_eq!(rt; walk.advance(&pairs), Some(five));
    assert_eq!(rt; walk.advance(&pairs), None);
    Ok(())
}

#[test]
fn append_pairs_within_capacity(rt: HostRuntime) -> Result<(), Fail> {
    append_pairs_within_capacity_in(&rt, &mut SimpleOrdArena::new(rt.alloc()))
}

fn append_pairs_within_capacity_in(
    rt: &(impl Abort + AllocGlobal),
    pairs: &mut SimpleOrdArena<P0, OrdPair<u64, &str>>,
) -> Result<(), Fail> {
    pairs.reserve(2)?;
    let sorted = Vec::from_array(rt.alloc(), [(1, "one"), (2, "two")])?;
    assert!(rt; pairs.append_pairs_within_capacity(sorted).is_ok());
    assert_eq!(rt;
        pairs.first().and_then(|p| pairs.get(p)),
        Some(&OrdPair::new(1, "one"))
    );
    Ok(())
}

#[test]
fn compress_canonical(rt: HostRuntime) -> Result<(), Fail> {
    compress_canonical_in(&rt, &mut SimpleOrdArena::new(rt.alloc()))
}

fn compress_canonical_in(
    rt: &impl Abort,
    pairs: &mut SimpleOrdArena<P0, OrdPair<u64, &str>>,
) -> Result<(), Fail> {
    let (two, _) = pairs.insert(OrdPair::new(2, "two"))?;
    pairs.insert(OrdPair::new(1, "one"))?;
    pairs.compress_canonical(false).allow();
    assert!(rt; !pairs.contains(two));
    assert_eq!(rt; pairs.find_key(&2), pairs.last());
    Ok(())
}
