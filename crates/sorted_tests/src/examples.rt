//! The examples in the text of the calls of `SortedArena`.

use sorted_arena::{Entry, RekeyUniqueError, SortedArena, UniqueInsertionError};
use std::process::Abort;
use std::test::Fail;

#[test]
fn insert(rt: HostRuntime) -> Result<(), Fail> {
    insert_in(&rt, &mut SortedArena::new(rt.alloc()))
}

fn insert_in(rt: &impl Abort, users: &mut SortedArena<u64, &'static str>) -> Result<(), Fail> {
    let grace = users.insert(120, "Grace").map_err(|refused| refused.1)?;
    users.insert(100, "Ada").map_err(|refused| refused.1)?;
    users.insert(100, "Alan").map_err(|refused| refused.1)?;
    assert_eq!(rt; users.get(grace), Some((&120, &"Grace")));
    assert!(rt; users.values().eq(&["Ada", "Alan", "Grace"]));
    Ok(())
}

#[test]
fn replace(rt: HostRuntime) -> Result<(), Fail> {
    replace_in(&rt, &mut SortedArena::new(rt.alloc()))
}

fn replace_in(rt: &impl Abort, stock: &mut SortedArena<&'static str, u32>) -> Result<(), Fail> {
    let (tea, before) = stock.replace("tea", 7).map_err(|refused| refused.1)?;
    assert_eq!(rt; before, None);
    assert_eq!(rt;
        stock.replace("tea", 8).map_err(|refused| refused.1)?,
        (tea, Some(7))
    );
    Ok(())
}

#[test]
fn insert_unique(rt: HostRuntime) -> Result<(), Fail> {
    insert_unique_in(&rt, &mut SortedArena::new(rt.alloc()))
}

fn insert_unique_in(
    rt: &impl Abort,
    names: &mut SortedArena<u32, &'static str>,
) -> Result<(), Fail> {
    let ada = names.insert(7, "Ada").map_err(|refused| refused.1)?;
    assert_eq!(rt;
        names.insert_unique(7, "Alan"),
        Err(((7, "Alan"), UniqueInsertionError::EqualKey(ada)))
    );
    Ok(())
}

#[test]
fn find(rt: HostRuntime) -> Result<(), Fail> {
    find_in(&rt, &mut SortedArena::new(rt.alloc()))
}

fn find_in(rt: &impl Abort, users: &mut SortedArena<u64, &'static str>) -> Result<(), Fail> {
    let ada = users.insert(100, "Ada").map_err(|refused| refused.1)?;
    users.insert(100, "Alan").map_err(|refused| refused.1)?;
    assert_eq!(rt; users.find(&100), Some(ada));
    assert_eq!(rt; users.find(&101), None);
    Ok(())
}

#[test]
fn lower_bound(rt: HostRuntime) -> Result<(), Fail> {
    lower_bound_in(&rt, &mut SortedArena::new(rt.alloc()))
}

fn lower_bound_in(rt: &impl Abort, users: &mut SortedArena<u64, &'static str>) -> Result<(), Fail> {
    let ada = users.insert(100, "Ada").map_err(|refused| refused.1)?;
    let grace = users.insert(120, "Grace").map_err(|refused| refused.1)?;
    assert_eq!(rt; users.lower_bound(&100), Some(ada));
    assert_eq!(rt; users.lower_bound(&101), Some(grace));
    assert_eq!(rt; users.lower_bound(&121), None);
    Ok(())
}

#[test]
fn upper_bound(rt: HostRuntime) -> Result<(), Fail> {
    upper_bound_in(&rt, &mut SortedArena::new(rt.alloc()))
}

fn upper_bound_in(rt: &impl Abort, users: &mut SortedArena<u64, &'static str>) -> Result<(), Fail> {
    users.insert(100, "Ada").map_err(|refused| refused.1)?;
    let grace = users.insert(120, "Grace").map_err(|refused| refused.1)?;
    assert_eq!(rt; users.upper_bound(&100), Some(grace));
    assert_eq!(rt; users.upper_bound(&120), None);
    Ok(())
}

#[test]
fn count_of(rt: HostRuntime) -> Result<(), Fail> {
    count_of_in(&rt, &mut SortedArena::new(rt.alloc()))
}

fn count_of_in(rt: &impl Abort, users: &mut SortedArena<u64, &'static str>) -> Result<(), Fail> {
    users.insert(100, "Ada").map_err(|refused| refused.1)?;
    users.insert(100, "Alan").map_err(|refused| refused.1)?;
    assert_eq!(rt; users.count_of(&100), 2);
    assert_eq!(rt; users.count_of(&120), 0);
    Ok(())
}

#[test]
fn value_mut(rt: HostRuntime) -> Result<(), Fail> {
    value_mut_in(&rt, &mut SortedArena::new(rt.alloc()))
}

fn value_mut_in(rt: &impl Abort, scores: &mut SortedArena<&'static str, u32>) -> Result<(), Fail> {
    let ada = scores.insert("Ada", 3).map_err(|refused| refused.1)?;
    if let Some(score) = scores.value_mut(ada) {
        *score = 5;
    }
    assert_eq!(rt; scores.get(ada), Some((&"Ada", &5)));
    Ok(())
}

#[test]
fn remove(rt: HostRuntime) -> Result<(), Fail> {
    remove_in(&rt, &mut SortedArena::new(rt.alloc()))
}

fn remove_in(rt: &impl Abort, users: &mut SortedArena<u64, &'static str>) -> Result<(), Fail> {
    let ada = users.insert(100, "Ada").map_err(|refused| refused.1)?;
    assert_eq!(rt; users.remove(ada), Some((100, "Ada")));
    users.insert(100, "Alan").map_err(|refused| refused.1)?;
    assert_eq!(rt; users.remove(ada), None);
    Ok(())
}

#[test]
fn remove_key(rt: HostRuntime) -> Result<(), Fail> {
    remove_key_in(&rt, &mut SortedArena::new(rt.alloc()))
}

fn remove_key_in(rt: &impl Abort, users: &mut SortedArena<u64, &'static str>) -> Result<(), Fail> {
    users.insert(100, "Ada").map_err(|refused| refused.1)?;
    users.insert(100, "Alan").map_err(|refused| refused.1)?;
    assert_eq!(rt; users.remove_key(&100), Some((100, "Ada")));
    assert_eq!(rt; users.remove_key(&120), None);
    Ok(())
}

#[test]
fn rekey(rt: HostRuntime) -> Result<(), Fail> {
    rekey_in(&rt, &mut SortedArena::new(rt.alloc()))
}

fn rekey_in(rt: &impl Abort, users: &mut SortedArena<u64, &'static str>) -> Result<(), Fail> {
    let ada = users.insert(100, "Ada").map_err(|refused| refused.1)?;
    users.insert(120, "Grace").map_err(|refused| refused.1)?;
    assert_eq!(rt; users.rekey(ada, 140), Ok(100));
    assert_eq!(rt; users.last(), Some(ada));
    Ok(())
}

#[test]
fn rekey_unique(rt: HostRuntime) -> Result<(), Fail> {
    rekey_unique_in(&rt, &mut SortedArena::new(rt.alloc()))
}

fn rekey_unique_in(
    rt: &impl Abort,
    names: &mut SortedArena<u32, &'static str>,
) -> Result<(), Fail> {
    let ada = names.insert(7, "Ada").map_err(|refused| refused.1)?;
    let alan = names.insert(8, "Alan").map_err(|refused| refused.1)?;
    assert_eq!(rt;
        names.rekey_unique(ada, 8),
        Err((8, RekeyUniqueError::EqualKey(alan)))
    );
    assert_eq!(rt; names.rekey_unique(ada, 9), Ok(7));
    Ok(())
}

#[test]
fn pop_first(rt: HostRuntime) -> Result<(), Fail> {
    pop_first_in(&rt, &mut SortedArena::new(rt.alloc()))
}

fn pop_first_in(rt: &impl Abort, users: &mut SortedArena<u64, &'static str>) -> Result<(), Fail> {
    users.insert(120, "Grace").map_err(|refused| refused.1)?;
    users.insert(100, "Ada").map_err(|refused| refused.1)?;
    assert_eq!(rt; users.pop_first(), Some((100, "Ada")));
    Ok(())
}

#[test]
fn pop_first_until(rt: HostRuntime) -> Result<(), Fail> {
    pop_first_until_in(&rt, &mut SortedArena::new(rt.alloc()))
}

fn pop_first_until_in(
    rt: &impl Abort,
    users: &mut SortedArena<u64, &'static str>,
) -> Result<(), Fail> {
    users.insert(100, "Ada").map_err(|refused| refused.1)?;
    users.insert(120, "Grace").map_err(|refused| refused.1)?;
    assert_eq!(rt; users.pop_first_until(&110), Some((100, "Ada")));
    assert_eq!(rt; users.pop_first_until(&110), None);
    Ok(())
}

#[test]
fn pop_until(rt: HostRuntime) -> Result<(), Fail> {
    let mut users: SortedArena<u64, &str> = SortedArena::new(rt.alloc());
    users.insert(100, "Ada").map_err(|refused| refused.1)?;
    users.insert(110, "Alan").map_err(|refused| refused.1)?;
    users.insert(120, "Grace").map_err(|refused| refused.1)?;
    let mut ended = Vec::new(rt.alloc());
    users.pop_until(&110, &mut ended)?;
    assert!(rt; ended.iter().eq(&[(100, "Ada"), (110, "Alan")]));
    Ok(())
}

#[test]
fn range(rt: HostRuntime) -> Result<(), Fail> {
    range_in(&rt, &mut SortedArena::new(rt.alloc()))
}

fn range_in(rt: &impl Abort, users: &mut SortedArena<u64, &'static str>) -> Result<(), Fail> {
    users.insert(100, "Ada").map_err(|refused| refused.1)?;
    users.insert(110, "Alan").map_err(|refused| refused.1)?;
    users.insert(120, "Grace").map_err(|refused| refused.1)?;
    assert!(rt; users.range(..120).values().eq(&["Ada", "Alan"]));
    assert!(rt; users.range(105..).keys().rev().eq(&[120, 110]));
    Ok(())
}

#[test]
fn remove_range(rt: HostRuntime) -> Result<(), Fail> {
    remove_range_in(&rt, &mut SortedArena::new(rt.alloc()))
}

fn remove_range_in(
    rt: &impl Abort,
    users: &mut SortedArena<u64, &'static str>,
) -> Result<(), Fail> {
    users.insert(100, "Ada").map_err(|refused| refused.1)?;
    users.insert(110, "Alan").map_err(|refused| refused.1)?;
    users.insert(120, "Grace").map_err(|refused| refused.1)?;
    assert_eq!(rt; users.remove_range(100..120), 2);
    assert_eq!(rt; users.len(), 1);
    Ok(())
}

#[test]
fn retain(rt: HostRuntime) -> Result<(), Fail> {
    retain_in(&rt, &mut SortedArena::new(rt.alloc()))
}

fn retain_in(rt: &impl Abort, scores: &mut SortedArena<&'static str, u32>) -> Result<(), Fail> {
    scores.insert("Ada", 3).map_err(|refused| refused.1)?;
    scores.insert("Alan", 0).map_err(|refused| refused.1)?;
    scores.retain(|_, score| *score > 0);
    assert!(rt; scores.keys().eq(&["Ada"]));
    Ok(())
}

#[test]
fn split_off(rt: HostRuntime) -> Result<(), Fail> {
    split_off_in(&rt, &mut SortedArena::new(rt.alloc()))
}

fn split_off_in(rt: &impl Abort, users: &mut SortedArena<u64, &'static str>) -> Result<(), Fail> {
    users.insert(100, "Ada").map_err(|refused| refused.1)?;
    users.insert(120, "Grace").map_err(|refused| refused.1)?;
    let later = users.split_off(&110)?;
    assert!(rt; users.values().eq(&["Ada"]));
    assert!(rt; later.values().eq(&["Grace"]));
    Ok(())
}

#[test]
fn from_sorted(rt: HostRuntime) -> Result<(), Fail> {
    let pairs = Vec::from_array(rt.alloc(), [(100, "Ada"), (120, "Grace")])?;
    let users: SortedArena<u64, &str> = SortedArena::from_sorted(rt.alloc(), pairs).map_err(
        |refused| refused.1,
    )?;
    assert!(rt; users.values().eq(&["Ada", "Grace"]));
    Ok(())
}

#[test]
fn from_unsorted(rt: HostRuntime) -> Result<(), Fail> {
    let pairs = Vec::from_array(rt.alloc(), [(120, "Grace"), (100, "Ada")])?;
    let users: SortedArena<u64, &str> = SortedArena::from_unsorted(rt.alloc(), pairs).map_err(
        |refused| refused.1,
    )?;
    assert!(rt; users.values().eq(&["Ada", "Grace"]));
    Ok(())
}

#[test]
fn into_keys(rt: HostRuntime) -> Result<(), Fail> {
    let pairs = Vec::from_array(rt.alloc(), [(100, "Ada"), (120, "Grace")])?;
    let users: SortedArena<u64, &str> = SortedArena::from_sorted(rt.alloc(), pairs).map_err(
        |refused| refused.1,
    )?;
    assert!(rt; users.into_keys().eq([100, 120]));
    Ok(())
}

#[test]
fn for_each_mut(rt: HostRuntime) -> Result<(), Fail> {
    for_each_mut_in(&rt, &mut SortedArena::new(rt.alloc()))
}

fn for_each_mut_in(
    rt: &impl Abort,
    scores: &mut SortedArena<&'static str, u32>,
) -> Result<(), Fail> {
    scores.insert("Ada", 3).map_err(|refused| refused.1)?;
    scores.insert("Alan", 4).map_err(|refused| refused.1)?;
    scores.for_each_mut(.., |_, score| *score = score.saturating_mul(2));
    assert!(rt; scores.values().eq(&[6, 8]));
    scores.for_each_mut("Alan".., |_, score| *score = 0);
    assert!(rt; scores.values().eq(&[6, 0]));
    Ok(())
}

#[test]
fn entry(rt: HostRuntime) -> Result<(), Fail> {
    entry_in(&rt, &mut SortedArena::new(rt.alloc()))
}

fn entry_in(rt: &impl Abort, stock: &mut SortedArena<&'static str, u32>) -> Result<(), Fail> {
    for word in ["tea", "milk", "tea"] {
        match stock.entry(word) {
            Entry::Occupied(mut entry) => {
                let count = entry.value().saturating_add(1);
                entry.set_value(count);
            }
            Entry::Vacant(entry) => {
                entry.insert(1).map_err(|refused| refused.1)?;
            }
        }
    }
    assert!(rt; stock.keys().eq(&["milk", "tea"]));
    assert!(rt; stock.values().eq(&[1, 2]));
    Ok(())
}

#[test]
fn remove_str(rt: HostRuntime) -> Result<(), Fail> {
    remove_str_in(&rt, &mut SortedArena::new(rt.alloc()))
}

fn remove_str_in(
    rt: &(impl Abort + AllocGlobal),
    ids: &mut SortedArena<String, u32>,
) -> Result<(), Fail> {
    let name = String::from_str(rt.alloc(), "Ada")?;
    ids.insert(name, 7).map_err(|refused| refused.1)?;
    assert_eq!(rt; ids.count_of_str("Ada"), 1);
    assert_eq!(rt; ids.remove_str("Ada").map(|(_, id)| id), Some(7));
    assert_eq!(rt; ids.count_of_str("Ada"), 0);
    Ok(())
}

#[test]
fn find_by(rt: HostRuntime) -> Result<(), Fail> {
    find_by_in(&rt, &mut SortedArena::new(rt.alloc()))
}

fn find_by_in(
    rt: &(impl Abort + AllocGlobal),
    ids: &mut SortedArena<String, u32>,
) -> Result<(), Fail> {
    let name = String::from_str(rt.alloc(), "Ada")?;
    let ada = ids.insert(name, 7).map_err(|refused| refused.1)?;
    assert_eq!(rt; ids.find_by(|name| name.as_str().cmp("Ada")), Some(ada));
    assert_eq!(rt; ids.find_by(|name| name.as_str().cmp("Alan")), None);
    Ok(())
}

#[test]
fn get_by_key(rt: HostRuntime) -> Result<(), Fail> {
    let mut users: SortedArena<u64, &str> = SortedArena::new(rt.alloc());
    let ada = users.insert(100, "Ada").map_err(|refused| refused.1)?;
    assert_eq!(rt; users.get_by_key(&100), Some((ada, &100, &"Ada")));
    Ok(())
}

#[test]
fn find_or_insert(rt: HostRuntime) -> Result<(), Fail> {
    find_or_insert_in(&rt, &mut SortedArena::new(rt.alloc()))
}

fn find_or_insert_in(
    rt: &impl Abort,
    stock: &mut SortedArena<&'static str, u32>,
) -> Result<(), Fail> {
    let (tea, back) = stock.find_or_insert("tea", 7).map_err(|refused| refused.1)?;
    assert_eq!(rt; back, None);
    assert_eq!(rt;
        stock.find_or_insert("tea", 8).map_err(|refused| refused.1)?,
        (tea, Some(8))
    );
    assert_eq!(rt; stock.get(tea), Some((&"tea", &7)));
    Ok(())
}

#[test]
fn pop_first_entry(rt: HostRuntime) -> Result<(), Fail> {
    pop_first_entry_in(&rt, &mut SortedArena::new(rt.alloc()))
}

fn pop_first_entry_in(
    rt: &impl Abort,
    users: &mut SortedArena<u64, &'static str>,
) -> Result<(), Fail> {
    let ada = users.insert(100, "Ada").map_err(|refused| refused.1)?;
    assert_eq!(rt; users.pop_first_entry(), Some((ada, 100, "Ada")));
    assert!(rt; !users.contains(ada));
    Ok(())
}

#[test]
fn pop_entries_until(rt: HostRuntime) -> Result<(), Fail> {
    pop_entries_until_in(&rt, &mut SortedArena::new(rt.alloc()))
}

fn pop_entries_until_in(
    rt: &(impl Abort + AllocGlobal),
    users: &mut SortedArena<u64, &'static str>,
) -> Result<(), Fail> {
    let ada = users.insert(100, "Ada").map_err(|refused| refused.1)?;
    users.insert(120, "Grace").map_err(|refused| refused.1)?;
    let mut ended = Vec::new(rt.alloc());
    users.pop_entries_until(&110, &mut ended)?;
    assert!(rt; ended.iter().eq(&[(ada, 100, "Ada")]));
    Ok(())
}

#[test]
fn nth(rt: HostRuntime) -> Result<(), Fail> {
    nth_in(&rt, &mut SortedArena::new(rt.alloc()))
}

fn nth_in(rt: &impl Abort, users: &mut SortedArena<u64, &'static str>) -> Result<(), Fail> {
    let grace = users.insert(120, "Grace").map_err(|refused| refused.1)?;
    users.insert(100, "Ada").map_err(|refused| refused.1)?;
    assert_eq!(rt; users.nth(1), Some(grace));
    assert_eq!(rt; users.rank_of(grace), Some(1));
    assert_eq!(rt; users.rank(&120), 1);
    Ok(())
}

#[test]
fn retain_entries(rt: HostRuntime) -> Result<(), Fail> {
    retain_entries_in(&rt, &mut SortedArena::new(rt.alloc()))
}

fn retain_entries_in(
    rt: &impl Abort,
    scores: &mut SortedArena<&'static str, u32>,
) -> Result<(), Fail> {
    let ada = scores.insert("Ada", 3).map_err(|refused| refused.1)?;
    let alan = scores.insert("Alan", 0).map_err(|refused| refused.1)?;
    scores.retain_entries(|p, _, score| p == ada || *score > 0);
    assert!(rt; scores.contains(ada));
    assert!(rt; !scores.contains(alan));
    Ok(())
}

#[test]
fn find_str(rt: HostRuntime) -> Result<(), Fail> {
    find_str_in(&rt, &mut SortedArena::new(rt.alloc()))
}

fn find_str_in(
    rt: &(impl Abort + AllocGlobal),
    ids: &mut SortedArena<String, u32>,
) -> Result<(), Fail> {
    let name = String::from_str(rt.alloc(), "Ada")?;
    let ada = ids.insert(name, 7).map_err(|refused| refused.1)?;
    assert_eq!(rt; ids.find_str("Ada"), Some(ada));
    assert_eq!(rt; ids.find_str("Alan"), None);
    assert!(rt; ids.contains_str("Ada"));
    assert!(rt; !ids.contains_str(""));
    assert_eq!(rt; ids.lower_bound_str("Aaron"), Some(ada));
    assert_eq!(rt; ids.lower_bound_str("Alan"), None);
    Ok(())
}

#[test]
fn into_iter(rt: HostRuntime) -> Result<(), Fail> {
    let mut users: SortedArena<u64, &str> = SortedArena::new(rt.alloc());
    let grace = users.insert(120, "Grace").map_err(|refused| refused.1)?;
    let ada = users.insert(100, "Ada").map_err(|refused| refused.1)?;
    users.insert(110, "Alan").map_err(|refused| refused.1)?;
    let mut entries = users.into_iter();
    assert_eq!(rt; entries.next(), Some((ada, 100, "Ada")));
    assert_eq!(rt; entries.next_back(), Some((grace, 120, "Grace")));
    assert_eq!(rt; entries.size_hint(), (1, Some(1)));
    Ok(())
}

#[test]
fn iter_between(rt: HostRuntime) -> Result<(), Fail> {
    iter_between_in(&rt, &mut SortedArena::new(rt.alloc()))
}

fn iter_between_in(
    rt: &impl Abort,
    users: &mut SortedArena<u64, &'static str>,
) -> Result<(), Fail> {
    let ada = users.insert(100, "Ada").map_err(|refused| refused.1)?;
    users.insert(110, "Alan").map_err(|refused| refused.1)?;
    let grace = users.insert(120, "Grace").map_err(|refused| refused.1)?;
    assert!(rt;
        users
            .iter_between(ada, grace)
            .expect(rt, "both")
            .keys()
            .eq(&[100, 110, 120])
    );
    assert!(rt;
        users
            .iter_between(grace, ada)
            .expect(rt, "both")
            .next()
            .is_none()
    );
    Ok(())
}

#[test]
fn range_by(rt: HostRuntime) -> Result<(), Fail> {
    range_by_in(&rt, &mut SortedArena::new(rt.alloc()))
}

fn range_by_in(rt: &impl Abort, users: &mut SortedArena<u64, &'static str>) -> Result<(), Fail> {
    for (id, name) in [(201, "Ada"), (305, "Alan"), (309, "Grace"), (412, "Kurt")] {
        users.insert(id, name).map_err(|refused| refused.1)?;
    }
    assert!(rt;
        users
            .range_by(|id| (id / 100).cmp(&3))
            .values()
            .eq(&["Alan", "Grace"])
    );
    Ok(())
}

#[test]
fn extract_if(rt: HostRuntime) -> Result<(), Fail> {
    extract_if_in(&rt, &mut SortedArena::new(rt.alloc()))
}

fn extract_if_in(
    rt: &(impl Abort + AllocGlobal),
    users: &mut SortedArena<u64, &'static str>,
) -> Result<(), Fail> {
    let ada = users.insert(100, "Ada").map_err(|refused| refused.1)?;
    users.insert(110, "Alan").map_err(|refused| refused.1)?;
    users.insert(120, "Grace").map_err(|refused| refused.1)?;
    let mut taken = Vec::new(rt.alloc());
    users.extract_if(..120, |p, _, _| p != ada, &mut taken)?;
    assert!(rt; users.keys().eq(&[100, 120]));
    Ok(())
}
