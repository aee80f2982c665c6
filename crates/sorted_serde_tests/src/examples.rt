//! The examples in the texts of `sorted_serde`.

use sorted_arena::SortedArena;
use sorted_serde::{AsPairs, FromPairs};
use std::test::Fail;

#[test]
fn as_pairs(rt: HostRuntime) -> Result<(), Fail> {
    let pairs = Vec::from_array(rt.alloc(), [(100, "Ada"), (120, "Grace")])?;
    let users: SortedArena<u64, &str> = SortedArena::from_sorted(rt.alloc(), pairs).map_err(
        |refused| refused.1,
    )?;
    let text = serde_json::to_string(rt.alloc(), &AsPairs(&users))?;
    assert_eq!(rt; text.as_str(), r#"[[100,"Ada"],[120,"Grace"]]"#);
    Ok(())
}

#[test]
fn from_pairs(rt: HostRuntime) -> Result<(), Fail> {
    let text = r#"[[120,"Grace"],[100,"Ada"]]"#;
    let FromPairs::<u64, &str>(users) = serde_json::from_str(rt.alloc(), text)?;
    assert!(rt; users.values().eq(&["Ada", "Grace"]));
    Ok(())
}
