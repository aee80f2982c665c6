//! Texts that are refused.

use serde_json::error::Category;
use serde_json::{Error, Value};
use sorted_arena::{P0, P8};
use sorted_serde::FromPairs;
use std::alloc::{AllocError, Global};

/// Texts that are no list of pairs of a number and a text, and what their error is about.
const REFUSED: &[(&str, Category)] = &[
    ("{}", Category::Data),
    ("null", Category::Data),
    ("[1]", Category::Data),
    ("[[1]]", Category::Data),
    (r#"[[1,"a",2]]"#, Category::Data),
    (r#"[[1,"a"],[2,2]]"#, Category::Data),
    (r#"[[-1,"a"]]"#, Category::Data),
    (r#"{"1":"a"}"#, Category::Data),
    (r#"[[1,"a"]"#, Category::Eof),
    (r#"[[1,"a"],]"#, Category::Syntax),
    (r#"[[1,"a"]] 2"#, Category::Syntax),
];

fn read(alloc: Global, text: &str) -> Result<FromPairs<u64, String, P0>, Error> {
    serde_json::from_str(alloc, text)
}

#[test]
fn texts_that_are_no_lists_of_pairs(rt: HostRuntime) {
    for (text, about) in REFUSED {
        match read(rt.alloc(), text) {
            Ok(_) => assert!(rt; false, "{text}"),
            Err(error) => assert!(rt; error.classify() == *about, "{text}"),
        }
    }
}

// A list of so many pairs.
fn listed(alloc: Global, count: usize) -> Result<String, AllocError> {
    let mut text = String::from_str(alloc, "[[0,0]")?;
    for _ in 1..count {
        text.push_str(",[0,0]")?;
    }
    text.push_str("]")?;
    Ok(text)
}

// How many pairs an arena has that is read from such a list, and how many it has room for.
fn counts(alloc: Global, text: &str) -> Result<(usize, usize), Error> {
    let FromPairs::<u64, u64, P8>(arena) = serde_json::from_str(alloc, text)?;
    Ok((arena.len(), arena.capacity()))
}

#[test]
fn more_pairs_than_indexes(rt: HostRuntime) {
    let most = listed(rt.alloc(), 254).expect(&rt, "memory");
    assert!(rt; counts(rt.alloc(), &most).ok() == Some((254, 254)));
    let more = listed(rt.alloc(), 255).expect(&rt, "memory");
    let refused = counts(rt.alloc(), &more).err().expect(&rt, "an error");
    assert!(rt; refused.is_data() && !refused.is_memory());
}
