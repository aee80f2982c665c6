//! Arenas that are written, and read again.

use serde_json::{Error, Value};
use sorted_arena::SortedArena;
use sorted_serde::{AsPairs, FromPairs};
use std::alloc::{AllocError, Global};

// The text of the arena that a text is read as.
fn rewritten(alloc: Global, text: &str) -> Result<String, Error> {
    let FromPairs::<u64, &str>(arena) = serde_json::from_str(alloc, text)?;
    serde_json::to_string(alloc, &AsPairs(&arena))
}

// The text of the arena that the value of a text is read as.
fn rewritten_by_value(alloc: Global, text: &str) -> Result<String, Error> {
    let value = Value::from_str(alloc, text)?;
    let FromPairs::<u64, String>(arena) = serde_json::from_value(alloc, value)?;
    serde_json::to_string(alloc, &AsPairs(&arena))
}

/// A text, and what is written of the arena that it is read as.
const TEXTS: &[(&str, &str)] = &[
    ("[]", "[]"),
    (r#"[[7,"x"]]"#, r#"[[7,"x"]]"#),
    (
        r#"[[1,"a"],[1,"b"],[2,"c"]]"#,
        r#"[[1,"a"],[1,"b"],[2,"c"]]"#,
    ),
    (
        r#"[ [3,"a"], [1,"b"], [3,"c"], [1,"d"], [2,"e"], [3,"f"] ]"#,
        r#"[[1,"b"],[1,"d"],[2,"e"],[3,"a"],[3,"c"],[3,"f"]]"#,
    ),
    (
        r#"[[18446744073709551615,"last"],[0,"first"]]"#,
        r#"[[0,"first"],[18446744073709551615,"last"]]"#,
    ),
];

#[test]
fn pairs_come_back_in_the_order_of_their_keys(rt: HostRuntime) {
    for (text, written) in TEXTS {
        let lent = rewritten(rt.alloc(), text).expect(&rt, "a list of pairs");
        assert!(rt; lent.as_str() == *written, "{text}");
        let owned = rewritten_by_value(rt.alloc(), text).expect(&rt, "a list of pairs");
        assert!(rt; owned.as_str() == *written, "{text}");
    }
}

/// Ages by name.
type Ages = SortedArena<String, u64>;

// Puts down an age.
fn put(ages: &mut Ages, alloc: Global, name: &str, age: u64) -> Result<(), AllocError> {
    let name = String::from_str(alloc, name)?;
    match ages.insert(name, age) {
        Ok(_) => Ok(()),
        Err(_) => Err(AllocError),
    }
}

// Some ages, of which one was removed and two have the same name.
fn ages(alloc: Global) -> Result<Ages, AllocError> {
    let mut ages = SortedArena::new(alloc);
    put(&mut ages, alloc, "Grace", 37)?;
    put(&mut ages, alloc, "Alan", 41)?;
    put(&mut ages, alloc, "Ada", 36)?;
    let _ = ages.pop_first();
    put(&mut ages, alloc, "Alan", 5)?;
    Ok(ages)
}

fn written(alloc: Global, ages: &Ages) -> Result<String, Error> {
    serde_json::to_string(alloc, &AsPairs(ages))
}

fn read(alloc: Global, text: &str) -> Result<Ages, Error> {
    let FromPairs(ages) = serde_json::from_str(alloc, text)?;
    Ok(ages)
}

#[test]
fn an_arena_equals_what_its_text_is_read_as(rt: HostRuntime) {
    let ages = ages(rt.alloc()).expect(&rt, "memory");
    let text = written(rt.alloc(), &ages).expect(&rt, "memory");
    assert!(rt; text.as_str() == r#"[["Alan",41],["Alan",5],["Grace",37]]"#);
    assert!(rt; read(rt.alloc(), &text).expect(&rt, "ages") == ages);
}
