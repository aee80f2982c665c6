//! An arena as a field of a derived type.

use serde::{Deserialize, Serialize};
use serde_json::{Error, Value};
use sorted_arena::SortedArena;
use std::alloc::Global;

/// A list of users by deadline, with a title.
#[derive(Drop, Serialize, Deserialize)]
struct Room {
    title: String,
    #[serde(with = sorted_serde)]
    users: SortedArena<u64, String>,
}

/// A room as it is written.
const ROOM: &str = r#"{"title":"Library","users":[[100,"Ada"],[120,"Grace"]]}"#;

/// The same with the pairs the other way round, and without its users.
const TURNED: &str = r#"{"users":[[120,"Grace"],[100,"Ada"]],"title":"Library"}"#;

const WITHOUT: &str = r#"{"title":"Library"}"#;

// The text of the room that a text is read as.
fn rewritten(alloc: Global, text: &str) -> Result<String, Error> {
    let room: Room = serde_json::from_str(alloc, text)?;
    serde_json::to_string(alloc, &room)
}

// The text of the room that the value of a text is read as.
fn rewritten_by_value(alloc: Global, text: &str) -> Result<String, Error> {
    let room: Room = serde_json::from_value(alloc, Value::from_str(alloc, text)?)?;
    serde_json::to_string(alloc, &room)
}

#[test]
fn a_field_is_written_and_read(rt: HostRuntime) {
    let text = rewritten(rt.alloc(), TURNED).expect(&rt, "a room");
    assert!(rt; text.as_str() == ROOM);
    let text = rewritten_by_value(rt.alloc(), TURNED).expect(&rt, "a room");
    assert!(rt; text.as_str() == ROOM);
    assert!(rt; rewritten(rt.alloc(), WITHOUT).is_err());
}
