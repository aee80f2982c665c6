//! Answers in JSON, each a line.

ghost use Rattle.std.specs.Prelude.{◌≡◌, ◌++◌, ◌∷◌, [], ℕ, List, false, true, codes, IfOk, OnOk, string_bytes};
ghost use Rattle.std.specs.Io.KnownBytes.{Appends};
ghost use Rattle.serde_json.specs.Data.{boolean, number, unsigned, string, object, member, no_members};
ghost use Rattle.serde_json.specs.View.{view};
ghost use Rattle.serde_json.specs.Written.{compact_text, has_float};

use serde_json::{Map, Value, json};
use std::alloc::{AllocError, Global};
use std::fmt::Display;
use std::io;
use std::io::Write;

/// Returns the answer to a line that isn't obeyed: its number and the reason.
///
/// # Errors
///
/// An allocation failed.
pub fn complaint(alloc: Global, line: u64, reason: impl Display + Drop) -> Result<Value, AllocError>
    ensures { IfOk result (λ value. (reason : List ℕ) × (view value ≡ object (member (codes "error") (string reason)
        (member (codes "line") (number (unsigned line)) no_members)))) }
{
    let reason = format!(in alloc; "{reason}")?;
    json!(in alloc; {"line": line, "error": reason})
}

/// Returns the answer that something was done.
///
/// # Errors
///
/// An allocation failed.
pub fn done_value(alloc: Global) -> Result<Value, AllocError>
    ensures { IfOk result (λ value. view value ≡ object (member (codes "done") (boolean true) no_members)) }
{
    json!(in alloc; {"done": true})
}

/// Returns the answer to a line that says nothing: an object without members.
pub fn blank_value(alloc: Global) -> Value
    ensures { view result ≡ object no_members }
{
    Value::Object(Map::new(alloc))
}

/// Returns the text of a value without spaces, as a line. It has no other line end.
///
/// # Errors
///
/// An allocation failed.
pub fn json_line(alloc: Global, value: &Value) -> Result<String, AllocError>
    ensures { has_float (view value.now) ≡ false
        → IfOk result (λ text. string_bytes text ≡ compact_text (view value.now) ++ 10 ∷ []) }
{
    let mut text = value.to_string(alloc)?;
    text.push('\n')?;
    Ok(text)
}

/// Writes the text of a value without spaces, as a line.
///
/// # Errors
///
/// Writing failed, or memory for the text is refused.
pub fn write_json<W: Write>(alloc: Global, out: &mut W, value: &Value) -> io::Result<()>
    ensures { has_float (view value.now) ≡ false
        → OnOk result (Appends (W.contents out.old) (W.contents out.new) (compact_text (view value.now) ++ 10 ∷ [])) }
{
    let text = json_line(alloc, value)?;
    out.write_all(text.as_bytes())
}
