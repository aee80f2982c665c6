//! Text in XML.
ghost use Rattle.std.specs.Prelude.{◌≡◌, ◌++◌, OnOk, IfOk, string_bytes};
ghost use Rattle.tree_picture.specs.Text.{entity_of, escaped, is_foreign};

use std::alloc::{AllocError, Allocator};

/// Returns whether XML has no such character.
fn is_foreign(c: char) -> bool
    ensures { result ≡ is_foreign c }
{
    let is_control = c < ' ' && c != '\t' && c != '\n' && c != '\r';
    is_control || c == '\u{fffe}' || c == '\u{ffff}'
}

/// Appends a character as XML text.
fn push_character<A: Allocator>(xml: &mut String<A>, c: char) -> Result<(), AllocError>
    ensures { OnOk result (string_bytes xml.new ≡ string_bytes xml.old ++ entity_of c) }
{
    match c {
        '&' => xml.push_str("&amp;"),
        '<' => xml.push_str("&lt;"),
        '>' => xml.push_str("&gt;"),
        '"' => xml.push_str("&quot;"),
        '\'' => xml.push_str("&apos;"),
        c if is_foreign(c) => xml.push('\u{fffd}'),
        c => xml.push(c),
    }
}

/// Appends a text as XML text: what marks something up goes in as an entity, and a character that XML doesn't have as U+FFFD.
///
/// # Errors
///
/// `AllocError`: memory is refused. A beginning of the text may have been appended.
pub fn push_escaped<A: Allocator>(xml: &mut String<A>, text: &str) -> Result<(), AllocError>
    ensures { OnOk result (string_bytes xml.new ≡ string_bytes xml.old ++ escaped text.now) }
{
    for c in text.chars() {
        push_character(xml, c)?;
    }
    Ok(())
}
