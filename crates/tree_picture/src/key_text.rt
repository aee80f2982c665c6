//! Keys and captions, cut to what fits.
ghost use Rattle.std.specs.Prelude.{◌≡◌, ◌<◌, IfOk, OnErr, string_bytes, length, take, encode_utf8, flat_map};
ghost use Rattle.std.specs.Str.{chars};
ghost use Rattle.tree_picture.specs.Text.{shortened_text};

use std::alloc::{AllocError, Allocator};

/// Returns the number of characters.
pub(crate) fn char_count(text: &str) -> usize
    ensures { result ≡ length (chars text.now) }
{
    text.chars().count()
}

/// Returns the first n characters.
fn beginning<A: Allocator>(alloc: A, text: &str, n: usize) -> Result<String<A>, AllocError>
    ensures { IfOk result
        (λ begun. string_bytes begun ≡ flat_map encode_utf8 (take n (chars text.now))) }
{
    let mut begun = String::new(alloc);
    for c in text.chars().take(n) {
        begun.push(c)?;
    }
    Ok(begun)
}

/// Returns the text if it has at most so many characters, else all but the last of these and an ellipsis.
///
/// # Errors
///
/// `AllocError`: an allocation failed. The empty text needs none.
pub fn shortened<A: Allocator>(alloc: A, text: &str, most: usize) -> Result<String<A>, AllocError>
    requires { 0 < most }
    ensures value { IfOk result (λ short. string_bytes short ≡ shortened_text most text.now) }
    ensures memory { OnErr result (0 < length text.now) }
{
    if text.is_empty() {
        return Ok(String::new(alloc));
    }
    if char_count(text) <= most {
        return String::from_str(alloc, text);
    }
    let mut short = beginning(alloc, text, most - 1)?;
    short.push('…')?;
    Ok(short)
}
