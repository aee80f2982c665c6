//! Cutting a script into lines, and a line into words.
ghost use Rattle.std.specs.Prelude.{◌≡◌, ◌==◌, [], ◌∷◌, ◌<◌, not, length, IfSome, MatchOption, position};
ghost use Rattle.std.specs.Str.Lines.{lines, strip_carriage_return};
ghost use Rattle.ord_script.specs.Script.{is_blank, words_of};

use std::marker::Model;

/// The words that are left of a line.
#[derive(Drop)]
pub struct Words<'a> {
    rest: &'a [u8],
}

impl<'a> Model for Words<'a> {
    ghost use Rattle.std.specs.Prelude.{List, ℕ};
    ghost use Rattle.ord_script.specs.Script.{words_of};

    ghost Value = { List (List ℕ) };

    ghost view = { λ a. words_of a.rest.now };
}

impl<'a> Words<'a> {
    /// Creates the words of a line: what is between spaces and tabs.
    pub fn new(line: &'a [u8]) -> Self
        ensures { result ≡ words_of line.now }
    {
        Words { rest: line }
    }
}

impl<'a> Iterator for Words<'a> {
    ghost use Rattle.std.specs.Iterator.{YieldsFirstRef, item_count};

    type Item = &'a [u8];

    ghost next_gives = { YieldsFirstRef (λ left. left) };

    ghost remaining = { item_count (λ left. left) };

    fn next(&mut self) -> Option<&'a [u8]> {
        let (word, rest) = first_word(self.rest)?;
        self.rest = rest;
        Some(word)
    }
}

/// Returns the first line and the rest. A line ends with LF or CR LF, which isn't part of it; the last line may end with the bytes.
pub fn first_line(bytes: &[u8]) -> Option<(&[u8], &[u8])>
    ensures shorter { IfSome result (λ cut. length cut.1.now < length bytes.now) }
    ensures cut { MatchOption result (lines bytes.now ≡ [])
        (λ cut. lines bytes.now ≡ cut.0.now ∷ lines cut.1.now) }
{
    if bytes.is_empty() {
        return None;
    }
    match newline(bytes) {
        Some(end) => Some((without_return(&bytes[..end]), &bytes[end + 1..])),
        None => Some((bytes, &bytes[bytes.len()..])),
    }
}

/// Returns the position of the first LF.
fn newline(bytes: &[u8]) -> Option<usize>
    ensures { result ≡ position (λ b. b == 10) bytes.now }
{
    bytes.iter().position(|b| *b == b'\n')
}

/// Returns the line without the CR at its end, if any.
fn without_return(line: &[u8]) -> &[u8]
    ensures { result.now ≡ strip_carriage_return line.now }
{
    match line.last() {
        Some(b'\r') => &line[..line.len() - 1],
        _ => line,
    }
}

/// Returns the first word and the rest.
fn first_word(line: &[u8]) -> Option<(&[u8], &[u8])>
    ensures { MatchOption result (words_of line.now ≡ [])
        (λ cut. words_of line.now ≡ cut.0.now ∷ words_of cut.1.now) }
{
    let rest = &line[word_start(line)?..];
    match word_end(rest) {
        Some(end) => Some((&rest[..end], &rest[end..])),
        None => Some((rest, &rest[rest.len()..])),
    }
}

/// Returns the position of the first byte that isn't a blank.
fn word_start(bytes: &[u8]) -> Option<usize>
    ensures { result ≡ position (λ b. not (is_blank b)) bytes.now }
{
    bytes.iter().position(|b| !is_blank(*b))
}

/// Returns the position of the first blank.
fn word_end(bytes: &[u8]) -> Option<usize>
    ensures { result ≡ position is_blank bytes.now }
{
    bytes.iter().position(|b| is_blank(*b))
}

/// Returns whether a byte is a space or a tab.
fn is_blank(b: u8) -> bool
    ensures { result ≡ is_blank b }
{
    b == b' ' || b == b'\t'
}
