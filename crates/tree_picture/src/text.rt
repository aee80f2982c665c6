//! A picture in box characters, for a terminal.
ghost use Rattle.std.specs.Prelude.{◌≡◌, ◌/◌, true, false, [], ◌++◌, IfOk, IsOk, string_bytes, length};
ghost use Rattle.std.specs.Str.{chars, trim_end};
ghost use Rattle.tree_picture.specs.Drawing.{Adds, label_text, widest_label, stroke, half_up, label_cell, is_lesser, goes_on, parent_sign, child_sign, sign_at, level_cell, level_cells, branch_cells, line_of, line_unless_blank, level_lines, drawing};

use crate::key_text::char_count;
use crate::picture::{Node, Picture};
use crate::place::{Kind, Place};
use std::alloc::{AllocError, Allocator};
use std::fmt::Write;

/// Returns a node's key and rank, between brackets that show its kind.
fn label<P, A: Allocator + Copy>(alloc: A, node: &Node<P, A>) -> Result<String<A>, AllocError>
    ensures { IfOk result (λ label. string_bytes label ≡ label_text node.now) }
{
    let (key, rank) = (node.key.as_str(), node.place.rank);
    match node.place.kind {
        Kind::Full => format!(in alloc; "[{key}:{rank}]"),
        Kind::Uneven => format!(in alloc; "({key}:{rank})"),
        Kind::Slack => format!(in alloc; "<{key}:{rank}>"),
    }
}

/// Returns the number of characters of a node's label.
fn label_width<P, A: Allocator + Copy>(alloc: A, node: &Node<P, A>) -> Result<usize, AllocError>
    ensures { IfOk result (λ width. width ≡ length (chars (label_text node.now))) }
{
    let label = label(alloc, node)?;
    Ok(char_count(label.as_str()))
}

/// Returns the number of characters of the widest label.
#[tactic(auto, using(crate::proofs::Widest::widest_more))]
fn widest_label<P, A: Allocator + Copy>(alloc: A, nodes: &[Node<P, A>]) -> Result<usize, AllocError>
    ensures value { IfOk result (λ widest. widest ≡ widest_label nodes.now) }
    ensures none { nodes.now ≡ [] → IsOk result }
{
    let mut widest = 0usize;
    for node in nodes {
        widest = widest.max(label_width(alloc, node)?);
    }
    Ok(widest)
}

/// Returns half of a number, rounded up.
fn half_up(n: usize) -> usize
    ensures { result ≡ half_up n }
{
    n - n / 2
}

/// Appends so many blanks, or dashes.
fn push_stroke<A: Allocator + Copy>(
    alloc: A,
    row: &mut String<A>,
    is_drawn: bool,
    n: usize,
) -> Result<(), AllocError>
    ensures { Adds result row.old row.new (stroke is_drawn n) }
{
    if is_drawn {
        row.push_str("─".repeat(alloc, n)?.as_str())
    } else {
        row.push_str(" ".repeat(alloc, n)?.as_str())
    }
}

/// Appends a label in the middle of its column.
fn push_label<A: Allocator + Copy>(
    alloc: A,
    row: &mut String<A>,
    width: usize,
    label: &str,
) -> Result<(), AllocError>
    ensures { Adds result row.old row.new (label_cell width label.now) }
{
    let blanks = width.saturating_sub(char_count(label));
    push_stroke(alloc, row, false, half_up(blanks))?;
    row.push_str(label)?;
    push_stroke(alloc, row, false, blanks / 2)?;
    row.push_str(" ")
}

/// Appends a node's column in the row of the level at a depth: its label if it is on that level, else blanks.
fn push_level_cell<P, A: Allocator + Copy>(
    alloc: A,
    row: &mut String<A>,
    node: &Node<P, A>,
    width: usize,
    depth: u16,
) -> Result<(), AllocError>
    ensures { Adds result row.old row.new (level_cell width depth node.now) }
{
    if node.place.depth == depth {
        let label = label(alloc, node)?;
        push_label(alloc, row, width, label.as_str())
    } else {
        push_stroke(alloc, row, false, width)?;
        row.push_str(" ")
    }
}

/// Returns the row of the level at a depth: each of its nodes is in its column.
fn level_row<P, A: Allocator + Copy>(
    alloc: A,
    nodes: &[Node<P, A>],
    width: usize,
    depth: u16,
) -> Result<String<A>, AllocError>
    ensures { IfOk result (λ row. string_bytes row ≡ level_cells width depth nodes.now) }
{
    let mut row = String::new(alloc);
    for node in nodes {
        push_level_cell(alloc, &mut row, node, width, depth)?;
    }
    Ok(row)
}

/// Returns whether a node is its parent's lesser child.
fn is_lesser(place: &Place) -> bool
    ensures { result ≡ is_lesser place.now }
{
    match place.parent {
        Some(above) => place.column < above,
        None => false,
    }
}

/// Returns whether the line below the level at `depth` goes on behind a node.
fn goes_on(depth: u16, place: &Place, before: bool) -> bool
    ensures { result ≡ goes_on depth place.now before }
{
    if place.depth == depth {
        place.has_greater
    } else if u32::from(place.depth) == u32::from(depth) + 1 {
        is_lesser(place)
    } else {
        before
    }
}

/// Returns the sign at a parent, by whether the line is drawn up to it and behind it.
fn parent_sign(before: bool, behind: bool) -> char
    ensures { result ≡ parent_sign before behind }
{
    match (before, behind) {
        (true, true) => '┴',
        (true, false) => '┘',
        (false, true) => '└',
        (false, false) => ' ',
    }
}

/// Returns the sign at a child, by whether the line is drawn behind it.
fn child_sign(behind: bool) -> char
    ensures { result ≡ child_sign behind }
{
    if behind { '┌' } else { '┐' }
}

/// Appends the sign of a node on the line below the level at `depth`.
fn push_sign<A: Allocator + Copy>(
    alloc: A,
    row: &mut String<A>,
    depth: u16,
    place: &Place,
    before: bool,
    behind: bool,
) -> Result<(), AllocError>
    ensures { Adds result row.old row.new (sign_at depth place.now before behind) }
{
    if place.depth == depth {
        row.push(parent_sign(before, behind))
    } else if u32::from(place.depth) == u32::from(depth) + 1 {
        row.push(child_sign(behind))
    } else {
        push_stroke(alloc, row, before, 1)
    }
}

/// Returns the row below the level at a depth, which joins its nodes to their children.
fn branch_row<P, A: Allocator + Copy>(
    alloc: A,
    nodes: &[Node<P, A>],
    width: usize,
    depth: u16,
) -> Result<String<A>, AllocError>
    ensures { IfOk result (λ row. string_bytes row ≡ branch_cells width depth false nodes.now) }
{
    let mut row = String::new(alloc);
    let mut before = false;
    for node in nodes {
        let behind = goes_on(depth, &node.place, before);
        push_stroke(alloc, &mut row, before, half_up(width))?;
        push_sign(alloc, &mut row, depth, &node.place, before, behind)?;
        push_stroke(alloc, &mut row, behind, width / 2)?;
        before = behind;
    }
    Ok(row)
}

/// Appends a row as a line, without the blanks at its end.
fn push_line<A: Allocator>(text: &mut String<A>, row: &str) -> Result<(), AllocError>
    ensures { Adds result text.old text.new (line_of row.now) }
{
    text.push_str(row.trim_end())?;
    text.push_str("\n")
}

/// Appends a row as a line, or nothing if it is blank.
fn push_line_unless_blank<A: Allocator>(text: &mut String<A>, row: &str) -> Result<(), AllocError>
    ensures { Adds result text.old text.new (line_unless_blank row.now) }
{
    if row.trim_end().is_empty() {
        return Ok(());
    }
    push_line(text, row)
}

/// Appends the lines of a level: the level itself, and what joins it to the next one.
fn push_level<P, A: Allocator + Copy>(
    alloc: A,
    text: &mut String<A>,
    nodes: &[Node<P, A>],
    width: usize,
    depth: u16,
) -> Result<(), AllocError>
    ensures { Adds result text.old text.new (level_lines width nodes.now depth) }
{
    let level = level_row(alloc, nodes, width, depth)?;
    push_line(text, level.as_str())?;
    let branches = branch_row(alloc, nodes, width, depth)?;
    push_line_unless_blank(text, branches.as_str())
}

/// Returns a picture as lines of text: a level a line, with lines between that join each node to its parent.
///
/// A node is its key and its rank, `[key:rank]` if it is full, `(key:rank)` if it is uneven and `<key:rank>` if it is slack. The text of
/// an empty picture is empty. O(n) for each level.
///
/// # Errors
///
/// `AllocError`: an allocation failed. An empty picture needs none.
pub fn text_of<P, A: Allocator + Copy>(
    alloc: A,
    picture: &Picture<P, A>,
) -> Result<String<A>, AllocError>
    ensures value { IfOk result (λ text. string_bytes text ≡ drawing picture.now) }
    ensures none { picture.now.nodes.items ≡ [] → picture.now.levels ≡ 0 → IsOk result }
{
    let nodes = picture.nodes.as_slice();
    let width = widest_label(alloc, nodes)?;
    let mut text = String::new(alloc);
    for depth in 0..picture.levels {
        push_level(alloc, &mut text, nodes, width, depth)?;
    }
    Ok(text)
}
