//! The pictures of a script.
use crate::error::DrawError;
use crate::options::{Form, Moment};
use ord_script::{Pair, PairArena, PairCommand, PairReply, parse, run};
use std::alloc::{AllocError, Global};
use std::cmp::Ordering;
use std::collections::HashSet;
use std::str;
use tree_picture::{Node, Picture, Sheet, picture_of, svg_of, text_of};
use triple_ord::{OrdInsertionError, P0, SimpleOrdArena};

/// Returns the command on a line, if it is neither blank nor a comment. The line ends as it was read.
fn command_on(alloc: Global, number: usize, line: &[u8]) -> Result<Option<PairCommand>, DrawError> {
    let mut script = parse(alloc, line)?;
    match script.fault {
        Some(fault) => Err(DrawError::Fault(number, fault.kind)),
        None => Ok(script.commands.pop()),
    }
}

/// Returns whether memory was refused to a command.
fn is_out_of_memory(reply: &PairReply<Global>) -> bool {
    matches!(
        reply,
        ord_script::Reply::Refused(OrdInsertionError::AllocError)
    )
}

/// Runs a command.
fn obey(
    alloc: Global,
    arena: &mut PairArena<Global>,
    command: PairCommand,
) -> Result<(), DrawError> {
    let mut commands = Vec::with_capacity(alloc, 1)?;
    commands.push(command)?;
    // No line of a script searches by a closure.
    let mut closure = |_p: P0, _pair: &Pair| Ordering::Equal;
    let replies = run(alloc, arena, commands, &mut closure)?;
    if replies.iter().any(is_out_of_memory) {
        return Err(DrawError::Memory);
    }
    Ok(())
}

/// Returns the text of a comment, if a line is one.
fn comment_on(line: &[u8]) -> Option<&str> {
    let text = str::from_utf8(line).ok()?;
    Some(text.trim_ascii().strip_prefix("#")?.trim_ascii())
}

/// Returns what stands above a step: its command, and the script's comment on it, if there is one.
fn caption_of(alloc: Global, line: &[u8], comment: &[u8]) -> Result<String, AllocError> {
    let command = str::from_utf8(line).unwrap_or("").trim_ascii();
    match comment_on(comment) {
        Some(comment) => format!(in alloc; "{command}: {comment}"),
        None => String::from_str(alloc, command),
    }
}

/// What is compared of a node: its pointer, its rank, and the pointer of its parent.
type Standing = (P0, u8, Option<P0>);

/// Returns what is compared of a node of a picture.
fn standing(picture: &Picture<P0>, node: &Node<P0>) -> Standing {
    let parent = match node.place.parent {
        Some(column) => picture
            .nodes
            .get(column as usize)
            .map(|parent| parent.pointer),
        None => None,
    };
    (node.pointer, node.place.rank, parent)
}

/// Returns what is compared of each node of a picture, in order.
fn standings(alloc: Global, picture: &Picture<P0>) -> Result<Vec<Standing>, AllocError> {
    let mut standings = Vec::with_capacity(alloc, picture.nodes.len())?;
    for node in &picture.nodes {
        standings.push(standing(picture, node))?;
    }
    Ok(standings)
}

/// Frames the nodes of a picture that the picture before doesn't have, or has with another rank or under another parent.
fn frame_changes(
    alloc: Global,
    before: Option<&Picture<P0>>,
    picture: &mut Picture<P0>,
) -> Result<(), AllocError> {
    let mut known = HashSet::new(alloc);
    if let Some(before) = before {
        for standing in standings(alloc, before)? {
            let _ = known.insert(standing)?;
        }
    }
    let now = standings(alloc, picture)?;
    let mut rest = now.iter();
    for node in picture.nodes.as_mut_slice() {
        node.is_framed = !rest.next().is_some_and(|standing| known.contains(standing));
    }
    Ok(())
}

/// Adds the picture of the tree as it is now.
fn add_picture(
    alloc: Global,
    sheet: &mut Sheet<P0>,
    arena: &PairArena<Global>,
    caption: &str,
) -> Result<(), DrawError> {
    let picture = picture_of(alloc, arena)?;
    sheet.push(alloc, caption, picture)?;
    Ok(())
}

/// Adds the picture of a step: of the tree as it is now, with a frame around each node that has changed since the step before.
fn add_step(
    alloc: Global,
    sheet: &mut Sheet<P0>,
    arena: &PairArena<Global>,
    caption: &str,
) -> Result<(), DrawError> {
    let mut picture = picture_of(alloc, arena)?;
    let before = sheet.panels.last().map(|panel| &panel.picture);
    frame_changes(alloc, before, &mut picture)?;
    sheet.push(alloc, caption, picture)?;
    Ok(())
}

/// Runs a script on an empty arena, line by line, and draws its tree: after each command, under the command and the last comment before
/// it; or after the last line.
pub fn sheet_of(alloc: Global, script: &[u8], moment: Moment) -> Result<Sheet<P0>, DrawError> {
    let mut arena: PairArena<Global> = SimpleOrdArena::new(alloc);
    let mut sheet = Sheet::new(alloc);
    let mut comment: &[u8] = b"";
    for (index, line) in script.split_inclusive(|b| *b == b'\n').enumerate() {
        if comment_on(line).is_some() {
            comment = line;
        }
        if let Some(command) = command_on(alloc, index.saturating_add(1), line)? {
            obey(alloc, &mut arena, command)?;
            if matches!(moment, Moment::EachStep) {
                let caption = caption_of(alloc, line, comment)?;
                add_step(alloc, &mut sheet, &arena, caption.as_str())?;
            }
            comment = b"";
        }
    }
    if matches!(moment, Moment::End) {
        add_picture(alloc, &mut sheet, &arena, "")?;
    }
    Ok(sheet)
}

/// Returns the text of each picture under its caption.
fn texts_of(alloc: Global, sheet: &Sheet<P0>) -> Result<String, AllocError> {
    let mut texts = String::new(alloc);
    for panel in &sheet.panels {
        let caption = panel.caption.as_str();
        if !caption.is_empty() {
            texts.push_str(caption)?;
            texts.push_str("\n\n")?;
        }
        texts.push_str(text_of(alloc, &panel.picture)?.as_str())?;
        if !caption.is_empty() {
            texts.push('\n')?;
        }
    }
    Ok(texts)
}

/// Returns a sheet in a form.
pub fn written(alloc: Global, sheet: &Sheet<P0>, form: Form) -> Result<String, AllocError> {
    match form {
        Form::Svg(links) => svg_of(alloc, sheet, links),
        Form::Text => texts_of(alloc, sheet),
    }
}
