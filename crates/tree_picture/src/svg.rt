//! Pictures as SVG.
ghost use Rattle.std.specs.Prelude.{◌≡◌, None, IfOk, flat_map, slice_get, string_bytes};
ghost use Rattle.tree_picture.specs.Drawing.{Adds};
ghost use Rattle.tree_picture.specs.Svg.{middle_of, bottom_of, box_of, frame_of, head, moved_to, lowered, group_end, key_tag, key_element, rank_element, curve_start, curve_end, line, edge_element, edge_from, edge_of, edges, link_element, link_from, list_links, links_shown, node_element, empty_sign, caption_tag, caption_text, caption_element, tree_element, panel_element, sample, legend, svg_text};

use crate::escaping::push_escaped;
use crate::picture::Node;
use crate::place::{BOX_HEIGHT, BOX_WIDTH, Kind, Place};
use crate::sheet::{Panel, Sheet, caption_height, text_width};
use crate::svg_parts::{
    EMPTY, FRAME, FULL_BOX, LEGEND_HEIGHT, LEGEND_NOTE, LEGEND_WIDTH, LINK_DEPTH, LINK_OFFSET,
    SLACK_BOX, STYLE, UNEVEN_BOX,
};
use std::alloc::{AllocError, Allocator};

/// Whether the links of the list are drawn.
#[derive(Clone, Copy, Debug, PartialEq, Eq)]
pub enum Links {
    /// Only the tree is drawn.
    Hidden,
    /// A curve below leads from each entry to the next one of the list.
    Shown,
}

/// Returns the middle of a node's box from the left, in pixels.
fn middle_of(place: &Place) -> u32
    ensures { result ≡ middle_of place.now }
{
    place.left() + BOX_WIDTH / 2
}

/// Returns the lower end of a node's box from the top, in pixels.
fn bottom_of(place: &Place) -> u32
    ensures { result ≡ bottom_of place.now }
{
    place.top() + BOX_HEIGHT
}

/// Returns the element of the box of a kind, at the origin.
fn box_of(kind: Kind) -> &'static str
    ensures { result.now ≡ box_of kind }
{
    match kind {
        Kind::Full => FULL_BOX,
        Kind::Uneven => UNEVEN_BOX,
        Kind::Slack => SLACK_BOX,
    }
}

/// Appends the beginning of the document, with its size.
fn push_head<A: Allocator>(xml: &mut String<A>, width: u32, height: u64) -> Result<(), AllocError>
    ensures { Adds result xml.old xml.new (head width height) }
{
    write!(
        xml,
        "<svg xmlns=\"http://www.w3.org/2000/svg\" class=\"ts\" role=\"img\" width=\"{width}\" height=\"{height}\" viewBox=\"0 0 {width} {height}\">\n"
    )
}

/// Appends the beginning of a group that is moved to a place.
fn push_moved_to<A: Allocator>(xml: &mut String<A>, left: u32, top: u32) -> Result<(), AllocError>
    ensures { Adds result xml.old xml.new (moved_to left top) }
{
    write!(xml, "<g transform=\"translate({left},{top})\">")
}

/// Appends the beginning of a group that is so many pixels lower.
fn push_lowered<A: Allocator>(xml: &mut String<A>, top: u32) -> Result<(), AllocError>
    ensures { Adds result xml.old xml.new (lowered top) }
{
    write!(xml, "<g transform=\"translate(0,{top})\">\n")
}

/// Appends a line from one point to another.
fn push_line<A: Allocator>(
    xml: &mut String<A>,
    x: u32,
    y: u32,
    end_x: u32,
    end_y: u32,
) -> Result<(), AllocError>
    ensures { Adds result xml.old xml.new (line x y end_x end_y) }
{
    write!(
        xml,
        "<line class=\"ts-edge\" x1=\"{x}\" y1=\"{y}\" x2=\"{end_x}\" y2=\"{end_y}\"/>\n"
    )
}

/// Appends the line from a parent to a child.
fn push_edge<A: Allocator>(
    xml: &mut String<A>,
    parent: &Place,
    child: &Place,
) -> Result<(), AllocError>
    ensures { Adds result xml.old xml.new (edge_element parent.now child.now) }
{
    let (x, y) = (middle_of(parent), bottom_of(parent));
    push_line(xml, x, y, middle_of(child), child.top())
}

/// Appends the end of a group.
fn push_group_end<A: Allocator>(xml: &mut String<A>) -> Result<(), AllocError>
    ensures { Adds result xml.old xml.new group_end }
{
    xml.push_str("</g>\n")
}

/// Appends the line from the node in a column, if there is one, to a child.
fn push_edge_from<P, A: Allocator>(
    xml: &mut String<A>,
    nodes: &[Node<P, A>],
    column: usize,
    child: &Place,
) -> Result<(), AllocError>
    ensures { Adds result xml.old xml.new (edge_from (slice_get nodes.now column) child.now) }
{
    let Some(parent) = nodes.get(column) else {
        return Ok(());
    };
    push_edge(xml, &parent.place, child)
}

/// Appends the line from a node's parent to the node, if it has a parent.
fn push_edge_to<P, A: Allocator>(
    xml: &mut String<A>,
    nodes: &[Node<P, A>],
    child: &Place,
) -> Result<(), AllocError>
    ensures { Adds result xml.old xml.new (edge_of nodes.now child.now) }
{
    match child.parent {
        None => Ok(()),
        Some(column) => push_edge_from(xml, nodes, column as usize, child),
    }
}

/// Appends the lines from the nodes' parents to the nodes.
fn push_edges<P, A: Allocator>(xml: &mut String<A>, nodes: &[Node<P, A>]) -> Result<(), AllocError>
    ensures { Adds result xml.old xml.new (edges nodes.now) }
{
    for node in nodes {
        push_edge_to(xml, nodes, &node.place)?;
    }
    Ok(())
}

/// Appends the beginning of a curve, which goes down to `low`.
fn push_curve_start<A: Allocator>(
    xml: &mut String<A>,
    x: u32,
    y: u32,
    low: u32,
) -> Result<(), AllocError>
    ensures { Adds result xml.old xml.new (curve_start x y low) }
{
    write!(xml, "<path class=\"ts-link\" d=\"M{x},{y} C{x},{low} ")
}

/// Appends the end of a curve, which comes up from `low`, with the head of an arrow.
fn push_curve_end<A: Allocator>(
    xml: &mut String<A>,
    low: u32,
    x: u32,
    y: u32,
) -> Result<(), AllocError>
    ensures { Adds result xml.old xml.new (curve_end low x y) }
{
    write!(xml, "{x},{low} {x},{y} m-4,6 l4,-6 4,6\"/>\n")
}

/// Appends the curve from the bottom of an entry's box to that of the next one of the list.
fn push_link<A: Allocator>(xml: &mut String<A>, from: &Place, to: &Place) -> Result<(), AllocError>
    ensures { Adds result xml.old xml.new (link_element from.now to.now) }
{
    let (x, y) = (middle_of(from) + LINK_OFFSET, bottom_of(from));
    let (end_x, end_y) = (middle_of(to) - LINK_OFFSET, bottom_of(to));
    let low = y.max(end_y) + LINK_DEPTH;
    push_curve_start(xml, x, y, low)?;
    push_curve_end(xml, low, end_x, end_y)
}

/// Appends the curve from the entry before, if there is one.
fn push_link_from<A: Allocator>(
    xml: &mut String<A>,
    before: Option<Place>,
    to: &Place,
) -> Result<(), AllocError>
    ensures { Adds result xml.old xml.new (link_from before to.now) }
{
    match before {
        None => Ok(()),
        Some(from) => push_link(xml, &from, to),
    }
}

/// Appends the links of the list.
fn push_links<P, A: Allocator>(xml: &mut String<A>, nodes: &[Node<P, A>]) -> Result<(), AllocError>
    ensures { Adds result xml.old xml.new (list_links None nodes.now) }
{
    let mut before = None;
    for node in nodes {
        push_link_from(xml, before, &node.place)?;
        before = Some(node.place);
    }
    Ok(())
}

/// Appends the links of the list, if they are to be drawn.
fn push_links_if_shown<P, A: Allocator>(
    xml: &mut String<A>,
    nodes: &[Node<P, A>],
    links: Links,
) -> Result<(), AllocError>
    ensures { Adds result xml.old xml.new (links_shown links nodes.now) }
{
    match links {
        Links::Hidden => Ok(()),
        Links::Shown => push_links(xml, nodes),
    }
}

/// Appends the beginning of a key that is so wide.
fn push_key_tag<A: Allocator>(xml: &mut String<A>, width: u32) -> Result<(), AllocError>
    ensures { Adds result xml.old xml.new (key_tag width) }
{
    write!(
        xml,
        "<text class=\"ts-key\" x=\"32\" y=\"19\" textLength=\"{width}\">"
    )
}

/// Appends a key, in the middle of a box.
fn push_key<A: Allocator>(xml: &mut String<A>, key: &str) -> Result<(), AllocError>
    ensures { Adds result xml.old xml.new (key_element key.now) }
{
    push_key_tag(xml, text_width(key))?;
    push_escaped(xml, key)?;
    xml.push_str("</text>")
}

/// Appends a rank, in the corner of a box.
fn push_rank<A: Allocator>(xml: &mut String<A>, rank: u8) -> Result<(), AllocError>
    ensures { Adds result xml.old xml.new (rank_element rank) }
{
    write!(
        xml,
        "<text class=\"ts-rank\" x=\"54\" y=\"10\">{rank}</text>"
    )
}

/// Returns the element of the frame around a box, or nothing.
fn frame_of(is_framed: bool) -> &'static str
    ensures { result.now ≡ frame_of is_framed }
{
    if is_framed { FRAME } else { "" }
}

/// Appends a node: its box, with the key in the middle and the rank in a corner.
fn push_node<P, A: Allocator>(xml: &mut String<A>, node: &Node<P, A>) -> Result<(), AllocError>
    ensures { Adds result xml.old xml.new (node_element node.now) }
{
    push_moved_to(xml, node.place.left(), node.place.top())?;
    xml.push_str(frame_of(node.is_framed))?;
    xml.push_str(box_of(node.place.kind))?;
    push_key(xml, node.key.as_str())?;
    push_rank(xml, node.place.rank)?;
    push_group_end(xml)
}

/// Appends the nodes.
fn push_nodes<P, A: Allocator>(xml: &mut String<A>, nodes: &[Node<P, A>]) -> Result<(), AllocError>
    ensures { Adds result xml.old xml.new (flat_map node_element nodes.now) }
{
    for node in nodes {
        push_node(xml, node)?;
    }
    Ok(())
}

/// Appends the sign of a tree without nodes, if there are none.
fn push_empty_sign<P, A: Allocator>(
    xml: &mut String<A>,
    nodes: &[Node<P, A>],
) -> Result<(), AllocError>
    ensures { Adds result xml.old xml.new (empty_sign nodes.now) }
{
    if nodes.is_empty() {
        return xml.push_str(EMPTY);
    }
    Ok(())
}

/// Appends the beginning of a caption that is so wide.
fn push_caption_tag<A: Allocator>(xml: &mut String<A>, width: u32) -> Result<(), AllocError>
    ensures { Adds result xml.old xml.new (caption_tag width) }
{
    write!(
        xml,
        "<text class=\"ts-caption\" x=\"20\" y=\"20\" textLength=\"{width}\">"
    )
}

/// Appends a caption.
fn push_caption_text<A: Allocator>(xml: &mut String<A>, caption: &str) -> Result<(), AllocError>
    ensures { Adds result xml.old xml.new (caption_text caption.now) }
{
    push_caption_tag(xml, text_width(caption))?;
    push_escaped(xml, caption)?;
    xml.push_str("</text>\n")
}

/// Appends a caption, unless it is empty.
fn push_caption<A: Allocator>(xml: &mut String<A>, caption: &str) -> Result<(), AllocError>
    ensures { Adds result xml.old xml.new (caption_element caption.now) }
{
    if caption.is_empty() {
        return Ok(());
    }
    push_caption_text(xml, caption)
}

/// Appends a tree that begins so many pixels below its caption's upper end.
fn push_tree<P, A: Allocator>(
    xml: &mut String<A>,
    nodes: &[Node<P, A>],
    top: u32,
    links: Links,
) -> Result<(), AllocError>
    ensures { Adds result xml.old xml.new (tree_element links top nodes.now) }
{
    push_lowered(xml, top)?;
    push_empty_sign(xml, nodes)?;
    push_edges(xml, nodes)?;
    push_nodes(xml, nodes)?;
    push_links_if_shown(xml, nodes, links)?;
    push_group_end(xml)
}

/// Appends a panel: a picture under its caption.
fn push_panel<P, A: Allocator>(
    xml: &mut String<A>,
    panel: &Panel<P, A>,
    links: Links,
) -> Result<(), AllocError>
    ensures { Adds result xml.old xml.new (panel_element links panel.now) }
{
    push_moved_to(xml, panel.left, panel.top)?;
    let caption = panel.caption.as_str();
    push_caption(xml, caption)?;
    push_tree(
        xml,
        panel.picture.nodes.as_slice(),
        caption_height(caption),
        links,
    )?;
    push_group_end(xml)
}

/// Appends a box of the legend: a kind's name, and below it by how much its rank exceeds those of both sides.
fn push_sample<A: Allocator>(
    xml: &mut String<A>,
    kind: Kind,
    left: u32,
    name: &str,
    differences: &str,
) -> Result<(), AllocError>
    ensures { Adds result xml.old xml.new (sample kind left name.now differences.now) }
{
    push_moved_to(xml, left, 14)?;
    xml.push_str(box_of(kind))?;
    write!(
        xml,
        "<text class=\"ts-key\" x=\"32\" y=\"19\">{name}</text><text class=\"ts-note\" x=\"32\" y=\"40\">{differences}</text></g>\n"
    )
}

/// Appends the legend, so many pixels from the top.
fn push_legend<A: Allocator>(xml: &mut String<A>, top: u32) -> Result<(), AllocError>
    ensures { Adds result xml.old xml.new (legend top) }
{
    push_lowered(xml, top)?;
    xml.push_str(LEGEND_NOTE)?;
    push_sample(xml, Kind::Full, 20, "full", "1, 1")?;
    push_sample(xml, Kind::Uneven, 96, "uneven", "1, 2")?;
    push_sample(xml, Kind::Slack, 172, "slack", "2, 2")?;
    push_group_end(xml)
}

/// Appends the panels.
fn push_panels<P, A: Allocator>(
    xml: &mut String<A>,
    panels: &[Panel<P, A>],
    links: Links,
) -> Result<(), AllocError>
    ensures { Adds result xml.old xml.new (flat_map (panel_element links) panels.now) }
{
    for panel in panels {
        push_panel(xml, panel, links)?;
    }
    Ok(())
}

/// Returns an SVG document of a sheet, with a legend below.
///
/// The form of a node's box shows its kind, as its colour does: a rectangle is full, one with round ends uneven, one with pointed ends
/// slack. All classes begin with `ts`, and no element has an id, so that several pictures fit into one page. O(n).
///
/// # Errors
///
/// `AllocError`: memory is refused.
pub fn svg_of<P, A: Allocator>(
    alloc: A,
    sheet: &Sheet<P, A>,
    links: Links,
) -> Result<String<A>, AllocError>
    ensures { IfOk result (λ svg. string_bytes svg ≡ svg_text links sheet.now) }
{
    let mut xml = String::new(alloc);
    let height = u64::from(sheet.height) + LEGEND_HEIGHT;
    push_head(&mut xml, sheet.width.max(LEGEND_WIDTH), height)?;
    xml.push_str(STYLE)?;
    push_panels(&mut xml, sheet.panels.as_slice(), links)?;
    push_legend(&mut xml, sheet.height)?;
    xml.push_str("</svg>\n")?;
    Ok(xml)
}
