//! The parts of an SVG picture that are always the same.
use crate::place::{BOX_HEIGHT, BOX_WIDTH};

/// How far from the middle of a box the links of the list begin and end, in pixels.
pub(crate) const LINK_OFFSET: u32 = 8;

/// How far below the lower one of two boxes the link between them is drawn to, in pixels.
pub(crate) const LINK_DEPTH: u32 = 22;

/// The width of the legend, in pixels.
pub(crate) const LEGEND_WIDTH: u32 = 300;

/// The height of the legend, in pixels.
pub(crate) const LEGEND_HEIGHT: u64 = 68;

/// What every picture begins with, behind its size.
pub(crate) const STYLE: &str = "\
<title>The balanced tree of an ordered arena</title>
<desc>A node is a box with its key and, in the corner, its rank. A rectangle is full: its rank exceeds those of both sides by one. A box \
with round ends is uneven: by one and by two. A box with pointed ends is slack: by two on both sides. A framed node is new, \
or has another rank or another parent than before.</desc>
<style>
.ts text { font: 12px monospace; fill: #111; text-anchor: middle; }
.ts .ts-rank { font-size: 9px; fill: #777; text-anchor: end; }
.ts .ts-note { font-size: 10px; fill: #666; }
.ts .ts-caption, .ts .ts-legend { text-anchor: start; }
.ts-page { fill: #fff; }
.ts-edge { stroke: #555; stroke-width: 1.5; }
.ts-frame { fill: none; stroke: #666; stroke-dasharray: 4 3; }
.ts-link { fill: none; stroke: #b33; }
.ts-full { fill: #d9ecd9; stroke: #265; stroke-width: 1.5; }
.ts-uneven { fill: #e2eaf6; stroke: #248; stroke-width: 1.5; }
.ts-slack { fill: #fbe3c4; stroke: #a50; stroke-width: 1.5; }
@media (prefers-color-scheme: dark) {
.ts text { fill: #eee; }
.ts .ts-rank, .ts .ts-note { fill: #aaa; }
.ts-page { fill: #16181d; }
.ts-edge, .ts-frame { stroke: #999; }
.ts-link { stroke: #f88; }
.ts-full { fill: #1d3b2a; stroke: #6c9; }
.ts-uneven { fill: #1e2f4d; stroke: #8ae; }
.ts-slack { fill: #4a3214; stroke: #ea5; }
}
</style>
<rect class=\"ts-page\" width=\"100%\" height=\"100%\"/>
";

// The three boxes, and the places of the texts in them, are written for this size.
const _: () = prove!(BOX_WIDTH == 64 && BOX_HEIGHT == 28);

/// The box of a full node.
pub(crate) const FULL_BOX: &str = "<rect class=\"ts-full\" width=\"64\" height=\"28\"/>";

/// The box of an uneven node.
pub(crate) const UNEVEN_BOX: &str =
    "<rect class=\"ts-uneven\" width=\"64\" height=\"28\" rx=\"14\"/>";

/// The box of a slack node.
pub(crate) const SLACK_BOX: &str =
    "<path class=\"ts-slack\" d=\"M0,14 l10,-14 h44 l10,14 l-10,14 h-44 z\"/>";

/// The frame around a node that has changed.
pub(crate) const FRAME: &str =
    "<rect class=\"ts-frame\" x=\"-4\" y=\"-4\" width=\"72\" height=\"36\" rx=\"6\"/>";

/// A tree without nodes.
pub(crate) const EMPTY: &str = "<text class=\"ts-key\" x=\"32\" y=\"14\">∅</text>\n";

/// What the legend says of its samples.
pub(crate) const LEGEND_NOTE: &str =
    "<text class=\"ts-note ts-legend\" x=\"20\" y=\"6\">rank above both sides by (framed: changed)</text>\n";
