//! The colours of the curves. Each class begins with `tsb`, so that the picture can share a page with others.

/// The style sheet: a light page, and a dark one where the reader prefers it.
pub const STYLE: &str = "<style>
.tsb text { font: 11px sans-serif; fill: #444; }
.tsb .tsb-measure { font-size: 12px; font-weight: bold; fill: #111; }
.tsb .tsb-number { text-anchor: end; }
.tsb .tsb-entries { text-anchor: middle; }
.tsb .tsb-level { font-size: 9px; fill: #777; }
.tsb .tsb-name { fill: currentColor; stroke: #fff; stroke-width: 3; paint-order: stroke; }
.tsb-page { fill: #fff; }
.tsb-rule { stroke: #ddd; }
.tsb-cache { stroke: #999; stroke-width: 0.75; stroke-dasharray: 2 3; }
.tsb-curve { fill: none; stroke: currentColor; stroke-width: 1.75; }
.tsb-dot { fill: currentColor; }
.tsb-ours { color: #1f6f43; }
.tsb-map { color: #2b4c8c; }
.tsb-heap { color: #a33; }
.tsb-map .tsb-curve { stroke-dasharray: 6 3; }
.tsb-heap .tsb-curve { stroke-dasharray: 2 2; }
@media (prefers-color-scheme: dark) {
.tsb text { fill: #bbb; }
.tsb .tsb-measure { fill: #eee; }
.tsb .tsb-level { fill: #999; }
.tsb .tsb-name { fill: currentColor; stroke: #16181d; }
.tsb-page { fill: #16181d; }
.tsb-rule { stroke: #343842; }
.tsb-cache { stroke: #777; }
.tsb-ours { color: #6fcf97; }
.tsb-map { color: #8ab4f8; }
.tsb-heap { color: #f28b82; }
}
</style>";

/// Returns the class of a structure: ours, a map of std, or a heap of std.
pub fn class_of(structure: &str) -> &'static str {
    match structure {
        "BTreeMap" | "two BTreeMaps" => "tsb-map",
        "BinaryHeap" => "tsb-heap",
        _ => "tsb-ours",
    }
}
