//! Curves of what was measured: nanoseconds an operation against the number of entries. Each comparison has a panel, and all have one scale.
use crate::axes::{Axes, PLOT_HEIGHT, PLOT_WIDTH};
use crate::measured::Point;
use crate::names::{self, Name};
use crate::theme::{STYLE, class_of};
use std::alloc::Global;
use std::io;
use std::io::Write;

/// The measures that are drawn, each with the structures that it compares.
const PANELS: [(&str, &[&str]); 12] = [
    ("insert random keys", &["arena", "BTreeMap"]),
    ("find hits", &["arena", "BTreeMap"]),
    ("remove by pointer", &["arena", "BTreeMap"]),
    ("go through in order", &["arena", "BTreeMap"]),
    ("range of 1000", &["sorted arena", "BTreeMap"]),
    ("compact range of 1000", &["sorted arena", "BTreeMap"]),
    ("schedule", &["agenda", "BinaryHeap", "BTreeMap"]),
    ("cancel half", &["agenda", "BinaryHeap", "BTreeMap"]),
    ("pop the rest", &["agenda", "BinaryHeap", "BTreeMap"]),
    ("spans over 1000", &["timeline", "BTreeMap"]),
    ("place at rest", &["order book", "two BTreeMaps"]),
    ("place, cancel, trade", &["order book", "two BTreeMaps"]),
];

/// How many panels stand in a row.
const COLUMNS: u64 = 3;

const ROWS: u64 = 4;

/// The room of a panel, in pixels: the area of its curves, the names to the right of it, and the heading above.
const PANEL_WIDTH: u64 = PLOT_WIDTH + 104;

const PANEL_HEIGHT: u64 = PLOT_HEIGHT + 32;

/// Where the first area begins: to the right of the numbers and below its heading.
const LEFT: u64 = 40;

const TOP: u64 = 26;

const WIDTH: u64 = LEFT + COLUMNS * PANEL_WIDTH;

const HEIGHT: u64 = ROWS * PANEL_HEIGHT + 20;

/// The bytes of an entry of an arena that is full.
const BYTES_AN_ENTRY: u64 = 63;

/// The numbers that have a line across both axes.
const POWERS: [u64; 8] = [1, 10, 100, 1_000, 10_000, 100_000, 1_000_000, 10_000_000];

/// Writes the curves as SVG. A cache of so many bytes is marked at the number of entries that fill it.
pub fn draw<W: Write>(
    alloc: Global,
    out: &mut W,
    points: &[Point],
    caches: &[usize],
) -> io::Result<()> {
    let axes = axes_of(points);
    head(out)?;
    for (at, (measure, structures)) in PANELS.iter().enumerate() {
        let (column, row) = (at as u64 % COLUMNS, at as u64 / COLUMNS % ROWS);
        let (left, top) = (LEFT + column * PANEL_WIDTH, TOP + row * PANEL_HEIGHT);
        writeln!(out, "<g transform=\"translate({left},{top})\">")?;
        background(out, axes, measure, caches)?;
        if column == 0 {
            times(out, axes)?;
        }
        if row + 1 == ROWS {
            entries(out, axes)?;
        }
        panel(alloc, out, axes, points, (measure, structures))?;
        writeln!(out, "</g>")?;
    }
    writeln!(out, "</svg>")
}

// The axes on which all points lie that are drawn.
fn axes_of(points: &[Point]) -> Axes {
    let mut axes = Axes::new();
    for point in points {
        if is_drawn(point) {
            axes = axes.including(*point);
        }
    }
    axes
}

// Whether a panel has this point.
fn is_drawn(point: &Point) -> bool {
    for (measure, structures) in &PANELS {
        if point.measure == *measure && structures.contains(&point.structure) {
            return true;
        }
    }
    false
}

// The beginning of the picture, with what it says to a reader who can't see it.
fn head<W: Write>(out: &mut W) -> io::Result<()> {
    writeln!(
        out,
        "<svg xmlns=\"http://www.w3.org/2000/svg\" class=\"tsb\" role=\"img\" width=\"{WIDTH}\" height=\"{HEIGHT}\" viewBox=\"0 0 {WIDTH} {HEIGHT}\">"
    )?;
    writeln!(
        out,
        "<title>Nanoseconds an operation against the number of entries</title>"
    )?;
    writeln!(
        out,
        "<desc>All panels have the same two logarithmic axes. At the line of L1, L2 or L3 the entries of an arena fill that cache.</desc>"
    )?;
    writeln!(out, "{STYLE}")?;
    writeln!(
        out,
        "<rect class=\"tsb-page\" width=\"100%\" height=\"100%\"/>"
    )
}

// The heading of a panel, and the lines that its curves lie on.
fn background<W: Write>(
    out: &mut W,
    axes: Axes,
    measure: &str,
    caches: &[usize],
) -> io::Result<()> {
    writeln!(
        out,
        "<text class=\"tsb-measure\" x=\"0\" y=\"-9\">{measure}</text>"
    )?;
    for power in &POWERS {
        let tenths = power.saturating_mul(10);
        if axes.has_tenths(tenths) {
            let y = axes.down(tenths);
            line(out, "tsb-rule", (0, y), (PLOT_WIDTH, y))?;
        }
        if axes.has_entries(*power) {
            let x = axes.across(*power);
            line(out, "tsb-rule", (x, 0), (x, PLOT_HEIGHT))?;
        }
    }
    marks(out, axes, caches)
}

// A line from one point to another.
fn line<W: Write>(out: &mut W, class: &str, from: (u64, u64), to: (u64, u64)) -> io::Result<()> {
    let ((x1, y1), (x2, y2)) = (from, to);
    writeln!(
        out,
        "<line class=\"{class}\" x1=\"{x1}\" y1=\"{y1}\" x2=\"{x2}\" y2=\"{y2}\"/>"
    )
}

// A line for each cache, at the number of entries that fill it.
fn marks<W: Write>(out: &mut W, axes: Axes, caches: &[usize]) -> io::Result<()> {
    for (at, bytes) in caches.iter().enumerate() {
        let n = *bytes as u64 / BYTES_AN_ENTRY;
        if axes.has_entries(n) {
            let (x, level) = (axes.across(n), at.saturating_add(1));
            line(out, "tsb-cache", (x, 0), (x, PLOT_HEIGHT))?;
            let x = x.saturating_add(3);
            writeln!(
                out,
                "<text class=\"tsb-level\" x=\"{x}\" y=\"9\">L{level}</text>"
            )?;
        }
    }
    Ok(())
}

// The numbers to the left of a row.
fn times<W: Write>(out: &mut W, axes: Axes) -> io::Result<()> {
    writeln!(
        out,
        "<text class=\"tsb-number\" x=\"-6\" y=\"-9\">ns</text>"
    )?;
    for power in &POWERS {
        let tenths = power.saturating_mul(10);
        if axes.has_tenths(tenths) {
            let y = axes.down(tenths).saturating_add(4);
            write!(out, "<text class=\"tsb-number\" x=\"-6\" y=\"{y}\">")?;
            number(out, *power)?;
        }
    }
    Ok(())
}

// The numbers below a panel.
fn entries<W: Write>(out: &mut W, axes: Axes) -> io::Result<()> {
    let (x, y) = (PLOT_WIDTH + 28, PLOT_HEIGHT + 15);
    for power in &POWERS {
        if axes.has_entries(*power) {
            let x = axes.across(*power);
            write!(out, "<text class=\"tsb-entries\" x=\"{x}\" y=\"{y}\">")?;
            number(out, *power)?;
        }
    }
    writeln!(out, "<text x=\"{x}\" y=\"{y}\">entries</text>")
}

// A power of ten with its thousands set apart, and the end of its element.
fn number<W: Write>(out: &mut W, power: u64) -> io::Result<()> {
    match power {
        0..=999 => writeln!(out, "{power}</text>"),
        1_000..=999_999 => writeln!(out, "{},000</text>", power / 1_000),
        _ => writeln!(out, "{},000,000</text>", power / 1_000_000),
    }
}

// The curves of a measure, and the name of each structure at the end of its curve.
fn panel<W: Write>(
    alloc: Global,
    out: &mut W,
    axes: Axes,
    points: &[Point],
    (measure, structures): (&str, &[&str]),
) -> io::Result<()> {
    let mut names = Vec::new(alloc);
    for structure in structures {
        if let Some(end) = curve(out, axes, points, (measure, structure))? {
            names.push(Name::new(structure, end))?;
        }
    }
    names::spread(&mut names)?;
    for name in &names {
        let (class, x) = (class_of(name.structure), name.x.saturating_add(7));
        let y = name.y().saturating_add(4);
        writeln!(
            out,
            "<g class=\"{class}\"><text class=\"tsb-name\" x=\"{x}\" y=\"{y}\">{}</text></g>",
            name.structure
        )?;
    }
    Ok(())
}

// Draws the curve of a structure, and returns where it ends, if it has points.
fn curve<W: Write>(
    out: &mut W,
    axes: Axes,
    points: &[Point],
    (measure, structure): (&str, &str),
) -> io::Result<Option<(u64, u64)>> {
    let mut end = None;
    write!(out, "<g class=\"{}\">", class_of(structure))?;
    write!(out, "<polyline class=\"tsb-curve\" points=\"")?;
    for point in points {
        if point.measure == measure && point.structure == structure {
            let (x, y) = (axes.across(point.n), axes.down(point.tenths));
            write!(out, "{x},{y} ")?;
            end = Some((x, y));
        }
    }
    writeln!(out, "\"/>")?;
    dots(out, axes, points, (measure, structure))?;
    writeln!(out, "</g>")?;
    Ok(end)
}

// A dot at each point of a curve.
fn dots<W: Write>(
    out: &mut W,
    axes: Axes,
    points: &[Point],
    (measure, structure): (&str, &str),
) -> io::Result<()> {
    for point in points {
        if point.measure == measure && point.structure == structure {
            let (x, y) = (axes.across(point.n), axes.down(point.tenths));
            writeln!(
                out,
                "<circle class=\"tsb-dot\" cx=\"{x}\" cy=\"{y}\" r=\"2.5\"/>"
            )?;
        }
    }
    Ok(())
}
