//! What was measured, read back from comma-separated values.
use std::alloc::{AllocError, Global};

/// A measure of a structure at n entries, in tenths of a nanosecond an operation.
#[derive(Clone, Copy)]
pub struct Point<'a> {
    pub n: u64,
    pub measure: &'a str,
    pub structure: &'a str,
    pub tenths: u64,
}

impl Point<'_> {
    // Whether another point is of the same measure, structure and number of entries.
    fn is_beside(&self, other: &Point) -> bool {
        self.n == other.n && self.measure == other.measure && self.structure == other.structure
    }
}

/// Returns the points of all lines that are rows of a measure, by numbers of entries, each with the least time that any of its lines has.
/// Other lines, such as the heading, are passed over.
pub fn points_of(alloc: Global, text: &str) -> Result<Vec<Point<'_>>, AllocError> {
    let mut points = Vec::new(alloc);
    for line in text.lines() {
        if let Some(point) = point_of(line) {
            add(&mut points, point)?;
        }
    }
    points.sort_by_key(|point| point.n)?;
    Ok(points)
}

// Adds a point, or takes its time for the one that is there, if it is less.
fn add<'a>(points: &mut Vec<Point<'a>>, point: Point<'a>) -> Result<(), AllocError> {
    match points.iter_mut().find(|known| known.is_beside(&point)) {
        Some(known) => known.tenths = known.tenths.min(point.tenths),
        None => points.push(point)?,
    }
    Ok(())
}

// The point of a line: entries, the measure in quotation marks, structure, nanoseconds.
fn point_of(line: &str) -> Option<Point<'_>> {
    let (n, rest) = line.split_once(',')?;
    let (rest, number) = rest.rsplit_once(',')?;
    let (measure, structure) = rest.rsplit_once(',')?;
    Some(Point {
        n: n.parse::<u64>().ok()?,
        measure: measure.trim_matches('"'),
        structure,
        tenths: tenths_of(number)?,
    })
}

// The tenths of a number with one digit behind its point.
fn tenths_of(number: &str) -> Option<u64> {
    let (whole, tenth) = number.split_once('.')?;
    let whole = whole.parse::<u64>().ok()?;
    let tenth = tenth.parse::<u64>().ok()?;
    Some(whole.saturating_mul(10).saturating_add(tenth))
}
