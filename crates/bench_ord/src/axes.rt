//! The one scale of all panels: entries from left to right, nanoseconds an operation from the bottom up, both logarithmic.
use crate::log::log2;
use crate::measured::Point;

/// The size of the area in which curves lie, in pixels.
pub const PLOT_WIDTH: u64 = 186;

pub const PLOT_HEIGHT: u64 = 130;

/// The ranges of both axes. The times are in tenths of a nanosecond.
#[derive(Clone, Copy)]
pub struct Axes {
    least: u64,
    greatest: u64,
    least_tenths: u64,
    most_tenths: u64,
}

impl Axes {
    /// Returns axes without entries, on which times go from 1 to 10 nanoseconds.
    pub fn new() -> Axes {
        Axes {
            least: u64::MAX,
            greatest: 1,
            least_tenths: 10,
            most_tenths: 100,
        }
    }

    /// Returns the axes that reach to this point too.
    pub fn including(self, point: Point) -> Axes {
        Axes {
            least: self.least.min(point.n),
            greatest: self.greatest.max(point.n),
            least_tenths: self.least_tenths.min(point.tenths),
            most_tenths: self.most_tenths.max(point.tenths),
        }
    }

    /// Returns whether so many entries lie on the axis.
    pub fn has_entries(self, n: u64) -> bool {
        self.least <= n && n <= self.greatest
    }

    /// Returns whether so many tenths of a nanosecond lie on the axis.
    pub fn has_tenths(self, tenths: u64) -> bool {
        self.least_tenths <= tenths && tenths <= self.most_tenths
    }

    /// Returns how far from the left so many entries lie.
    pub fn across(self, n: u64) -> u64 {
        portion(PLOT_WIDTH, (self.least, self.greatest), n)
    }

    /// Returns how far from the top so many tenths of a nanosecond lie.
    pub fn down(self, tenths: u64) -> u64 {
        let range = (self.least_tenths, self.most_tenths);
        PLOT_HEIGHT.saturating_sub(portion(PLOT_HEIGHT, range, tenths))
    }
}

// The part of a length that lies before a number on a logarithmic axis.
fn portion(length: u64, (least, greatest): (u64, u64), number: u64) -> u64 {
    let from = log2(least);
    let span = log2(greatest).saturating_sub(from).max(1);
    let at = log2(number).saturating_sub(from).min(span);
    at.saturating_mul(length) / span
}
