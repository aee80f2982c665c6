//! The names of structures at the ends of their curves.
use std::alloc::{AllocError, Global};

/// How far apart the lines of two names are at least, in pixels.
const LINE_HEIGHT: u64 = 13;

/// A name that is to be written at a height: moved down, so that it is clear of those above, and moved up, clear of those below.
#[derive(Drop)]
pub struct Name<'a> {
    pub structure: &'a str,
    pub x: u64,
    lowered: u64,
    raised: u64,
}

impl<'a> Name<'a> {
    /// Returns the name of a structure, at the point at which its curve ends.
    pub fn new(structure: &'a str, (x, y): (u64, u64)) -> Name<'a> {
        Name {
            structure,
            x,
            lowered: y,
            raised: y,
        }
    }

    /// Returns the height of the name: halfway, so that names that collide go apart in both directions.
    pub fn y(&self) -> u64 {
        self.lowered.saturating_add(self.raised) / 2
    }
}

/// Moves names apart that would overlap, and puts them in order from the top down.
pub fn spread(names: &mut Vec<Name>) -> Result<(), AllocError> {
    names.sort_by_key(|name| name.lowered)?;
    lower(names);
    raise(names);
    Ok(())
}

// Moves each name down that overlaps the one above.
fn lower(names: &mut [Name]) {
    let mut free = 0u64;
    for name in names.iter_mut() {
        name.lowered = name.lowered.max(free);
        free = name.lowered.saturating_add(LINE_HEIGHT);
    }
}

// Moves each name up that overlaps the one below.
fn raise(names: &mut [Name]) {
    let mut free = u64::MAX;
    for name in names.iter_mut().rev() {
        name.raised = name.raised.min(free);
        free = name.raised.saturating_sub(LINE_HEIGHT);
    }
}
