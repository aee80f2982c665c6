//! The picture of a tree.
ghost use Rattle.std.specs.Prelude.{◌≡◌, ◌≤◌, length};
ghost use Rattle.tree_picture.specs.Layout.{width_of, height_of};
ghost use Rattle.tree_picture.specs.declared.picture.TheConstants.{MOST_ENTRIES};

use crate::place::{COLUMN_WIDTH, LEVEL_HEIGHT, MARGIN, Place};
use std::alloc::{Allocator, Global};

/// The number of characters of a key that fit into a box.
pub const KEY_CHARS: usize = 6;

/// The greatest number of entries in a picture.
pub const MOST_ENTRIES: usize = 10_000;

/// A node of a picture.
#[derive(Drop)]
pub struct Node<P, A: Allocator = Global> {
    /// Where it stands.
    pub place: Place,
    /// The pointer of its entry.
    pub pointer: P,
    /// Its key, as far as it fits.
    pub key: String<A>,
    /// Whether it is framed, as one that has changed.
    pub is_framed: bool,
}

/// The picture of a tree: its nodes in the order of the list, and how many levels they have.
#[derive(Drop)]
pub struct Picture<P, A: Allocator = Global> {
    /// The nodes in order. The first is in column 0.
    pub nodes: Vec<Node<P, A>, A>,
    /// The number of levels.
    pub levels: u16,

    pub ghost within: { length nodes.items ≤ MOST_ENTRIES },
}

impl<P, A: Allocator> Picture<P, A> {
    /// Returns the width in pixels.
    pub fn width(&self) -> u32
        ensures { result ≡ width_of (length self.now.nodes.items) }
    {
        2 * MARGIN + COLUMN_WIDTH * self.nodes.len() as u32
    }

    /// Returns the height in pixels.
    pub fn height(&self) -> u32
        ensures { result ≡ height_of self.now.levels }
    {
        let levels = self.levels;
        MARGIN + LEVEL_HEIGHT * u32::from(levels)
    }
}
