//! Where a node stands in a picture.
ghost use Rattle.std.specs.Prelude.{◌≡◌, ◌+◌, ◌*◌};
ghost use Rattle.tree_picture.specs.Layout.{left_of, top_of};

/// The width of a column, in pixels.
pub const COLUMN_WIDTH: u32 = 76;

/// The height of a level, in pixels.
pub const LEVEL_HEIGHT: u32 = 60;

/// The width of a node's box, in pixels.
pub const BOX_WIDTH: u32 = 64;

/// The height of a node's box, in pixels.
pub const BOX_HEIGHT: u32 = 28;

/// The room around a picture, in pixels.
pub const MARGIN: u32 = 20;

/// The kind of a node, by how much its rank exceeds those of its two sides. A side without nodes has rank 0.
#[derive(Clone, Copy, Debug, PartialEq, Eq)]
pub enum Kind {
    /// By one on both sides.
    Full,
    /// By one on one side, and by two on the other.
    Uneven,
    /// By two on both sides.
    Slack,
}

/// Where a node stands in a picture, and what is drawn of it.
#[derive(Clone, Copy, Debug, PartialEq, Eq)]
pub struct Place {
    /// The number of entries before it.
    pub column: u16,
    /// The number of nodes above it.
    pub depth: u16,
    /// The rank.
    pub rank: u8,
    /// The kind.
    pub kind: Kind,
    /// The column of the parent; `None` at the root.
    pub parent: Option<u16>,
    /// Whether it has a greater side.
    pub has_greater: bool,
}

impl Place {
    /// Returns where the box begins from the left, in pixels.
    pub fn left(&self) -> u32
        ensures { result ≡ left_of self.now.column }
    {
        MARGIN + COLUMN_WIDTH * u32::from(self.column)
    }

    /// Returns where the box begins from the top, in pixels.
    pub fn top(&self) -> u32
        ensures { result ≡ top_of self.now.depth }
    {
        MARGIN + LEVEL_HEIGHT * u32::from(self.depth)
    }
}
