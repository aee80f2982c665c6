//! The tree links of a node, its sides and its branches.

ghost use Rattle.std.specs.Prelude.{◌≡◌, ◌≢◌, ℕ, ◌↔◌, IsTrue, IsSome, Option, Some, option_map};
ghost use Rattle.ord_tree.specs.TreeLinks.{other_side, child_at, with_child_at, as_numbers};

/// A side of a node.
#[derive(Clone, Copy, Debug, PartialEq, Eq)]
pub enum Side {
    /// The side of what is before the node.
    Lesser,
    /// The side of what is after it.
    Greater,
}

impl Side {
    /// Returns the opposite side.
    pub fn other(self) -> Side
        ensures { result ≡ other_side self }
    {
        match self {
            Side::Lesser => Side::Greater,
            Side::Greater => Side::Lesser,
        }
    }
}

/// A branch of the tree: a node and a side of it, where a child may be.
#[derive(Clone, Copy, Debug)]
pub struct Branch<I> {
    /// The node.
    pub parent: I,
    /// The side.
    pub side: Side,
}

/// The tree links of a node: its parent, the roots of its sides, and its rank.
#[derive(Clone, Copy, Debug)]
pub struct TreeLinks<I> {
    /// The parent, or `None` at the root.
    pub back: Option<I>,
    /// The root of the lesser side.
    pub lesser: Option<I>,
    /// The root of the greater side.
    pub greater: Option<I>,
    /// The rank.
    pub rank: u8,
}

impl<I: Copy> TreeLinks<I> {
    /// Returns the root of a side.
    pub fn child(&self, side: Side) -> Option<I>
        ensures { result ≡ child_at side self.now }
    {
        match side {
            Side::Lesser => self.lesser,
            Side::Greater => self.greater,
        }
    }

    /// Returns the same links with another root of a side.
    pub fn with_child(self, side: Side, child: Option<I>) -> TreeLinks<I>
        ensures { result ≡ with_child_at side child self }
    {
        match side {
            Side::Lesser => TreeLinks {
                lesser: child,
                ..self
            },
            Side::Greater => TreeLinks {
                greater: child,
                ..self
            },
        }
    }
}
