//! Laws of every layout. The functions here do nothing; the contract of each is the law.
ghost use Rattle.tree_picture.specs.Laws.{ColumnsLaw, NodesLaw, LevelsLaw, SidesLaw, ApartLaw, InsideLaw};

/// The k-th place is in column k, counted from 0.
pub fn columns_law()
    ensures { ColumnsLaw }
{}

/// Each place shows the rank of the node that stands at its column in the in-order traversal, and the column of that node's parent.
pub fn nodes_law()
    ensures { NodesLaw }
{}

/// A place is one level below that of its parent. The root is at the top.
pub fn levels_law()
    ensures { LevelsLaw }
{}

/// The lesser side of a node is left of it, its greater side right of it.
pub fn sides_law()
    ensures { SidesLaw }
{}

/// The boxes of two nodes are side by side: they don't overlap.
pub fn apart_law()
    ensures { ApartLaw }
{}

/// Each box is within the picture, with a margin.
pub fn inside_law()
    ensures { InsideLaw }
{}
