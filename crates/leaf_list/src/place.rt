//! Places of entries in leaves.

/// The place of an entry: the number of its leaf, and its index there.
#[derive(Clone, Copy, PartialEq, Eq, Debug)]
pub struct Place<I> {
    pub leaf: I,
    pub at: usize,
}

/// A range of the entries of a leaf: the number of the leaf, the index of the first one, and the index after the last one.
#[derive(Clone, Copy, PartialEq, Eq, Debug)]
pub struct Stretch<I> {
    pub leaf: I,
    pub from: usize,
    pub until: usize,
}
