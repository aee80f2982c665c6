//! The commands to an ordered arena.
use triple_ord::{BasePtr, OrdInsertKind, SimpleOrdItem};

/// A command to an ordered arena of items `T` under pointers `P`.
#[derive(Drop)]
pub enum Command<P: BasePtr, T: SimpleOrdItem> {
    /// Inserts the item by its key.
    Insert(T),
    /// Inserts the item by its key, within the capacity.
    InsertWithin(T),
    /// Inserts the item at the place that the kind names, whatever the item's own key.
    Entry(OrdInsertKind<P, T::Key>, T),
    /// The same, within the capacity.
    EntryWithin(OrdInsertKind<P, T::Key>, T),
    /// Replaces the item of the pointer's entry, whatever the new key.
    Set(P, T),
    /// Replaces the item of the pointer's entry, and moves the entry to the place of the new key. The entry keeps its pointer.
    Rekey(P, T),
    /// Removes the entry of the pointer.
    Remove(P),
    /// Removes the entry at the index.
    RemoveInx(P::Inx),
    /// Gives the entry of the pointer a new one.
    Invalidate(P),
    /// Drops all entries.
    Clear,
    /// Raises the generation of the next entry.
    IncGeneration,
    /// Moves the entries to the indexes from 1 on, in index order, with one generation: the first if the flag is set, else the next. The
    /// tree is rebuilt.
    Compress(bool),
    /// Gives the entries the indexes from 1 on, in list order, with one generation as in `Compress`. The tree is rebuilt.
    Canonical(bool),
    /// Searches for the first entry with an equal key.
    Find(T::Key),
    /// Does the same, after at most this many steps along the list from the entry of the pointer.
    FindLinear(P, usize, T::Key),
    /// Searches for the first entry with an equal key, or for one beside a gap that fits the key.
    Similar(T::Key),
    /// Does the same, after at most this many steps along the list from the entry at the index.
    SimilarLinear(P::Inx, usize, T::Key),
    /// Searches for the entry at which the closure answers `Equal`.
    FindWith,
    /// Searches by the closure, and returns the entry that it was shown last.
    SimilarWith,
    /// Searches for the first entry with an equal key, and returns how many entries the search was shown.
    Visits(T::Key),
    /// Returns the item of the pointer.
    Get(P),
    /// Returns the pointer of the first entry.
    First,
    /// Returns the pointer of the last entry.
    Last,
    /// Returns the neighbours of the entry at the index.
    Neighbours(P::Inx),
    /// Returns all entries in order.
    List,
    /// Returns the ranks of all entries in the tree, in order.
    Ranks,
    /// Returns whether no entry's key is greater than that of the next entry.
    Check,
    /// Sets the capacity to the greater of this number and the greatest occupied index.
    Reserve(usize),
    /// Sets the maximum of the capacity.
    SetMax(usize),
    /// Removes this many entries from the front, or all if there are fewer, and then drops the others.
    DrainOrdered(usize),
    /// Returns the numbers of the arena.
    Stats,
}
