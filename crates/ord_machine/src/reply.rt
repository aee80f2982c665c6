//! The replies of an ordered arena.
use std::alloc::Allocator;
use std::cmp::Ordering;
use triple_ord::{
    BasePtr, InvalidationOption, InvalidationResult, OrdEntryKind, OrdInsertionError,
};

/// A reply to a command.
#[derive(Drop)]
pub enum Reply<P: BasePtr, T, A: Allocator> {
    /// The item is in a new entry, or has replaced an entry's item, which is returned too.
    Inserted(OrdEntryKind<P>, Option<T>),
    /// The command failed and changed nothing. `Reserve` fails as growing does: beyond the limit, or for lack of memory. Other commands
    /// that insert nothing fail only for lack of memory.
    Refused(OrdInsertionError),
    /// The pointer of an entry with an equal key whose predecessor, if any, has a smaller one; `None` if the search stopped at a gap that
    /// fits the key. And how many entries the search was shown.
    Found(Option<P>, u128),
    /// The pointer of such an entry, or else of the entry shown last, with the order of the key to its key, or with the closure's answer;
    /// `None` if there are no entries. And how many entries the search was shown.
    Similar(Option<(P, Ordering)>, u128),
    /// How many entries the search was shown.
    Count(u128),
    /// A clone of the item, or the replaced item; `None` if the pointer is stale.
    Item(Option<T>),
    /// The pointer and the item of the removed entry.
    Removed(InvalidationResult<(P, T)>),
    /// The entry's new pointer.
    Renewed(InvalidationResult<P>),
    /// The generation changed, with or without an overflow.
    Changed(InvalidationOption<()>),
    /// The pointer of the entry; `None` if there is none.
    At(Option<P>),
    /// The indexes of the entries before and after the one at the index, each `None` at an end of the list; `None` if the index has no
    /// entry.
    Links(Option<(Option<P::Inx>, Option<P::Inx>)>),
    /// The pointer of each entry and a clone of its item, in order; or those of the removed entries, with the items themselves.
    Entries(Vec<(P, T), A>),
    /// The rank of each entry in the tree, in order.
    Ranks(Vec<u8, A>),
    /// The capacity or the maximum is set.
    Done,
    /// The maximum isn't set, because the capacity is already greater.
    ReductionRefused,
    /// Whether the entries are in key order.
    Sorted(bool),
    /// The length, the capacity, the generation of the next entry, and the maximum of the capacity, if one is set.
    Stats(usize, usize, P::Gen, Option<usize>),
}
