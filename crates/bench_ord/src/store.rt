//! What the measured structures have in common.
use crate::task::Task;
use std::alloc::{AllocError, Global};

/// A structure of keys with values, in the order of the keys. The value of a key is the key without its last byte.
pub trait Store: Drop {
    /// What names an entry to be removed: its pointer, or else its key.
    type Name: Copy;

    /// A structure without entries.
    fn empty(alloc: Global) -> Self;

    /// How many entries there are.
    fn size(&self) -> usize;

    /// Inserts a key with its value.
    fn put(&mut self, key: u64) -> Result<(), AllocError>;

    /// Searches for a key. The answer is not 0 where it is found.
    fn find(&self, key: u64) -> u64;

    /// Removes an entry, and answers its value.
    fn take(&mut self, name: Self::Name) -> u64;

    /// The names of all entries, in order.
    fn names(&self, alloc: Global) -> Result<Vec<Self::Name>, AllocError>;

    /// Goes through all entries in order, and adds up their values.
    fn walk(&self) -> u64;
}

/// The keys, inserted one after another.
pub fn filled<S: Store>(alloc: Global, keys: &[u64]) -> Result<S, AllocError> {
    let mut store = S::empty(alloc);
    for key in keys {
        store.put(*key)?;
    }
    Ok(store)
}

/// Each key is searched for.
#[derive(Clone, Copy)]
pub struct Finding<'a, S> {
    pub store: &'a S,
    pub keys: &'a [u64],
}

impl<S: Store> Task for Finding<'_, S> {
    fn sum(&self) -> u64 {
        let mut sum = 0u64;
        for key in self.keys {
            sum = sum.wrapping_add(self.store.find(*key));
        }
        sum
    }
}

/// All entries are gone through.
#[derive(Clone, Copy)]
pub struct Walking<'a, S> {
    pub store: &'a S,
}

impl<S: Store> Task for Walking<'_, S> {
    fn sum(&self) -> u64 {
        self.store.walk()
    }
}

/// Removes each entry that is named, and adds up their values.
pub fn take_all<S: Store>(store: &mut S, names: &Vec<S::Name>) -> u64 {
    let mut sum = 0u64;
    for name in names {
        sum = sum.wrapping_add(store.take(*name));
    }
    sum
}

/// Removes each entry that is named and inserts a new key for it, and adds up the values removed.
pub fn churn<S: Store>(
    store: &mut S,
    names: &Vec<S::Name>,
    keys: &[u64],
) -> Result<u64, AllocError> {
    let mut sum = 0u64;
    for (name, key) in names.iter().zip(keys) {
        sum = sum.wrapping_add(store.take(*name));
        store.put(*key)?;
    }
    Ok(sum)
}
