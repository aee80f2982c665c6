//! std's `BTreeMap`, as it is measured.
use crate::store::Store;
use std::alloc::{AllocError, Global};
use std::collections::BTreeMap;

/// A map of pairs.
pub type Map = BTreeMap<u64, u64>;

impl Store for Map {
    type Name = u64;

    fn empty(alloc: Global) -> Self {
        BTreeMap::new(alloc)
    }

    fn size(&self) -> usize {
        self.len()
    }

    fn put(&mut self, key: u64) -> Result<(), AllocError> {
        let _ = self.insert(key, key >> 8)?;
        Ok(())
    }

    fn find(&self, key: u64) -> u64 {
        match self.get(&key) {
            Some(value) => *value,
            None => 0,
        }
    }

    fn take(&mut self, name: u64) -> u64 {
        match self.remove(&name) {
            Some(value) => value,
            None => 0,
        }
    }

    fn names(&self, alloc: Global) -> Result<Vec<u64>, AllocError> {
        let mut names = Vec::new(alloc);
        for (key, _) in self {
            names.push(*key)?;
        }
        Ok(names)
    }

    fn walk(&self) -> u64 {
        let mut sum = 0u64;
        for (_, value) in self {
            sum = sum.wrapping_add(*value);
        }
        sum
    }
}
