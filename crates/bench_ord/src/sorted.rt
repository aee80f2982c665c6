//! Values by keys in order, as they are measured: a sorted arena and std's `BTreeMap`.
use crate::map::Map;
use crate::store::Store;
use crate::task::Task;
use sorted_arena::{BasePtr, P0, SortedArena};
use std::alloc::{AllocError, Global};

/// A sorted arena of values.
pub type Sorted = SortedArena<u64, u64>;

/// A structure that answers by the order of its keys.
pub trait InOrder: Store {
    /// Builds a structure from pairs that are in order.
    fn from_sorted(alloc: Global, pairs: Vec<(u64, u64)>) -> Result<Self, AllocError>;

    /// Returns the value of the first key that is at least this one, or 0 if there is none.
    fn at_least(&self, key: u64) -> u64;

    /// Goes through the entries of a span in order, and adds up their values.
    fn sum_of(&self, span: Span) -> u64;

    /// Takes the first entry out until there is none. The answer goes by the values and their order.
    fn pop_all(&mut self) -> u64;
}

/// The keys from one until before another.
#[derive(Clone, Copy)]
pub struct Span {
    pub from: u64,
    pub until: u64,
}

// The answer for values that left in this order, with one more.
fn and_then(order: u64, value: u64) -> u64 {
    order.wrapping_mul(31).wrapping_add(value)
}

impl Store for Sorted {
    type Name = P0;

    fn empty(alloc: Global) -> Self {
        SortedArena::new(alloc)
    }

    fn size(&self) -> usize {
        self.len()
    }

    fn put(&mut self, key: u64) -> Result<(), AllocError> {
        match self.insert(key, key >> 8) {
            Ok(_) => Ok(()),
            Err(_) => Err(AllocError),
        }
    }

    fn find(&self, key: u64) -> u64 {
        match SortedArena::find(self, &key) {
            Some(p) => u64::from(p.inx()).wrapping_add(p.generation()),
            None => 0,
        }
    }

    fn take(&mut self, name: P0) -> u64 {
        match self.remove(name) {
            Some((_, value)) => value,
            None => 0,
        }
    }

    fn names(&self, alloc: Global) -> Result<Vec<P0>, AllocError> {
        let mut names = Vec::new(alloc);
        for (p, _, _) in self.iter() {
            names.push(p)?;
        }
        Ok(names)
    }

    fn walk(&self) -> u64 {
        let mut sum = 0u64;
        for (_, _, value) in self.iter() {
            sum = sum.wrapping_add(*value);
        }
        sum
    }
}

impl InOrder for Sorted {
    fn from_sorted(alloc: Global, pairs: Vec<(u64, u64)>) -> Result<Self, AllocError> {
        match SortedArena::from_sorted(alloc, pairs) {
            Ok(arena) => Ok(arena),
            Err(_) => Err(AllocError),
        }
    }

    fn at_least(&self, key: u64) -> u64 {
        let Some(p) = self.lower_bound(&key) else {
            return 0;
        };
        match self.get(p) {
            Some((_, value)) => *value,
            None => 0,
        }
    }

    fn sum_of(&self, span: Span) -> u64 {
        let mut sum = 0u64;
        for (_, _, value) in self.range(span.from..span.until) {
            sum = sum.wrapping_add(*value);
        }
        sum
    }

    fn pop_all(&mut self) -> u64 {
        let mut order = 0u64;
        for _ in 0..self.len() {
            if let Some((_, value)) = self.pop_first() {
                order = and_then(order, value);
            }
        }
        order
    }
}

impl InOrder for Map {
    fn from_sorted(alloc: Global, pairs: Vec<(u64, u64)>) -> Result<Self, AllocError> {
        pairs.into_iter().collect(alloc)
    }

    fn at_least(&self, key: u64) -> u64 {
        match self.range(key..).next() {
            Some((_, value)) => *value,
            None => 0,
        }
    }

    fn sum_of(&self, span: Span) -> u64 {
        // a map has no range that runs backwards
        if span.until < span.from {
            return 0;
        }
        let mut sum = 0u64;
        for (_, value) in self.range(span.from..span.until) {
            sum = sum.wrapping_add(*value);
        }
        sum
    }

    fn pop_all(&mut self) -> u64 {
        let mut order = 0u64;
        for _ in 0..self.len() {
            if let Some((_, value)) = self.pop_first() {
                order = and_then(order, value);
            }
        }
        order
    }
}

/// The first entry from each key on is searched for.
#[derive(Clone, Copy)]
pub struct Bounding<'a, S> {
    pub store: &'a S,
    pub keys: &'a [u64],
}

impl<S: InOrder> Task for Bounding<'_, S> {
    fn sum(&self) -> u64 {
        let mut sum = 0u64;
        for key in self.keys {
            sum = sum.wrapping_add(self.store.at_least(*key));
        }
        sum
    }
}

/// The entries of each span are gone through.
#[derive(Clone, Copy)]
pub struct Ranging<'a, S> {
    pub store: &'a S,
    pub spans: &'a [Span],
}

impl<S: InOrder> Task for Ranging<'_, S> {
    fn sum(&self) -> u64 {
        let mut sum = 0u64;
        for span in self.spans {
            sum = sum.wrapping_add(self.store.sum_of(*span));
        }
        sum
    }
}
