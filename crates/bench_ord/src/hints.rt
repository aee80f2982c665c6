//! Searches from a hint, as they are measured.
use crate::arena::Pairs;
use crate::keys::shuffle;
use crate::task::Task;
use std::alloc::{AllocError, Global};
use triple_ord::{BasePtr, P0};

/// A key that an entry has, with the pointer to an entry near it.
#[derive(Clone, Copy)]
pub struct Hint {
    near: P0,
    key: u64,
}

/// The keys in a random order, each with the pointer to the entry so many places further on in the list. The last entries have none.
pub fn hints_of(alloc: Global, pairs: &Pairs, places: usize) -> Result<Vec<Hint>, AllocError> {
    let mut hints = Vec::new(alloc);
    for ((_, pair), (near, _)) in pairs.iter_ordered().zip(pairs.iter_ordered().skip(places)) {
        let key = *pair.k();
        hints.push(Hint { near, key })?;
    }
    shuffle(hints.as_mut_slice());
    Ok(hints)
}

/// Each key is searched for from its hint, in at most sixteen steps before a whole search.
#[derive(Clone, Copy)]
pub struct FromHints<'a> {
    pub pairs: &'a Pairs,
    pub hints: &'a [Hint],
}

impl Task for FromHints<'_> {
    fn sum(&self) -> u64 {
        let mut sum = 0u64;
        for hint in self.hints {
            sum = sum.wrapping_add(numbers(self.pairs.find_key_linear(hint.near, 16, &hint.key)));
        }
        sum
    }
}

/// Each key is searched for.
#[derive(Clone, Copy)]
pub struct FromTheRoot<'a> {
    pub pairs: &'a Pairs,
    pub hints: &'a [Hint],
}

impl Task for FromTheRoot<'_> {
    fn sum(&self) -> u64 {
        let mut sum = 0u64;
        for hint in self.hints {
            sum = sum.wrapping_add(numbers(self.pairs.find_key(&hint.key)));
        }
        sum
    }
}

// The sum of index and generation of a pointer, 0 where there is none.
fn numbers(found: Option<P0>) -> u64 {
    match found {
        Some(p) => u64::from(p.inx()).wrapping_add(p.generation()),
        None => 0,
    }
}
