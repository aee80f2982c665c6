//! The ordered arena, as it is measured.
use crate::store::Store;
use crate::task::{Linked, Reached};
use std::alloc::{AllocError, Global};
use triple_ord::{BasePtr, OrdInsertKind, OrdPair, P0, P32, SimpleOrdArena};

/// An ordered arena of pairs, with the usual pointers.
pub type Pairs = SimpleOrdArena<P0, OrdPair<u64, u64>>;

/// An ordered arena of pairs, with generations of 32 bits.
pub type SmallPairs = SimpleOrdArena<P32, OrdPair<u64, u64>>;

/// A pointer with a generation that can be added up.
pub trait Numbered: BasePtr<Inx = u32> {
    /// Its generation as a number.
    fn generation_number(self) -> u64;
}

impl Numbered for P0 {
    fn generation_number(self) -> u64 {
        self.generation()
    }
}

impl Numbered for P32 {
    fn generation_number(self) -> u64 {
        u64::from(self.generation())
    }
}

impl<P: Numbered> Store for SimpleOrdArena<P, OrdPair<u64, u64>> {
    type Name = P;

    fn empty(alloc: Global) -> Self {
        SimpleOrdArena::new(alloc)
    }

    fn size(&self) -> usize {
        self.len()
    }

    fn put(&mut self, key: u64) -> Result<(), AllocError> {
        match self.insert(OrdPair::new(key, key >> 8)) {
            Ok(_) => Ok(()),
            Err(_) => Err(AllocError),
        }
    }

    fn find(&self, key: u64) -> u64 {
        match self.find_key(&key) {
            Some(p) => u64::from(p.inx()).wrapping_add(p.generation_number()),
            None => 0,
        }
    }

    fn take(&mut self, name: P) -> u64 {
        match self.remove(name).allow() {
            Some(pair) => *pair.v(),
            None => 0,
        }
    }

    fn names(&self, alloc: Global) -> Result<Vec<P>, AllocError> {
        let mut names = Vec::new(alloc);
        for (p, _) in self {
            names.push(p)?;
        }
        Ok(names)
    }

    fn walk(&self) -> u64 {
        let mut sum = 0u64;
        for (_, pair) in self {
            sum = sum.wrapping_add(*pair.v());
        }
        sum
    }
}

/// Inserts a key with its value by a search that compares the last key first: a key behind all others needs no other comparison.
pub fn append(pairs: &mut Pairs, key: u64) -> Result<(), AllocError> {
    let kind = match pairs.last() {
        Some(last) => OrdInsertKind::Linear {
            p_init: last.inx(),
            num: 1,
            k: &key,
        },
        None => OrdInsertKind::Normal(&key),
    };
    match pairs.entry_insert(kind) {
        Ok(entry) => {
            let _ = entry.insert(OrdPair::new(key, key >> 8));
            Ok(())
        }
        Err(_) => Err(AllocError),
    }
}

/// The keys, appended one after another.
pub fn appended(alloc: Global, keys: &[u64]) -> Result<Pairs, AllocError> {
    let mut pairs = SimpleOrdArena::new(alloc);
    for key in keys {
        append(&mut pairs, *key)?;
    }
    Ok(pairs)
}

/// An arena with pointers to its entries, in a random order.
#[derive(Clone, Copy)]
pub struct Pointed<'a, P: BasePtr = P0> {
    pub pairs: &'a SimpleOrdArena<P, OrdPair<u64, u64>>,
    pub pointers: &'a [P],
}

impl<P: BasePtr> Reached for Pointed<'_, P> {
    fn get_all(&self) -> u64 {
        let mut sum = 0u64;
        for p in self.pointers {
            if let Some(pair) = self.pairs.get(*p) {
                sum = sum.wrapping_add(*pair.v());
            }
        }
        sum
    }
}

impl<P: BasePtr<Inx = u32>> Linked for Pointed<'_, P> {
    fn neighbours_of_all(&self) -> u64 {
        let mut sum = 0u64;
        for p in self.pointers {
            if let Some((_, link)) = self.pairs.get_inx_link_no_gen(p.inx()) {
                let (prev, next) = link.prev_next();
                sum = sum
                    .wrapping_add(number_of(prev))
                    .wrapping_add(number_of(next));
            }
        }
        sum
    }

    fn step_through(&self) -> u64 {
        let mut sum = 0u64;
        let mut at = match self.pairs.first() {
            Some(p) => Some(p.inx()),
            None => None,
        };
        for _ in 0..self.pointers.len() {
            let Some(i) = at else {
                return sum;
            };
            let Some((_, link)) = self.pairs.get_inx_link_no_gen(i) else {
                return sum;
            };
            sum = sum.wrapping_add(*link.t.v());
            at = link.next();
        }
        sum
    }
}

// The number of an index, 0 where there is none.
fn number_of(i: Option<u32>) -> u64 {
    u64::from(i.unwrap_or(0))
}
