//! Plain vectors, as they are measured.
use crate::arena::Pointed;
use crate::task::{Linked, Reached};
use std::alloc::{AllocError, Global};
use triple_ord::{BasePtr, OrdPair};

/// The items of an arena in a vector, at the indexes that they have there.
#[derive(Drop)]
pub struct Items {
    items: Vec<OrdPair<u64, u64>>,
    indexes: Vec<usize>,
}

impl Items {
    /// The items of this arena.
    pub fn of(alloc: Global, pointed: Pointed) -> Result<Self, AllocError> {
        let mut items = Vec::new(alloc);
        for _ in 0..=pointed.pairs.capacity() {
            items.push(OrdPair::new(0, 0))?;
        }
        let mut indexes = Vec::new(alloc);
        for p in pointed.pointers {
            let i = p.inx() as usize;
            indexes.push(i)?;
            if let Some(pair) = pointed.pairs.get(*p)
                && let Some(item) = items.get_mut(i)
            {
                *item = *pair;
            }
        }
        Ok(Items { items, indexes })
    }
}

impl Reached for Items {
    fn get_all(&self) -> u64 {
        let mut sum = 0u64;
        let items = self.items.as_slice();
        for i in self.indexes.as_slice() {
            if let Some(pair) = items.get(*i) {
                sum = sum.wrapping_add(*pair.v());
            }
        }
        sum
    }
}

/// An item with the indexes of its neighbours, 0 where there is none; as large as a slot of an arena of such items.
#[derive(Clone, Copy)]
struct Slot {
    pair: OrdPair<u64, u64>,
    prev: u32,
    next: u32,
    _rest: [u64; 4],
}

/// The items of an arena in a vector of slots, at the indexes that they have there, with their neighbours.
#[derive(Drop)]
pub struct Slots {
    slots: Vec<Slot>,
    indexes: Vec<usize>,
    first: u32,
}

impl Slots {
    /// The items of this arena.
    pub fn of(alloc: Global, pointed: Pointed) -> Result<Self, AllocError> {
        let mut slots = Vec::new(alloc);
        for _ in 0..=pointed.pairs.capacity() {
            slots.push(slot_of(OrdPair::new(0, 0), 0, 0))?;
        }
        let mut indexes = Vec::new(alloc);
        for p in pointed.pointers {
            let i = p.inx() as usize;
            indexes.push(i)?;
            if let Some((_, link)) = pointed.pairs.get_inx_link_no_gen(p.inx())
                && let Some(slot) = slots.get_mut(i)
            {
                let (prev, next) = link.prev_next();
                *slot = slot_of(*link.t, prev.unwrap_or(0), next.unwrap_or(0));
            }
        }
        let first = match pointed.pairs.first() {
            Some(p) => p.inx(),
            None => 0,
        };
        Ok(Slots {
            slots,
            indexes,
            first,
        })
    }
}

// The item between these neighbours.
fn slot_of(pair: OrdPair<u64, u64>, prev: u32, next: u32) -> Slot {
    Slot {
        pair,
        prev,
        next,
        _rest: [0; 4],
    }
}

impl Reached for Slots {
    fn get_all(&self) -> u64 {
        let mut sum = 0u64;
        let slots = self.slots.as_slice();
        for i in self.indexes.as_slice() {
            if let Some(slot) = slots.get(*i) {
                sum = sum.wrapping_add(*slot.pair.v());
            }
        }
        sum
    }
}

impl Linked for Slots {
    fn neighbours_of_all(&self) -> u64 {
        let mut sum = 0u64;
        let slots = self.slots.as_slice();
        for i in self.indexes.as_slice() {
            if let Some(slot) = slots.get(*i) {
                sum = sum
                    .wrapping_add(u64::from(slot.prev))
                    .wrapping_add(u64::from(slot.next));
            }
        }
        sum
    }

    fn step_through(&self) -> u64 {
        let mut sum = 0u64;
        let slots = self.slots.as_slice();
        let mut at = self.first;
        for _ in 0..self.indexes.len() {
            let Some(slot) = slots.get(at as usize) else {
                return sum;
            };
            sum = sum.wrapping_add(*slot.pair.v());
            at = slot.next;
        }
        sum
    }
}
