//! Keys from a fixed generator.
ghost use Rattle.std.specs.Prelude.{◌≡◌, vec_len, IfOk};

use std::alloc::{AllocError, Global};

/// Keys in the orders that the measures want, n of each.
#[derive(Drop)]
pub struct Keys {
    pub random: Vec<u64>,
    pub ascending: Vec<u64>,
    /// The keys of `random` in another random order.
    pub hits: Vec<u64>,
    /// Random keys that aren't in `random`.
    pub misses: Vec<u64>,
}

/// The keys for n entries.
pub fn keys_of(alloc: Global, n: usize) -> Result<Keys, AllocError> {
    let mut hits = mixed_from(alloc, 0, n)?;
    shuffle(hits.as_mut_slice());
    Ok(Keys {
        random: mixed_from(alloc, 0, n)?,
        ascending: counted(alloc, n)?,
        hits,
        misses: mixed_from(alloc, n, n)?,
    })
}

/// These keys, each with its value.
pub fn pairs_of(alloc: Global, keys: &[u64]) -> Result<Vec<(u64, u64)>, AllocError> {
    let mut pairs = Vec::new(alloc);
    for key in keys {
        pairs.push((*key, *key >> 8))?;
    }
    Ok(pairs)
}

/// Puts elements into an order that looks random.
pub fn shuffle<T>(elements: &mut [T]) {
    for i in 0..elements.len() {
        let j = (mixed(!(i as u64)) % (i as u64 + 1)) as usize;
        elements.swap(i, j);
    }
}

// A number that looks random: another one for each other `i`.
fn mixed(i: u64) -> u64 {
    let mut z = i.wrapping_add(0x9e37_79b9_7f4a_7c15);
    z = (z ^ (z >> 30)).wrapping_mul(0xbf58_476d_1ce4_e5b9);
    z = (z ^ (z >> 27)).wrapping_mul(0x94d0_49bb_1331_11eb);
    z ^ (z >> 31)
}

// The numbers from 0 up, n of them.
fn counted(alloc: Global, n: usize) -> Result<Vec<u64>, AllocError>
    ensures { IfOk result (λ keys. vec_len keys ≡ n) }
{
    let mut keys = Vec::new(alloc);
    for i in 0..n {
        keys.push(i as u64)?;
    }
    Ok(keys)
}

// Mixed numbers, n of them, from that of `start` on.
fn mixed_from(alloc: Global, start: usize, n: usize) -> Result<Vec<u64>, AllocError>
    ensures { IfOk result (λ keys. vec_len keys ≡ n) }
{
    let mut keys = Vec::new(alloc);
    for i in 0..n {
        keys.push(mixed(start.wrapping_add(i) as u64))?;
    }
    Ok(keys)
}
