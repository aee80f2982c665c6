//! `Ties`: how a search by key treats an equal key.
ghost use Rattle.std.specs.Prelude.{◌≡◌};
ghost use Rattle.triple_ord.specs.Ties.{taken};

use std::cmp::Ordering;

/// How a search by key treats entries with an equal key.
#[derive(Clone, Copy)]
pub(crate) enum Ties {
    /// It looks for the first of them.
    Sought,
    /// They count as smaller: the search goes behind the last of them.
    Passed,
}

impl Ties {
    /// Returns the order of a key to an entry's key, for such a search.
    pub fn order<K: Ord>(self, k: &K, other: &K) -> Ordering
        ensures { result ≡ taken self K.cmp k.now other.now }
    {
        let order = k.cmp(other);
        match self {
            Ties::Sought => order,
            Ties::Passed => order.then(Ordering::Greater),
        }
    }
}
