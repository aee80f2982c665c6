//! `Visits`: the number of entries that a search was shown.
ghost use Rattle.std.specs.Prelude.{◌≡◌};

use std::marker::Model;

/// The number of entries that a search was shown. An entry that is shown again counts again.
///
/// For a search by key it is the number of entries whose keys were compared.
#[derive(Debug, Clone, Copy, PartialEq, Eq)]
pub struct Visits {
    count: u128,
}

impl Model for Visits {
    ghost use Rattle.std.specs.Prelude.{ℕ};

    ghost Value = { ℕ };

    ghost view = { λ v. v.count };

    ghost inverse = { λ n. record { count = n } };
}

impl Visits {
    // A number of visits.
    pub(crate) fn new(count: u128) -> Self
        ensures { result ≡ count }
    {
        Visits { count }
    }

    /// Returns the number of visits.
    pub fn count(&self) -> u128
        ensures { result ≡ self.now }
    {
        self.count
    }
}
